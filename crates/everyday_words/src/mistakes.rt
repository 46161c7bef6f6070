//! Why words that clap takes ask for nothing.
ghost use Rattle.std.specs.Prelude.{◌≡◌};
ghost use Rattle.everyday_words.specs.declared.mistakes.NoRequest.TheVariants.{Memory};

use std::alloc::AllocError;
use tools_commands::Mistake;

/// Why the matches of a tool give no request.
#[derive(Clone, Copy, Debug)]
pub(crate) enum NoRequest {
    /// This is wrong with the words.
    Wrong(Mistake),
    /// A growth of memory was refused.
    Memory,
}

impl From<AllocError> for NoRequest {
    ghost from_gives = { λ _ no_request. no_request ≡ Memory };

    fn from(_error: AllocError) -> NoRequest {
        NoRequest::Memory
    }
}
