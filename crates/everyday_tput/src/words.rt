//! The words of a line.
ghost use Rattle.std.specs.Prelude.{◌≡◌, IfOk, map};
ghost use Rattle.everyday_tput.specs.Runs.{words_of};

use crate::numbers::is_space;
use std::alloc::{AllocError, Global};

/// The words of a line, which white space separates.
///
/// # Errors
/// `AllocError` if memory ran out.
pub(crate) fn split_words(alloc: Global, line: &[u8]) -> Result<Vec<&[u8]>, AllocError>
    ensures { IfOk result (λ words. map (λ word. word.now) words.items ≡ words_of line.now) }
{
    line.split(|byte| is_space(*byte))
        .filter(|word| word.len() > 0)
        .collect(alloc)
}
