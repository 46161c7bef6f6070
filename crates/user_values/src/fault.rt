//! Why a source has no user-defined values.
ghost use Rattle.std.specs.Prelude.{◌≡◌};
ghost use Rattle.user_values.specs.declared.fault.ValuesError.TheVariants.{Memory};

use std::alloc::AllocError;
use thiserror::Error;

/// Why a source has no user-defined values.
#[derive(Clone, Copy, PartialEq, Eq, Debug, Error)]
pub enum ValuesError {
    /// The source has more than 1,024 distinct user-defined names; the next one comes in the block
    /// at this position.
    #[error("TooManyNames")]
    TooManyNames(usize),
    /// There is no memory for the tables.
    #[error("Memory")]
    Memory,
}

impl From<AllocError> for ValuesError {
    ghost from_gives = { λ _ e. e ≡ Memory };

    fn from(_e: AllocError) -> ValuesError {
        ValuesError::Memory
    }
}
