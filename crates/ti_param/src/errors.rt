//! Why a parameter string has no expansion.
use std::alloc::{AllocError, AllocFailed};
use thiserror::Error;

/// Why `expand` gives no bytes. A place is the index of a `%` in the format.
#[derive(Clone, Copy, Debug, PartialEq, Eq, Error)]
pub enum ParamError {
    /// The first `%` that begins no code which may come there.
    #[error("no code may stand at byte {0} of the format")]
    BadFormat(usize),
    /// The code that pushed a value when 20 were on the stack.
    #[error("the stack is full at byte {0} of the format")]
    StackFull(usize),
    /// Memory ran out.
    #[error("out of memory")]
    Memory,
}

impl From<AllocError> for ParamError {
    ghost use Rattle.std.specs.Prelude.{◌≡◌};
    ghost use Rattle.ti_param.specs.declared.errors.ParamError.TheVariants.{Memory};

    ghost from_gives = { λ _ e. e ≡ Memory };

    fn from(_error: AllocError) -> ParamError {
        ParamError::Memory
    }
}

impl<T: Drop> From<AllocFailed<T>> for ParamError {
    ghost use Rattle.std.specs.Prelude.{◌≡◌};
    ghost use Rattle.ti_param.specs.declared.errors.ParamError.TheVariants.{Memory};

    ghost from_gives = { λ _ e. e ≡ Memory };

    fn from(_error: AllocFailed<T>) -> ParamError {
        ParamError::Memory
    }
}
