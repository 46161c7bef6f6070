//! What an edit of a source is, and what comes of it.
ghost use Rattle.std.specs.Prelude.{◌≡◌};
ghost use Rattle.base_meaning.specs.declared.edits.EditError.TheVariants.{Memory};

use std::alloc::AllocError;
use thiserror::Error;

/// An edit of the list of blocks. Positions count from 0.
#[derive(Clone, Copy)]
pub enum Edit<'a> {
    /// Puts a block in, so that it is then at `at`.
    Insert {
        /// A position, or the length of the list.
        at: usize,
        /// The text of one block.
        text: &'a [u8],
    },
    /// Replaces the block at `at`.
    Replace {
        /// A position.
        at: usize,
        /// The text of one block.
        text: &'a [u8],
    },
    /// Takes the block at `at` out.
    Remove {
        /// A position.
        at: usize,
    },
    /// Moves the block at `from`, so that it is then at `to`.
    Relocate {
        /// A position.
        from: usize,
        /// A position.
        to: usize,
    },
}

/// Why an edit is refused: the first of these that holds.
#[derive(Clone, Copy, PartialEq, Eq, Debug, Error)]
pub enum EditError {
    /// A position is not one of the list, nor, for an insertion, its end.
    #[error("no such position")]
    Position,
    /// The text has more than 1,048,576 bytes.
    #[error("the block is too long")]
    TooLong,
    /// The text is not one block that ends with a newline.
    #[error("the text is not one block")]
    NotOneBlock,
    /// The list holds 65,535 blocks, and an insertion brings one more.
    #[error("too many blocks")]
    TooMany,
    /// Memory was refused.
    #[error("out of memory")]
    Memory,
}

impl From<AllocError> for EditError {
    ghost from_gives = { λ _ e. e ≡ Memory };

    fn from(_: AllocError) -> EditError {
        EditError::Memory
    }
}

/// What an accepted edit rebuilt.
#[derive(PartialEq, Eq, Debug, Drop)]
pub struct Edited {
    /// The positions of the blocks that depend on the edit, in the new list, in ascending order.
    pub rebuilt: Vec<usize>,
    /// A step for each capability item that was added to a table, and for each table of a used name
    /// that was merged.
    pub work: u64,
}

/// What came of one edit of several.
#[derive(Clone, Copy, PartialEq, Eq, Debug)]
pub enum Outcome {
    /// The edit was made.
    Accepted,
    /// The edit was not made, and the list is as before.
    Refused(EditError),
}

impl From<Result<Edited, EditError>> for Outcome {
    ghost use Rattle.base_meaning.specs.Edits.{outcome_of};

    ghost from_gives = { λ answer outcome. outcome ≡ outcome_of answer };

    fn from(answer: Result<Edited, EditError>) -> Outcome {
        match answer {
            Ok(_) => Outcome::Accepted,
            Err(error) => Outcome::Refused(error),
        }
    }
}
