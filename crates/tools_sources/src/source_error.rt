//! Why a source is refused.
use thiserror::Error;

/// Why a source is refused before any of it is compiled, by the first of its blocks that is too
/// long or one too many.
#[derive(Clone, Copy, Debug, PartialEq, Eq, Error)]
pub enum SourceError {
    /// The block has more than 1,048,576 bytes, once its last line is ended. Its first line,
    /// counted from 1.
    #[error("block too long at line {line}")]
    BlockTooLong {
        /// The line, counted from 1.
        line: usize,
    },
    /// The block is the 65,536th. Its first line, counted from 1.
    #[error("too many blocks at line {line}")]
    TooManyBlocks {
        /// The line, counted from 1.
        line: usize,
    },
}
