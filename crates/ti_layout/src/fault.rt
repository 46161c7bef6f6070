//! Why bytes are not a compiled entry.

use thiserror::Error;

/// Why bytes are not a compiled entry: the first of these that holds, in this order.
#[derive(Clone, Copy, PartialEq, Eq, Debug, Error)]
pub enum ReadError {
    /// Fewer than the twelve bytes of a header.
    #[error("Short")]
    Short,
    /// The first number is neither 0x011A nor 0x021E.
    #[error("Magic")]
    Magic,
    /// A size or a count is negative, or a count is over the capabilities of its kind.
    #[error("Counts")]
    Counts,
    /// The bytes end before the string table does.
    #[error("Truncated")]
    Truncated,
    /// The names take fewer than two bytes, or their only NUL is not their last byte.
    #[error("BadNames")]
    BadNames,
    /// The byte of a boolean is none of 0, 1, 0xFE and 0xFF.
    #[error("BadFlag")]
    BadFlag,
    /// A number is below -2.
    #[error("BadNumber")]
    BadNumber,
    /// An offset is below -2, or no NUL follows it within the string table.
    #[error("BadOffset")]
    BadOffset,
}
