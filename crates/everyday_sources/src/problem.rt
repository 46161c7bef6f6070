//! What is wrong with a file that was found for a used name.
use user_extension::ExtensionError;

/// What is wrong with a file that was found for a name that an item uses.
#[derive(Debug, PartialEq, Eq, Drop)]
pub struct Problem {
    /// The path of the file.
    pub path: String,
    /// Why its entry is not taken.
    pub cause: Cause,
}

/// Why the entry of a file is not taken.
#[derive(Clone, Copy, Debug, PartialEq, Eq)]
pub enum Cause {
    /// It is not an entry.
    BadEntry(ExtensionError),
    /// The name by which it was looked for is not among its names.
    OtherNames,
    /// Its listing is not a block that the source has room for.
    NoRoom,
}
