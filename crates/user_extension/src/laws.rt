//! Laws of the definitions on which the contracts of this crate depend. They compute nothing.
ghost use Rattle.user_extension.specs.Laws.{EntriesAreRead, ExtensionsAreRead, TextsHaveNoNul};

/// What is written of user-defined capabilities is read as these, whatever follows it: if they are
/// in the order of kinds and names, each name once, take at most 32,768 bytes, and have numbers
/// that fit the format.
pub fn extensions_are_read()
    ensures { ExtensionsAreRead }
{}

/// What is written is read again, with its names, its table and its user-defined capabilities.
pub fn entries_are_read()
    ensures { EntriesAreRead }
{}

/// A string of an entry that is read holds no NUL.
pub fn texts_have_no_nul()
    ensures { TextsHaveNoNul }
{}
