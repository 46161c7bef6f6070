//! Laws of the definitions on which the contracts of this crate depend. They compute nothing.
ghost use Rattle.everyday_names.specs.Laws.{FittedBlocksReadAlike, NamedEntriesRead};

/// A block with a part of its description says the same as the whole block: the same names, the same
/// items and faults of items, and the same of user-defined capabilities. Only its names field is
/// shorter, and it has not the error that the field is too long.
pub fn fitted_blocks_read_alike()
    ensures { FittedBlocksReadAlike }
{}

/// An entry with another names field is an entry of that field, and of the same values and the same
/// user-defined capabilities.
pub fn named_entries_read()
    ensures { NamedEntriesRead }
{}
