//! A law of the definitions on which the contracts of this crate depend. It computes nothing.
ghost use Rattle.source_keeping.specs.Keeping.{EditsInLinesKeepLines};

/// An edit within a line of items leaves each comment and each blank line of a text as it is, on the
/// line that it was on.
pub fn edits_keep_lines()
    ensures { EditsInLinesKeepLines }
{}
