//! Laws of the definitions on which the contracts of this crate depend. They compute nothing.
ghost use Rattle.source_block_hints.specs.Laws.{EachStringHasACount};

/// Each string has a count of parameters, in the order of the compiled entry, and nothing else has.
/// That the counts are those of terminfo(5) is tested, by a row for each string.
pub fn each_string_has_a_count()
    ensures { EachStringHasACount }
{}
