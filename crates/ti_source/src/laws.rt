//! Laws of the definitions on which the contracts of this crate depend. They compute nothing.
ghost use Rattle.ti_source.specs.Cutting.{BlocksAreSingle, BlocksAreSingleOnceEnded, EachHasCut, IsOnlyCut};
ghost use Rattle.ti_source.specs.Folding.{EachIsFolded, OneFolding};
ghost use Rattle.ti_source.specs.Header.{EachHeaderIsRead, HeadersHaveOneReading};
ghost use Rattle.ti_source.specs.Parsing.{BlocksAreLeftmost, BlocksHaveOneReading, HasReading};
ghost use Rattle.ti_source.specs.Sound.{EachIsWellRead};

use ti_caps::{Kind, count};
pub use ti_spelling::laws::{
    each_number_is_read, numbers_have_one_reading, numerals_have_one_value, one_outcome,
    written_spells,
};

/// Each source has a cut.
pub fn each_has_cut()
    ensures { EachHasCut }
{}

/// A source has only one cut, which [`blocks`](crate::blocks) returns.
pub fn one_cut()
    ensures { IsOnlyCut }
{}

/// Each block of a source that ends with a newline is one block by itself.
pub fn blocks_are_single()
    ensures { BlocksAreSingle }
{}

/// Each block of a source is one block by itself, once a newline ends its last line.
pub fn blocks_are_single_once_ended()
    ensures { BlocksAreSingleOnceEnded }
{}

/// A block has one folded text. A reading of the block begins with it.
pub fn one_folding()
    ensures each { EachIsFolded }
    ensures only { OneFolding }
{}

/// Each names field has lookup names or is bad.
pub fn each_header_is_read()
    ensures { EachHeaderIsRead }
{}

/// A names field has only one reading.
pub fn headers_have_one_reading()
    ensures { HeadersHaveOneReading }
{}

/// Each block has one reading, which `parse` gives.
pub fn one_reading()
    ensures each { HasReading }
    ensures only { BlocksHaveOneReading }
{}

/// The values of a block that is read count by [`Rule::Leftmost`](crate::Rule::Leftmost).
pub fn blocks_are_leftmost()
    ensures { BlocksAreLeftmost }
{}

/// What is known of each block that is read: its lookup names are such, its items set their kinds,
/// its lines are its own, and if no fault is an error its names field can be written.
pub fn each_is_well_read()
    ensures { EachIsWellRead }
{
    // How many capabilities each kind has: the proof needs these.
    count(Kind::Flag);
    count(Kind::Number);
    count(Kind::Text);
}
