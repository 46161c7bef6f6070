//! An entry that was read, as its sections: for a caller that holds them in another struct.
ghost use Rattle.std.specs.Prelude.{◌<◌, length};
ghost use Rattle.ti_layout.specs.Layout.{first_negative};
ghost use Rattle.ti_layout.specs.declared.layout.Format.TheVariants.{Legacy};
ghost use Rattle.ti_layout.specs.inside.View.{OffsetsEnd};

use crate::layout::Format;

/// The sections of an entry that was read, each a slice of the bytes that it was read from. Two
/// facts say that they are an entry, so that [`crate::View::of_parts`] looks through nothing.
#[derive(Clone, Copy)]
pub struct ViewParts<'a> {
    /// The format of the entry.
    pub format: Format,
    /// The names field, without its NUL.
    pub names: &'a [u8],
    /// A byte for each boolean.
    pub flags: &'a [u8],
    /// The numbers, by the width of the format.
    pub numbers: &'a [u8],
    /// Where each string begins in the string table, two bytes each.
    pub offsets: &'a [u8],
    /// The string table.
    pub strings: &'a [u8],
    /// each plain offset leads into the string table
    pub ghost ends: { OffsetsEnd offsets.now strings.now },
    /// the string table is no longer than a header can say
    pub ghost short: { length strings.now < first_negative Legacy },
}
