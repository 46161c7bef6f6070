//! An extension that was read, as its sections: for a caller that holds them in another struct.
ghost use Rattle.std.specs.Prelude.{◌≡◌, ◌<◌, ◌+◌, length};
ghost use Rattle.ti_layout.specs.Layout.{first_negative};
ghost use Rattle.ti_layout.specs.declared.layout.Format.TheVariants.{Legacy};
ghost use Rattle.ti_layout.specs.Reading.{count_in};
ghost use Rattle.ti_layout.specs.inside.View.{OffsetsEnd};
ghost use Rattle.user_extension.specs.Reading.{name_table};
ghost use Rattle.user_extension.specs.inside.View.{LeadInto, EachIsNamed, AreUserDefinedNames, RiseByKind};

use ti_layout::Format;

/// The sections of an extension that was read, each a slice of the bytes that it was read from.
/// Seven facts say that they are an extension, so that [`crate::Extension::of_parts`] looks through
/// nothing.
#[derive(Clone, Copy)]
pub struct ExtensionParts<'a> {
    /// The format of the entry.
    pub format: Format,
    /// A byte for each boolean.
    pub flags: &'a [u8],
    /// The numbers, by the width of the format.
    pub numbers: &'a [u8],
    /// Where each string begins in the table, two bytes each.
    pub values: &'a [u8],
    /// Where each name begins in the names, two bytes each.
    pub names: &'a [u8],
    /// The table: the strings, and after them the names.
    pub table: &'a [u8],
    /// The names: the table after the strings.
    pub tail: &'a [u8],
    /// each offset of a value that is there leads into the table
    pub ghost ends: { OffsetsEnd values.now table.now },
    /// the names are in the rest of the table
    pub ghost rest: { tail.now ≡ name_table values.now table.now },
    /// each offset of a name leads into it
    pub ghost lead: { LeadInto names.now tail.now },
    /// each name is user-defined
    pub ghost user_defined: { AreUserDefinedNames names.now tail.now },
    /// the names of a kind rise
    pub ghost rise: { RiseByKind (length flags.now) (length flags.now + count_in format numbers.now) names.now tail.now },
    /// there are no more than a header can say
    pub ghost few: { count_in Legacy names.now < first_negative Legacy },
    /// each capability has a name
    pub ghost named: { EachIsNamed format flags.now numbers.now values.now names.now },
}
