//! User-defined capabilities of an entry as C holds them: an extension of the library, taken apart.
ghost use Rattle.std.specs.Prelude.{◌≡◌, ◌<◌, ◌+◌, length};
ghost use Rattle.ti_layout.specs.Layout.{first_negative};
ghost use Rattle.ti_layout.specs.declared.layout.Format.TheVariants.{Legacy};
ghost use Rattle.ti_layout.specs.Reading.{count_in};
ghost use Rattle.ti_layout.specs.inside.View.{OffsetsEnd};
ghost use Rattle.user_extension.specs.Reading.{name_table};
ghost use Rattle.user_extension.specs.inside.View.{LeadInto, EachIsNamed, AreUserDefinedNames, RiseByKind};
ghost use Rattle.ti_c.specs.Entries.{format_of};

/// The user-defined capabilities of an entry that was read, as C holds them: their sections.
#[repr(C)]
#[derive(Clone, Copy)]
pub struct EntryExtension<'a> {
    /// Whether numbers take four bytes.
    pub wide: bool,
    pub flags: &'a [u8],
    pub numbers: &'a [u8],
    pub values: &'a [u8],
    pub names: &'a [u8],
    pub table: &'a [u8],
    pub tail: &'a [u8],
    /// each offset of a value that is there leads into the table
    pub ghost ends: { OffsetsEnd values.now table.now },
    /// the names are in the rest of the table
    pub ghost rest: { tail.now ≡ name_table values.now table.now },
    /// each offset of a name leads into it
    pub ghost lead: { LeadInto names.now tail.now },
    /// each name is user-defined
    pub ghost user_defined: { AreUserDefinedNames names.now tail.now },
    /// the names of a kind rise
    pub ghost rise: { RiseByKind (length flags.now) (length flags.now + count_in (format_of wide) numbers.now) names.now tail.now },
    /// there are no more than a header can say
    pub ghost few: { count_in Legacy names.now < first_negative Legacy },
    /// each capability has a name
    pub ghost named: { EachIsNamed (format_of wide) flags.now numbers.now values.now names.now },
}
