//! A compiled entry as C holds it: a view of the library, taken apart.
ghost use Rattle.std.specs.Prelude.{◌<◌, length};
ghost use Rattle.ti_layout.specs.Layout.{first_negative};
ghost use Rattle.ti_layout.specs.declared.layout.Format.TheVariants.{Legacy};
ghost use Rattle.ti_layout.specs.inside.View.{OffsetsEnd};

/// An entry that was read, as C holds it: its sections, and the bytes that they lie in.
#[repr(C)]
#[derive(Clone, Copy)]
pub struct Entry<'a> {
    /// Whether numbers take four bytes.
    pub wide: bool,
    pub names: &'a [u8],
    pub flags: &'a [u8],
    pub numbers: &'a [u8],
    pub offsets: &'a [u8],
    pub strings: &'a [u8],
    /// The bytes that it was read from.
    pub bytes: &'a [u8],
    /// each plain offset leads into the string table
    pub ghost ends: { OffsetsEnd offsets.now strings.now },
    /// which is no longer than a header can say
    pub ghost short: { length strings.now < first_negative Legacy },
}
