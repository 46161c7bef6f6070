//! A listing compiles to what was listed, and a relative source to its entry.
ghost use Rattle.tools_relisting.specs.Relisting.{ListingsCompile, RelativesCompile};

use crate::reading_back::parts_are_read;

/// The listing of a names field and contents that a source can give, in any layout, compiles to
/// their image, in whatever source it is.
pub fn listings_compile()
    ensures { ListingsCompile }
{
    ti_caps::laws::each_kind_is_in_order();
    ti_layout::laws::images_are_of_values();
    parts_are_read();
}

/// The relative source of an entry, with the listings of the entries that it uses after it,
/// compiles to the image of the entry, if the first names of the used entries belong to their
/// listings and hold no backslash.
pub fn relatives_compile()
    ensures { RelativesCompile }
{
    ti_caps::laws::each_kind_is_in_order();
    ti_layout::laws::images_are_of_values();
    parts_are_read();
}
