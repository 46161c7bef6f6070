//! The laws of compiled entries of sources: they come back byte for byte.
ghost use Rattle.tools_relisting.specs.Entries.{EntriesOfSources, RelativeSource, Relisting, Relistings};

use crate::reading_back::parts_are_blocks;
use crate::relisting::{listings_compile, relatives_compile};
use ti_layout::laws::one_reading as entries_have_one_reading;

/// Each entry of a source of bytes that is empty or ends with a newline is a compiled entry as the
/// other laws ask for.
pub fn sources_have_entries()
    ensures { EntriesOfSources }
{
    ti_source::laws::blocks_are_single();
}

/// The listing of a compiled entry, in any layout, is a source of one block, which compiles to the
/// entry, byte for byte.
pub fn listings_compile_back()
    ensures { Relisting }
{
    ti_caps::laws::each_kind_is_in_order();
    ti_source::laws::one_outcome();
    ti_source::laws::one_reading();
    ti_source::laws::each_is_well_read();
    ti_layout::laws::images_are_of_values();
    ti_layout::laws::images_are_read();
    entries_have_one_reading();
    parts_are_blocks();
    listings_compile();
}

/// The listings of several compiled entries, one after the other, are a source of as many blocks,
/// each of which compiles to its entry, byte for byte, whatever names the entries share.
pub fn several_listings_compile_back()
    ensures { Relistings }
{
    ti_caps::laws::each_kind_is_in_order();
    ti_source::laws::one_outcome();
    ti_source::laws::one_reading();
    ti_source::laws::each_is_well_read();
    ti_layout::laws::images_are_of_values();
    ti_layout::laws::images_are_read();
    entries_have_one_reading();
    parts_are_blocks();
    listings_compile();
}

/// The relative source of a compiled entry, with the listings of the entries that it uses after it,
/// is a source of these blocks. The first compiles to the entry, byte for byte, if the first names
/// of the used entries belong to their listings and hold no backslash.
pub fn relative_sources_compile_back()
    ensures { RelativeSource }
{
    ti_caps::laws::each_kind_is_in_order();
    ti_source::laws::one_outcome();
    ti_source::laws::one_reading();
    ti_source::laws::each_is_well_read();
    ti_layout::laws::images_are_of_values();
    ti_layout::laws::images_are_read();
    entries_have_one_reading();
    parts_are_blocks();
    relatives_compile();
}
