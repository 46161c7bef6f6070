//! The laws of compiled entries with user-defined capabilities: they come back byte for byte.
ghost use Rattle.user_recompiling.specs.Entries.{EntriesOfSources, ListingsHaveNoMoreNames, RelativeSource, Relisting, RelistingAnywhere, Relistings};
ghost use Rattle.user_recompiling.specs.Shown.{EntriesAreShown, ShownComeBack, ShownHaveNoMoreNames, ShownRelativeSource};

use ti_layout::laws::one_reading as entries_have_one_reading;

/// Each entry that `-x` makes, by whatever rule, of a source of bytes that is empty or ends with a
/// newline is a compiled entry as the other laws ask for.
pub fn sources_have_entries()
    ensures { EntriesOfSources }
{
    ti_source::laws::blocks_are_single();
}

/// The listing of a compiled entry with user-defined capabilities, in any layout, is a source of
/// one block, which compiles to the entry by `-x`, byte for byte, also where other blocks are in the
/// source. It does so by any rule, also by another than that by which the entry was made. It has no
/// more user-defined names than the source of the entry, so it is not refused for them.
pub fn listings_compile_back()
    ensures compile { Relisting }
    ensures anywhere { RelistingAnywhere }
    ensures names { ListingsHaveNoMoreNames }
{
    ti_caps::laws::each_kind_is_in_order();
    ti_source::laws::one_outcome();
    ti_source::laws::one_reading();
    ti_source::laws::each_is_well_read();
    entries_have_one_reading();
    user_items::laws::one_user_reading();
    user_extension::laws::entries_are_read();
    user_compiling::laws::rows_are_user_defined();
    user_compiling::laws::states_of_blocks_are_determined();
    user_relisting::items_are_blocks();
    user_relisting::items_are_read_by_the_profile();
    user_relisting::listings_are_read();
    user_relisting::listings_say_the_entry();
}

/// The listings of several compiled entries, one after the other, are a source of as many blocks,
/// each of which compiles to its entry by `-x`, byte for byte, by any rule and whatever names the
/// entries share.
pub fn several_listings_compile_back()
    ensures { Relistings }
{
    ti_caps::laws::each_kind_is_in_order();
    ti_source::laws::one_outcome();
    ti_source::laws::one_reading();
    ti_source::laws::each_is_well_read();
    entries_have_one_reading();
    user_items::laws::one_user_reading();
    user_extension::laws::entries_are_read();
    user_compiling::laws::rows_are_user_defined();
    user_compiling::laws::states_of_blocks_are_determined();
    user_relisting::items_are_blocks();
    user_relisting::items_are_read_by_the_profile();
    user_relisting::listings_say_the_entry();
}

/// The relative source of a compiled entry with user-defined capabilities, with the listings of the
/// entries that it uses after it, is a source of these blocks. The first compiles to the entry by
/// `-x`, byte for byte and by any rule, if the first names of the used entries belong to their
/// listings and hold no backslash.
pub fn relative_sources_compile_back()
    ensures { RelativeSource }
{
    ti_caps::laws::each_kind_is_in_order();
    ti_source::laws::one_outcome();
    ti_source::laws::one_reading();
    ti_source::laws::each_is_well_read();
    entries_have_one_reading();
    user_items::laws::one_user_reading();
    user_extension::laws::entries_are_read();
    user_compiling::laws::rows_are_user_defined();
    user_compiling::laws::states_of_blocks_are_determined();
    user_relisting::items_are_blocks();
    user_relisting::items_are_read_by_the_profile();
    user_relisting::relatives_say_the_entry_in_a_source();
}

/// A compiled entry with user-defined capabilities can be listed, and is that of what is shown. Of
/// each such entry, of whatever it is made, the listing in any layout is a source of one block, which
/// compiles to the entry by `-x`, byte for byte, in whatever source and by any rule; it has no more
/// user-defined names than what is shown; and so does its relative source, with the listings of the
/// entries that it uses.
pub fn shown_entries_come_back()
    ensures shown { EntriesAreShown }
    ensures come_back { ShownComeBack }
    ensures names { ShownHaveNoMoreNames }
    ensures relative { ShownRelativeSource }
{
    ti_caps::laws::each_kind_is_in_order();
    ti_source::laws::one_outcome();
    ti_source::laws::one_reading();
    ti_source::laws::each_is_well_read();
    entries_have_one_reading();
    user_items::laws::one_user_reading();
    user_extension::laws::entries_are_read();
    user_compiling::laws::rows_are_user_defined();
    user_compiling::laws::states_of_blocks_are_determined();
    user_relisting::items_are_blocks();
    user_relisting::items_are_read_by_the_profile();
    user_relisting::listings_are_read();
    user_relisting::listings_say_the_entry();
    user_relisting::relatives_say_the_entry_in_a_source();
}
