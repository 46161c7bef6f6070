//! A listing is read as what it lists.
ghost use Rattle.user_relisting.specs.Items.{ItemsAreBlocks, ItemsAreRead, ItemsAreReadByTheProfile};
ghost use Rattle.user_relisting.specs.ReadingBack.{ListingsAreRead, ListingsCompileByTheProfile, ListingsSayTheEntry, ListingsSayTheTables};
ghost use Rattle.user_relisting.specs.Using.{UsersHaveTheEntry, UsersHaveTheTables};
ghost use Rattle.user_relisting.specs.ReadingBack.{ReadEntriesHaveListings, RelativesAreRead, RelativesSayTheEntry};
ghost use Rattle.user_relisting.specs.ReadingBack.{RelativesSayTheEntryInASource, RelativesSayTheTablesInASource};

/// Each text that is laid out as a listing, whatever its layout, is read as the user-defined items
/// and the uses that it lists, without a fault.
pub fn items_are_read()
    ensures { ItemsAreRead }
{
    ti_caps::laws::every_name_is_found();
    ti_source::laws::written_spells();
    user_items::laws::one_user_reading();
}

/// Such a text is read without user-defined capabilities as the items of the tables and the uses.
/// Its faults are warnings of unknown names.
pub fn items_are_read_by_the_profile()
    ensures { ItemsAreReadByTheProfile }
{
    ti_caps::laws::every_name_is_found();
    ti_source::laws::written_spells();
    ti_source::laws::one_reading();
}

/// Each text that is laid out as a listing with user-defined items, whatever its layout, is one
/// block.
pub fn items_are_blocks()
    ensures { ItemsAreBlocks }
{
    ti_caps::laws::every_name_is_found();
    ti_source::laws::written_spells();
}

/// The listing of an entry with user-defined capabilities, in any layout, is read as exactly these,
/// each with its value and in their order, without a fault.
pub fn listings_are_read()
    ensures { ListingsAreRead }
{
    ti_caps::laws::each_kind_is_in_order();
    items_are_read();
}

/// The listing of an entry with user-defined capabilities, in any layout, in whatever source it is
/// and by whatever rule that is read, compiles without these to the image of what the tables have.
pub fn listings_compile_by_the_profile()
    ensures { ListingsCompileByTheProfile }
{
    ti_caps::laws::each_kind_is_in_order();
    ti_layout::laws::images_are_of_values();
    items_are_read_by_the_profile();
}

/// The relative source of an entry with user-defined capabilities, in any layout, is read as what
/// it says of those that differ from the others, kind by kind, and then the uses, without a fault.
pub fn relatives_are_read()
    ensures { RelativesAreRead }
{
    ti_caps::laws::each_kind_is_in_order();
    items_are_read();
}

/// What a relative source says of a user-defined name, and where it says nothing what the first of
/// the others has of it, is what the entry has of it.
pub fn relatives_say_the_entry()
    ensures { RelativesSayTheEntry }
{}

/// What is read of an entry has a listing as the next law asks for, with any names field that can be
/// listed: also if user-defined capabilities are absent there, or a name has values of several kinds.
pub fn read_entries_have_listings()
    ensures { ReadEntriesHaveListings }
{}

/// In whatever source it is and by whatever rule that is read, the listing of an entry with
/// user-defined capabilities says of each user-defined name and of each capability of the tables
/// what the entry has.
pub fn listings_say_the_entry()
    ensures user_defined { ListingsSayTheEntry }
    ensures tables { ListingsSayTheTables }
{
    ti_caps::laws::each_kind_is_in_order();
    items_are_read();
    items_are_read_by_the_profile();
}

/// In a source in which the first names of the others lead to their listings, and by whatever rule
/// the source is read, the relative source of an entry says of each user-defined name and of each
/// capability of the tables what the entry has.
pub fn relatives_say_the_entry_in_a_source()
    ensures user_defined { RelativesSayTheEntryInASource }
    ensures tables { RelativesSayTheTablesInASource }
{
    ti_caps::laws::each_kind_is_in_order();
    items_are_read();
    items_are_read_by_the_profile();
}

/// A block that uses an entry whose listing stands in its source has the entry's value of each
/// user-defined name and of each capability of the tables that no other of its items can give it,
/// by whatever rule the source is read.
pub fn users_have_the_entry()
    ensures user_defined { UsersHaveTheEntry }
    ensures tables { UsersHaveTheTables }
{
    ti_caps::laws::each_kind_is_in_order();
    items_are_read();
    items_are_read_by_the_profile();
}
