//! Laws of compiling with user-defined capabilities. They compute nothing.
ghost use Rattle.user_compiling.specs.Laws.{PlainSourcesAreAsInTheProfile};
ghost use Rattle.user_compiling.specs.ReadBack.{EntriesReadBack, RowsAreUserDefined, StatesOfBlocksAreDetermined};
ghost use Rattle.user_compiling.specs.Rows.{RowsAreDetermined};

/// A block has only one list of user-defined capabilities.
pub fn rows_are_determined()
    ensures { RowsAreDetermined }
{}

/// The user-defined capabilities of a block are such as an entry may have.
pub fn rows_are_user_defined()
    ensures { RowsAreUserDefined }
{
    user_items::laws::each_user_reading_is_sound();
}

/// Only one thing becomes of a block.
pub fn states_of_blocks_are_determined()
    ensures { StatesOfBlocksAreDetermined }
{}

/// Each entry is read as what its block says: its names field, the value of each capability of the
/// tables, and the value of each user-defined name, which `user_values` gives.
pub fn entries_read_back()
    ensures { EntriesReadBack }
{
    // Laws of the crates below, with no code.
    ti_source::laws::each_is_well_read();
    user_items::laws::each_user_reading_is_sound();
    user_extension::laws::entries_are_read();
}

/// Of a source that defines no user-defined names the entries, the faults and the report are those
/// of the profile, byte for byte.
pub fn plain_sources_are_as_in_the_profile()
    ensures { PlainSourcesAreAsInTheProfile }
{
    // Laws of the crates below, with no code.
    user_items::laws::warnings_are_of_defining_items();
    base_meaning::laws::item_faults_are_in_order();
}
