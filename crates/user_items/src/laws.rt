//! Laws of the reading of user-defined capabilities. They compute nothing.
ghost use Rattle.user_items.specs.Laws.{BlocksHaveOneUserReading, BlocksWithoutWarningsHaveUsesAlone, UserDefinedNamesHaveNoNul, WarningsAreOfDefiningItems};
ghost use Rattle.user_items.specs.Sound.{EachUserReadingIsSound};

/// Each block has one reading, which `user_items` gives.
pub fn one_user_reading()
    ensures { BlocksHaveOneUserReading }
{}

/// Where reading a block finds a name unknown, and the name is user-defined, the item defines it,
/// and so is each item that does.
pub fn warnings_are_of_defining_items()
    ensures { WarningsAreOfDefiningItems }
{}

/// A block in which reading finds no user-defined name unknown has no items that speak of
/// user-defined capabilities but its uses, and no faults of theirs.
pub fn blocks_without_warnings_have_uses_alone()
    ensures { BlocksWithoutWarningsHaveUsesAlone }
{}

/// What is known of each block: its items say values that an entry can hold of user-defined names,
/// its faults have such names, and its lines are its own.
pub fn each_user_reading_is_sound()
    ensures { EachUserReadingIsSound }
{
    // The lines are those of the items and faults of the block.
    ti_source::laws::each_is_well_read();
}

/// A user-defined name has no NUL.
pub fn user_defined_names_have_no_nul()
    ensures { UserDefinedNamesHaveNoNul }
{}
