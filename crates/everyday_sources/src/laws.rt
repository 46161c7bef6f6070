//! Laws of the definitions on which the contracts of this crate depend. They compute nothing.
ghost use Rattle.everyday_sources.specs.Used.{OwnNamesWin, SourcesComeFirst, UsedEntriesAreDetermined};
ghost use Rattle.everyday_sources.specs.Values.{FurtherBlocksStandForEntries, StandingBlocksSayTheEntry, StandingBlocksSayTheTables, UsersHaveTheEntry, UsersHaveTheTables};

/// A name that a block of a source has belongs to that block, whatever installed entries come after
/// it.
pub fn own_names_win()
    ensures { OwnNamesWin }
{}

/// The blocks of a source come first, and the installed entries that it uses after them.
pub fn sources_come_first()
    ensures { SourcesComeFirst }
{}

/// The source, the directories and the files determine the blocks and the problems that
/// [`take_used`](crate::take_used) returns, unless a read failed.
pub fn used_entries_are_determined()
    ensures { UsedEntriesAreDetermined }
{
    tools_directories::laws::finds_the_first();
    tools_directories::laws::files_have_one_reading();
    ti_source::laws::headers_have_one_reading();
}

/// With user-defined capabilities each block that [`take_used`](crate::take_used) puts after a
/// source stands for an installed entry. It says of each user-defined name and of each capability of
/// the tables what the entry has, also if user-defined capabilities are absent there, if a name has
/// values of several kinds, or if no source can have the names field of the entry; and a block that
/// uses it has that value of all that no other of its items can give it. Where no source can have the
/// names field, the name by which the entry was found has at most 127 bytes and begins with no `#`.
pub fn users_have_the_values_of_entries()
    ensures blocks { FurtherBlocksStandForEntries }
    ensures user_defined { StandingBlocksSayTheEntry }
    ensures tables { StandingBlocksSayTheTables }
    ensures users { UsersHaveTheEntry }
    ensures users_of_tables { UsersHaveTheTables }
{
    user_relisting::read_entries_have_listings();
    user_relisting::listings_say_the_entry();
    user_relisting::users_have_the_entry();
}
