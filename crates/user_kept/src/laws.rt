//! Laws of what edits leave, and of what is kept. They compute nothing.
ghost use Rattle.user_kept.specs.Kept.{KeptStatesStayRight, KeptTablesStayRight, StatesAreDetermined};
ghost use Rattle.user_kept.specs.Untouched.{UntouchedBlocksSayTheSame, UntouchedBlocksSayTheSameByRule};
ghost use Rattle.user_kept.specs.Laws.{BlocksNotRebuiltAreUntouched};

/// A block that does not depend on an edit stood in the source before, and says of user-defined
/// capabilities, and of the tables, what it said.
pub fn untouched_blocks_say_the_same()
    ensures { UntouchedBlocksSayTheSame }
{}

/// By each rule such a block says of user-defined capabilities what it said.
pub fn untouched_blocks_say_the_same_by_rule()
    ensures { UntouchedBlocksSayTheSameByRule }
{}

/// The table that such a block had is its table after the edit.
pub fn kept_tables_stay_right()
    ensures { KeptTablesStayRight }
{}

/// What `compile` said to become of such a block becomes of it after the edit.
pub fn kept_states_stay_right()
    ensures { KeptStatesStayRight }
{}

/// Only one thing becomes of a source: what is kept of it is what `compile` gives of it afresh.
pub fn states_are_determined()
    ensures { StatesAreDetermined }
{}

/// A block that an edit does not rebuild (`Edited::rebuilt`) stood in the source before, and says of
/// user-defined capabilities, and of the tables, what it said. So what was found out about it is
/// still right, and is kept.
pub fn blocks_not_rebuilt_are_untouched()
    ensures { BlocksNotRebuiltAreUntouched }
{
    untouched_blocks_say_the_same();
}
