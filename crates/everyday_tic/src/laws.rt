//! The laws of this crate: statements on its definitions. They compute nothing.
ghost use Rattle.everyday_tic.specs.Laws.{OutcomesAreDetermined, OwnNamesAreWritten};

/// A law, with no code: a block of a source has files by the same names with installed entries
/// after the source as without them.
pub fn own_names_are_written()
    ensures { OwnNamesAreWritten }
{
    everyday_sources::laws::own_names_win();
}

/// A law, with no code: the request, the source, the directories and the files determine the outcome
/// that [`tic`](crate::tic) returns, unless a read failed.
pub fn outcomes_are_determined()
    ensures { OutcomesAreDetermined }
{
    tools_sources::laws::sources_have_one_refusal();
    everyday_sources::laws::used_entries_are_determined();
    user_kept::laws::states_are_determined();
    everyday_graphics::laws::written_states_are_determined();
    everyday_constants::laws::one_with_characters();
}
