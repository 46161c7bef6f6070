//! Laws of the definitions on which the contracts of this crate depend. They compute nothing.
ghost use Rattle.std.specs.Prelude.{List, ℕ, ℤ};
ghost use Rattle.ti_layout.specs.View.{Entry};
ghost use Rattle.tools_tput.specs.Results.{HasOneAnswer};
ghost use Rattle.tools_tput.specs.Runs.{BadCommandsChangeNothing};

/// A command that would end with status 4 writes nothing, and leaves the static variables.
pub fn bad_commands_change_nothing()
    ensures { BadCommandsChangeNothing }
{}

/// The law of answers: each command has exactly one.
pub fn one_answer()
    ensures { (entry : Entry) (rate : ℕ) (statics : List ℤ) (words : List (List ℕ)) → HasOneAnswer entry rate statics words }
{}
