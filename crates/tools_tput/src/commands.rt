//! The command `tput`: a capability's name, and the words after it.
ghost use Rattle.std.specs.Prelude.{◌≡◌, ℕ, ℤ, List, OnErr, map};
ghost use Rattle.ti_layout.specs.View.{Entry, entry_seen};
ghost use Rattle.ti_param.specs.Meaning.{no_variables};
ghost use Rattle.tools_tput.specs.Entries.{line_at_rate};
ghost use Rattle.tools_tput.specs.Commands.{AnswersCommand};
ghost use Rattle.tools_tput.specs.inside.Commands.{AnswersWords};
ghost use Rattle.tools_tput.specs.inside.Results.{tput_result};
ghost use Rattle.tools_tput.specs.Results.{HasOneAnswer};
ghost use Rattle.tools_tput.specs.Runs.{BadCommandsChangeNothing};

use crate::entries::terminal_line;
use crate::replies::{TputOutcome, answer_name};
use std::alloc::Global;
use ti_layout::View;
use ti_param::{Line, Statics};
use ti_text::limits::PARAMETERS_MAX;
use tools_devices::ToolError;

/// The answer to a command on the line of its terminal, with the static variables of the commands
/// before it.
#[tactic(auto, unfolding(crate::specs::inside::Results::tput_result))]
pub(crate) fn answer(
    alloc: Global,
    view: &View<'_>,
    line: &Line,
    words: &[&[u8]],
    statics: &mut Statics,
) -> Result<TputOutcome, ToolError>
    ensures answer { (rate : ℕ) → line.now ≡ line_at_rate (entry_seen view.now) rate
        → AnswersWords result statics.new (tput_result (entry_seen view.now) (map (λ word. word.now) words.now) rate statics.old) }
    ensures err { OnErr result (statics.new ≡ statics.old) }
{
    let Some((cap, params)) = words.split_first() else {
        return Err(ToolError::Usage);
    };
    if params.len() > PARAMETERS_MAX {
        return Err(ToolError::Usage);
    }
    match answer_name(alloc, view, cap, params, line, statics) {
        Ok(outcome) => Ok(outcome),
        Err(_) => Err(ToolError::Memory),
    }
}

/// The answer to a capability's name and its parameters, as tput(1) has it: the bytes for standard
/// output, and the exit status.
///
/// A boolean writes nothing, and its status is 0 if it is set, else 1. A number is written with a
/// newline, as `-1` if it is absent. A string is written with its padding at `rate` bits per
/// second; without a parameter it is written as it is, else it is expanded with the parameters.
/// `longname` writes the terminal's description, `init` and `reset` the strings that initialize or
/// reset it. If the status is 1 or 4, nothing is written.
///
/// A word that is an optional `-` and decimal digits, from -2,147,483,648 to 2,147,483,647, is a
/// number, and any other word is a string. The second parameter of `pfkey`, `pfloc`, `pfx` and
/// `pln`, and the second and third of `pfxl`, are always strings.
///
/// # Errors
/// `Usage` if there is no word, or more than nine parameters; then `Memory`.
pub fn tput(
    alloc: Global,
    view: &View<'_>,
    words: &[&[u8]],
    rate: u32,
) -> Result<TputOutcome, ToolError>
    ensures { AnswersCommand (entry_seen view.now) rate no_variables (map (λ word. word.now) words.now) result }
{
    let line = terminal_line(view, rate);
    let mut statics = Statics::new();
    answer(alloc, view, &line, words, &mut statics)
}
