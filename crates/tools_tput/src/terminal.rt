//! A terminal that takes commands line by line, and writes their output.
ghost use Rattle.std.specs.Prelude.{◌≡◌, ◌==◌, ℕ, IfOk};
ghost use Rattle.ti_layout.specs.View.{Entry, entry_seen};
ghost use Rattle.tools_tput.specs.Results.{bad_status};
ghost use Rattle.tools_tput.specs.Runs.{RunState, run_status, lines_start};
ghost use Rattle.tools_tput.specs.inside.Runs.{line_step};

use crate::commands::answer;
use crate::entries::terminal_line;
use crate::replies::BAD_COMMAND;
use crate::words::split_words;
use std::alloc::{AllocError, Global};
use std::io::Write;
use ti_layout::View;
use ti_param::{Line, Statics};
use tools_devices::{Counted, Interpreter, ToolError, write_out};

/// A terminal that takes commands: its entry and line, the static variables, and how many commands
/// were bad, up to 255.
#[derive(Drop)]
pub struct Terminal<'a> {
    alloc: Global,
    view: View<'a>,
    line: Line,
    statics: Statics,
    bad: u8,
}

// Whether a command of that status counts as bad. A command whose capability is absent is not bad.
fn is_bad(status: u8) -> bool
    ensures { result ≡ (status == bad_status) }
{
    status == BAD_COMMAND
}

impl<'a> Terminal<'a> {
    ghost use Rattle.tools_tput.specs.inside.Terminal.{HasRunState};

    /// The terminal of an entry at a rate, before any command.
    pub fn new(alloc: Global, view: &View<'a>, rate: u32) -> Terminal<'a>
        ensures { HasRunState (entry_seen view.now) rate result lines_start }
    {
        Terminal {
            alloc,
            view: *view,
            line: terminal_line(view, rate),
            statics: Statics::new(),
            bad: 0,
        }
    }

    // What a line writes. A bad line is counted, and writes nothing.
    fn bytes_of(&mut self, line: &[u8]) -> Result<Vec<u8>, AllocError>
        ensures { (entry : Entry) (rate : ℕ) (state : RunState) → HasRunState entry rate self.old state
            → IfOk result (λ bytes. HasRunState entry rate self.new (line_step entry rate state line.now).after
            × (bytes.items ≡ (line_step entry rate state line.now).bytes)) }
    {
        let words = split_words(line);
        if words.is_empty() {
            return Ok(Vec::new(self.alloc));
        }
        match answer(
            self.alloc,
            &self.view,
            &self.line,
            words.as_slice(),
            &mut self.statics,
        ) {
            Ok(outcome) => {
                if is_bad(outcome.status) {
                    self.bad = self.bad.saturating_add(1);
                }
                Ok(outcome.bytes)
            }
            Err(ToolError::Usage) => {
                self.bad = self.bad.saturating_add(1);
                Ok(Vec::new(self.alloc))
            }
            Err(_) => Err(AllocError),
        }
    }

    /// The exit status after these commands: 0 if none was bad, else 4 and the number of bad ones,
    /// at most 255.
    pub fn status(&self) -> u8
        ensures { (entry : Entry) (rate : ℕ) (state : RunState) → HasRunState entry rate self.now state → result ≡ run_status state.bad }
    {
        if self.bad == 0 {
            return 0;
        }
        self.bad.saturating_add(BAD_COMMAND)
    }
}

impl<'a> Interpreter for Terminal<'a> {
    ghost use Rattle.tools_tput.specs.inside.Terminal.{IsInState, TerminalState, line_leads};

    ghost State = { TerminalState };

    ghost holds = { IsInState };

    ghost leads = { line_leads };

    ghost may_run_out = { Unit {0} };

    fn take_line<W: Write>(
        &mut self,
        line: &[u8],
        writer: &mut Counted<W>,
    ) -> Result<(), ToolError> {
        let bytes = self.bytes_of(line)?;
        write_out(writer, bytes.as_slice())
    }
}
