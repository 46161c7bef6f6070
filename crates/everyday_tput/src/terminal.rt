//! A terminal that takes commands line by line, and writes their output.
ghost use Rattle.std.specs.Prelude.{◌≡◌, IfOk};
ghost use Rattle.everyday_tput.specs.Answers.{target_of};
ghost use Rattle.everyday_tput.specs.Runs.{RunState, ended_status, lines_start};

use crate::running::{Until, run};
use crate::strings::BAD_COMMAND;
use crate::target::Target;
use crate::words::split_words;
use std::alloc::{AllocError, Global};
use std::io::Write;
use ti_param::{Line, Statics};
use tools_devices::{Counted, Interpreter, ToolError, write_out};
use tools_tput::terminal_line;

/// A terminal that takes commands: what they are for, the static variables, how many commands were
/// absent or false, up to 255, and the name at which it has stopped.
#[derive(Drop)]
pub struct Terminal<'a> {
    alloc: Global,
    target: Target<'a>,
    line: Line,
    statics: Statics,
    absent: u8,
    ended: Option<Vec<u8>>,
}

impl<'a> Terminal<'a> {
    ghost use Rattle.everyday_tput.specs.Answers.{FullTarget};
    ghost use Rattle.everyday_tput.specs.inside.Terminal.{HasRunState, LeadsTo};

    /// The terminal before any command.
    pub fn new(alloc: Global, target: &Target<'a>) -> Terminal<'a>
        ensures { HasRunState (target_of target.now) result lines_start }
    {
        Terminal {
            alloc,
            target: *target,
            line: terminal_line(&target.entry.view, target.rate),
            statics: Statics::new(),
            absent: 0,
            ended: None,
        }
    }

    // What a line writes.
    fn bytes_of(&mut self, line: &[u8]) -> Result<Vec<u8>, AllocError>
        ensures { (t : FullTarget) (state : RunState) → HasRunState t self.old state → IfOk result (λ bytes. LeadsTo t state line.now self.new bytes.items) }
    {
        if self.ended.is_some() {
            return Ok(Vec::new(self.alloc));
        }
        let words = split_words(self.alloc, line)?;
        let mut statics = self.statics;
        let outcome = run(
            self.alloc,
            &self.target,
            &self.line,
            Until::BadCommand,
            words.as_slice(),
            &mut statics,
        )?;
        if let Some(stop) = outcome.stop {
            self.ended = Some(Vec::from_slice(self.alloc, stop.name)?);
        }
        self.statics = statics;
        self.absent = self.absent.saturating_add(outcome.passed);
        Ok(outcome.bytes)
    }

    /// The exit status after these commands: 4 if the terminal has stopped; else 0 if none was absent
    /// or false, else 4 and their number, at most 255.
    pub fn status(&self) -> u8
        ensures { (t : FullTarget) (state : RunState) → HasRunState t self.now state → result ≡ ended_status state.ended state.absent }
    {
        if self.ended.is_some() {
            return BAD_COMMAND;
        }
        if self.absent == 0 {
            return 0;
        }
        self.absent.saturating_add(BAD_COMMAND)
    }

    /// The name at which the terminal has stopped.
    pub fn into_name(self) -> Option<Vec<u8>>
        ensures { result ≡ self.entry.ended }
    {
        self.ended
    }
}

impl<'a> Interpreter for Terminal<'a> {
    ghost use Rattle.everyday_tput.specs.Runs.{TerminalState, line_leads};
    ghost use Rattle.everyday_tput.specs.inside.Terminal.{IsInState};

    ghost State = { TerminalState };

    ghost holds = { IsInState };

    ghost leads = { line_leads };

    ghost may_run_out = { Unit {0} };

    fn take_line<W: Write>(
        &mut self,
        line: &[u8],
        writer: &mut Counted<W>,
    ) -> Result<(), ToolError> {
        let bytes = self.bytes_of(line)?;
        write_out(writer, bytes.as_slice())
    }
}
