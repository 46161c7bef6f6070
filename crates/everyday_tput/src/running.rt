//! Commands one after another.
ghost use Rattle.std.specs.Prelude.{◌≡◌, IfOk, map};
ghost use Rattle.ti_param.specs.Meaning.{no_variables};
ghost use Rattle.everyday_tput.specs.Answers.{target_of};
ghost use Rattle.everyday_tput.specs.Running.{goes_on};
ghost use Rattle.everyday_tput.specs.Calls.{EndsWords};
ghost use Rattle.everyday_tput.specs.inside.Running.{Ran};
ghost use Rattle.everyday_tput.specs.inside.Strings.{IsLineOf};

use crate::commands::{later_words, step};
use crate::strings::BAD_COMMAND;
use crate::target::Target;
use std::alloc::{AllocError, Global};
use ti_param::{Line, Statics};
use tools_devices::ToolError;
use tools_tput::terminal_line;

/// Up to which command others are run.
#[derive(Clone, Copy, Debug, PartialEq, Eq)]
pub enum Until {
    /// The first whose status is not 0.
    Failure,
    /// The first that is bad: its capability is unknown, or its string is bad.
    BadCommand,
}

impl Until {
    // Whether the next command is run after one of that status.
    fn goes_on(self, status: u8) -> bool
        ensures { result ≡ goes_on self status }
    {
        match self {
            Until::Failure => status == 0,
            Until::BadCommand => status != BAD_COMMAND,
        }
    }
}

/// The command at which others stop.
#[derive(Clone, Copy, Debug, PartialEq, Eq)]
pub struct Stop<'w> {
    /// The name of its capability.
    pub name: &'w [u8],
    /// Its status.
    pub status: u8,
}

/// What commands did.
#[derive(Debug, Drop)]
pub(crate) struct Outcome<'w> {
    /// The bytes that they write.
    pub(crate) bytes: Vec<u8>,
    /// How many were passed over whose status is not 0, at most 255.
    pub(crate) passed: u8,
    /// The one at which they stopped.
    pub(crate) stop: Option<Stop<'w>>,
}

/// Runs the commands that these words are, one after another.
pub(crate) fn run<'w>(
    alloc: Global,
    target: &Target<'_>,
    line: &Line,
    until: Until,
    words: &[&'w [u8]],
    statics: &mut Statics,
) -> Result<Outcome<'w>, AllocError>
    ensures { IsLineOf target.now line.now
        → IfOk result (λ outcome. Ran (target_of target.now) until statics.old (map (λ word. word.now) words.now) statics.new outcome) }
{
    let mut bytes = Vec::new(alloc);
    let mut passed: u8 = 0;
    let mut rest = words;
    while let Some((cap, others)) = rest.split_first() {
        let (outcome, count) = step(alloc, target, line, cap, others, statics)?;
        bytes.extend_from_slice(outcome.bytes.as_slice())?;
        let status = outcome.status;
        if !until.goes_on(status) {
            let stop = Some(Stop { name: cap, status });
            return Ok(Outcome {
                bytes,
                passed,
                stop,
            });
        }
        if status != 0 {
            passed = passed.saturating_add(1);
        }
        rest = later_words(others, count);
    }
    Ok(Outcome {
        bytes,
        passed,
        stop: None,
    })
}

/// What words write, and where they stop.
#[derive(Debug, Drop)]
pub struct Ending<'w> {
    /// The bytes for standard output.
    pub bytes: Vec<u8>,
    /// The command at which they stop, if they do. Its status is that of the process, which else is
    /// 0.
    pub stop: Option<Stop<'w>>,
}

/// What words do, as tput(1) has it: the commands that they are, one after another, up to the first
/// whose status is not 0.
///
/// Each name takes as many of the words after it as its string has parameters, and what follows is
/// the next command. A boolean writes nothing, and its status is 0 if it is set, else 1. A number is
/// written with a newline, as `-1` if it is absent; `cols` and `lines` are those of the environment,
/// of the window or of the entry. A string is written with its padding; if no word follows it is
/// written as it is, else it is expanded; if it is absent its status is 1. `longname` writes the
/// terminal's description, `init` and `reset` the strings that initialize or reset it, and `clear`
/// also what clears the scrollback. The status of any other name is 4.
///
/// A word is a number as C's `strtol` of base 0 reads it, and 0 if it spells none. It is a string
/// where the format takes one, and where `pfkey`, `pfloc`, `pfx`, `pln` and `pfxl` do.
///
/// # Errors
/// `Usage` if there is no word; then `Memory`.
pub fn tput<'w>(
    alloc: Global,
    target: &Target<'_>,
    words: &[&'w [u8]],
) -> Result<Ending<'w>, ToolError>
    ensures { EndsWords (target_of target.now) (map (λ word. word.now) words.now) result }
{
    if words.is_empty() {
        return Err(ToolError::Usage);
    }
    let line = terminal_line(&target.entry.view, target.rate);
    let mut statics = Statics::new();
    match run(alloc, target, &line, Until::Failure, words, &mut statics) {
        Ok(Outcome { bytes, stop, .. }) => Ok(Ending { bytes, stop }),
        Err(_) => Err(ToolError::Memory),
    }
}
