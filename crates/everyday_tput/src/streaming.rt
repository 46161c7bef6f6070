//! The command `tput -S`: reads commands line by line, and writes their output as it comes.
ghost use Rattle.std.specs.Prelude.{◌+◌, ◌≤◌};
ghost use Rattle.tools_devices.specs.Counted.{observation, reads_of};
ghost use Rattle.tools_devices.specs.Reading.{reads_max};
ghost use Rattle.everyday_tput.specs.Answers.{target_of};
ghost use Rattle.everyday_tput.specs.Runs.{CommandsEnd};

use crate::target::Target;
use crate::terminal::Terminal;
use std::alloc::Global;
use std::io::{Read, Write};
use tools_devices::{Counted, ToolError, answer_lines};

// The greatest length of a line, without its newline.
const LINE_MAX: usize = 4096;

/// How the lines of an input ended.
#[derive(Debug, Drop)]
pub struct LinesEnding {
    /// The exit status.
    pub status: u8,
    /// The name of the capability at which the lines stopped, if they did.
    pub name: Option<Vec<u8>>,
}

/// Reads commands to the end of an input, writes the output of each line, and returns the exit
/// status: 0 if no command was absent or false, else 4 and their number, at most 255.
///
/// The words of a line are commands as those of [`crate::tput`] are, separated by white space. One
/// set of static variables serves all lines. A command that is absent or false is passed over. At
/// one that is unknown, or whose string is bad, the lines stop: the status is 4, and what follows is
/// read, but not run. The call holds one line, and never the whole input.
///
/// # Errors
/// `ReadFault` if the reader fails, and after 4,294,967,296 reads; `WriteFault` if the writer
/// fails; `LineTooLong` at a line of more than 4,096 bytes, without its newline; `Memory`. What was
/// written before remains written.
pub fn tput_lines<R: Read, W: Write>(
    alloc: Global,
    target: &Target<'_>,
    reader: &mut Counted<R>,
    writer: &mut Counted<W>,
) -> Result<LinesEnding, ToolError>
    ensures ends { CommandsEnd (target_of target.now) (observation R.remaining reader.old) (observation R.remaining reader.new)
        (observation W.contents writer.old) (observation W.contents writer.new) result }
    ensures reads { reads_of reader.new ≤ reads_of reader.old + reads_max }
{
    let mut terminal = Terminal::new(alloc, target);
    match answer_lines(alloc, LINE_MAX, &mut terminal, reader, writer) {
        Ok(()) => Ok(LinesEnding {
            status: terminal.status(),
            name: terminal.into_name(),
        }),
        Err(error) => Err(error),
    }
}
