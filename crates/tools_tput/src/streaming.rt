//! The command `tput -S`: reads commands line by line, and writes their output as it comes.
ghost use Rattle.std.specs.Prelude.{◌+◌, ◌≤◌};
ghost use Rattle.tools_devices.specs.Counted.{observation, reads_of};
ghost use Rattle.tools_devices.specs.Reading.{reads_max};
ghost use Rattle.ti_layout.specs.View.{entry_seen};
ghost use Rattle.tools_tput.specs.Streaming.{CommandsEnd};

use crate::terminal::Terminal;
use std::alloc::Global;
use std::io::{Read, Write};
use ti_layout::View;
use tools_devices::{Counted, ToolError, answer_lines};

// The greatest length of a line, without its newline.
const LINE_MAX: usize = 4096;

/// Reads commands to the end of an input, one per line, writes the output of each, and returns the
/// exit status: 0 if no line was bad, else 4 and the number of bad lines, at most 255.
///
/// A line is split at spaces and tabs into a capability's name and its parameters, which are those
/// of [`crate::tput`]. A line without words is skipped. One set of static variables serves all
/// lines. A line that `tput` would refuse, or for which it would exit with status 4, is bad: it
/// writes nothing, and leaves the variables as they were. The call holds one line, and never the
/// whole input.
///
/// # Errors
/// `ReadFault` if the reader fails, and after 4,294,967,296 reads; `WriteFault` if the writer
/// fails; `LineTooLong` at a line of more than 4,096 bytes, without its newline; `Memory`. What was
/// written before remains written.
pub fn tput_lines<R: Read, W: Write>(
    alloc: Global,
    view: &View<'_>,
    rate: u32,
    reader: &mut Counted<R>,
    writer: &mut Counted<W>,
) -> Result<u8, ToolError>
    ensures ends { CommandsEnd (entry_seen view.now) rate (observation R.remaining reader.old) (observation R.remaining reader.new)
        (observation W.contents writer.old) (observation W.contents writer.new) result }
    ensures reads { reads_of reader.new ≤ reads_of reader.old + reads_max }
{
    let mut terminal = Terminal::new(alloc, view, rate);
    answer_lines(alloc, LINE_MAX, &mut terminal, reader, writer)?;
    Ok(terminal.status())
}
