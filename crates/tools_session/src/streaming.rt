//! The session: a script read line by line, and its replies written as they come.
ghost use Rattle.std.specs.Prelude.{◌+◌, ◌≤◌};
ghost use Rattle.tools_devices.specs.Counted.{observation, reads_of};
ghost use Rattle.tools_devices.specs.Reading.{reads_max};
ghost use Rattle.tools_session.specs.Streaming.{ScriptEnds};

use crate::editor::Editor;
use std::alloc::Global;
use std::io::{Read, Write};
use tools_devices::{Counted, ToolError, answer_lines};

// The greatest length of a line, without its newline.
const LINE_MAX: usize = 65_536;

/// Reads a script to its end, edits a source as its lines ask, and writes a reply to each.
///
/// The call holds one line, one block and the source, and never the whole script.
///
/// An edit for which no cause of a refusal holds, and a report, may get the reply `refused Memory`.
///
/// # Errors
/// `ReadFault` if the reader fails, and after 4,294,967,296 reads; `WriteFault` if the writer
/// fails; `LineTooLong` at a line of more than 65,536 bytes, without its newline; `Memory`, only
/// before the first read. What was written before remains written.
pub fn session<R: Read, W: Write>(
    alloc: Global,
    reader: &mut Counted<R>,
    writer: &mut Counted<W>,
) -> Result<(), ToolError>
    ensures ends { ScriptEnds (observation R.remaining reader.old) (observation R.remaining reader.new)
        (observation W.contents writer.old) (observation W.contents writer.new) result }
    ensures reads { reads_of reader.new ≤ reads_of reader.old + reads_max }
{
    let mut editor = Editor::new(alloc)?;
    answer_lines(alloc, LINE_MAX, &mut editor, reader, writer)?;
    editor.close(writer)
}
