//! The lines of an input handed over one after another, and the replies to them written.
ghost use Rattle.std.specs.Prelude.{◌+◌, ◌≤◌};
ghost use Rattle.tools_devices.specs.Answering.{LinesEnd};
ghost use Rattle.tools_devices.specs.Counted.{observation, reads_of};
ghost use Rattle.tools_devices.specs.Reading.{reads_max};

use crate::counted::Counted;
use crate::line_reader::{LineReader, Next};
use crate::tool_error::ToolError;
use std::alloc::Global;
use std::io::{Read, Write};

/// What takes lines one after another, and writes a reply to each.
pub trait Interpreter {
    ghost use Rattle.std.specs.Prelude.{ℕ, List};
    ghost use Rattle.tools_devices.specs.Answering.{AnswersLine};
    ghost use Rattle.tools_devices.specs.Counted.{observation};

    // What is between two lines.
    ghost State: { Type 0 };

    // That it is in a state.
    ghost holds: { Self → State → Type 0 };

    // A line leads from a state to the next, with its reply.
    ghost leads: { State → List ℕ → State → List ℕ → Type 0 };

    // That memory may run out at a line.
    ghost may_run_out: { Type 0 };

    /// Takes a line, and writes its reply.
    ///
    /// # Errors
    /// `Memory`, with nothing written; then `WriteFault` if the writer fails. It takes no line
    /// after that.
    fn take_line<W: Write>(&mut self, line: &[u8], writer: &mut Counted<W>) -> Result<(), ToolError>
        ensures { (state : State) → holds self.old state
            → AnswersLine (holds self.new) (leads state line.now) may_run_out
            (observation W.contents writer.old) (observation W.contents writer.new) result };
}

/// Reads an input to its end, and has each line taken, one of at most `limit` bytes without its
/// newline.
///
/// The call holds one line, and never the whole input; room for that line is made before the first
/// read.
///
/// # Errors
/// `ReadFault` if the reader fails, and after 4,294,967,296 reads; `WriteFault` if the writer
/// fails; `LineTooLong` at a line over the limit; `Memory`. What was written before remains
/// written.
pub fn answer_lines<I: Interpreter, R: Read, W: Write>(
    alloc: Global,
    limit: usize,
    interpreter: &mut I,
    reader: &mut Counted<R>,
    writer: &mut Counted<W>,
) -> Result<(), ToolError>
    ensures ends { (start : I.State) → I.holds interpreter.old start
        → LinesEnd I.leads I.may_run_out limit start (I.holds interpreter.new)
        (observation R.remaining reader.old) (observation R.remaining reader.new)
        (observation W.contents writer.old) (observation W.contents writer.new) result }
    ensures reads { reads_of reader.new ≤ reads_of reader.old + reads_max }
{
    let mut lines = LineReader::new(alloc, limit)?;
    loop {
        match lines.read_line(reader)? {
            Next::Line => interpreter.take_line(lines.line(), writer)?,
            Next::LastLine => return interpreter.take_line(lines.line(), writer),
            Next::End => return Ok(()),
        }
    }
}
