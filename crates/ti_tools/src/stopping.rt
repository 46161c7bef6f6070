//! How a tool that stops ends: its exit status, and the line on standard error.
ghost use Rattle.std.specs.Prelude.{◌≡◌, [], None, Some, codes, decimal, map, option_map};
ghost use Rattle.std.specs.List.{concat};
ghost use Rattle.tools_devices.specs.Counted.{observation};
ghost use Rattle.tools_devices.specs.Writing.{Wrote};
ghost use Rattle.ti_tools.specs.Stopping.{plain_status, status_of, tput_status};
ghost use Rattle.ti_tools.specs.Stopping.{capability_head, is_known, line_parts, message_parts, message_text, plain_text, refusal_end};

use itoa::Buffer;
use std::io::Write;
use ti_caps::find;
use ti_layout::ReadError;
use tools_commands::Job;
use tools_devices::{Counted, ToolError, write_out};

// The exit status of `tput`.
fn tput_status(error: &ToolError, found: bool) -> u8
    ensures { result ≡ tput_status error.now found }
{
    match error {
        ToolError::Usage => 2,
        ToolError::NoTerminal | ToolError::BadEntry(_) => 3,
        ToolError::ReadFault if !found => 3,
        _ => 255,
    }
}

// The exit status of the other tools.
fn plain_status(error: &ToolError) -> u8
    ensures { result ≡ plain_status error.now }
{
    match error {
        ToolError::Usage => 2,
        _ => 1,
    }
}

/// The exit status of a tool that stops: 2 at bad usage, else 1; of `tput` 3 at an unknown
/// terminal, at a bad entry and at a fault on the way to it, else 255. `found` says that the entry
/// was read.
pub fn status(job: &Job, error: &ToolError, found: bool) -> u8
    ensures { result ≡ status_of job.now error.now found }
{
    match job {
        Job::Tput { .. } => tput_status(error, found),
        Job::Tic { .. } | Job::Session | Job::Infocmp { .. } => plain_status(error),
    }
}

// What is said after the name of a terminal whose entry is refused.
fn refusal_end(error: ReadError) -> &'static [u8]
    ensures { result.now ≡ refusal_end error }
{
    match error {
        ReadError::Short => b"\" (Short)\n",
        ReadError::Magic => b"\" (Magic)\n",
        ReadError::Counts => b"\" (Counts)\n",
        ReadError::Truncated => b"\" (Truncated)\n",
        ReadError::BadNames => b"\" (BadNames)\n",
        ReadError::BadFlag => b"\" (BadFlag)\n",
        ReadError::BadNumber => b"\" (BadNumber)\n",
        ReadError::BadOffset => b"\" (BadOffset)\n",
    }
}

// What a fault is called that has no name or number.
fn plain_text(error: &ToolError) -> &'static [u8]
    ensures { result.now ≡ plain_text error.now }
{
    match error {
        ToolError::Usage => b"no terminal named",
        ToolError::NoTerminal => b"unknown terminal",
        ToolError::BadEntry(_) => b"bad entry",
        ToolError::ReadFault => b"read fault",
        ToolError::WriteFault => b"write fault",
        ToolError::LineTooLong => b"line too long",
        ToolError::BlockTooLong(_) => b"block too long",
        ToolError::TooManyBlocks => b"too many blocks",
        ToolError::Memory => b"out of memory",
    }
}

// Whether `tput` knows a name, so that its string is bad.
fn is_known(name: &[u8]) -> bool
    ensures { result ≡ is_known name.now }
{
    find(name).is_some() || name == b"init".as_slice() || name == b"reset".as_slice()
}

// Writes the parts of a text.
fn write_parts<W: Write>(writer: &mut Counted<W>, parts: &[&[u8]]) -> Result<(), ToolError>
    ensures { Wrote (observation W.contents writer.old) (observation W.contents writer.new) (concat (map (λ part. part.now) parts.now)) result }
{
    for part in parts {
        write_out(writer, part)?;
    }
    Ok(())
}

// The bytes before a capability that is unknown, or whose string is bad.
fn capability_head(name: &[u8]) -> &'static [u8]
    ensures { result.now ≡ capability_head name.now }
{
    if is_known(name) {
        b": bad string \""
    } else {
        b": unknown terminfo capability \""
    }
}

// Writes a line: the name of the tool, what is wrong, what it is about, and the end.
fn write_line<'a, W: Write>(
    writer: &mut Counted<W>,
    tool: &'a [u8],
    wrong: &'a [u8],
    subject: &'a [u8],
    end: &'a [u8],
) -> Result<(), ToolError>
    ensures { Wrote (observation W.contents writer.old) (observation W.contents writer.new)
        (concat (line_parts tool.entry.now wrong.entry.now subject.entry.now end.entry.now)) result }
{
    write_parts(writer, &[tool, wrong, subject, end])
}

// Writes the line on a block that is too long.
fn write_block<W: Write>(writer: &mut Counted<W>, tool: &[u8], line: usize) -> Result<(), ToolError>
    ensures { Wrote (observation W.contents writer.old) (observation W.contents writer.new)
        (concat (line_parts tool.now (codes ": block too long at line ") (decimal line) (codes "\n"))) result }
{
    let mut buffer = Buffer::new();
    let digits = buffer.format(line).as_bytes();
    write_line(writer, tool, b": block too long at line ", digits, b"\n")
}

// The line on a fault.
fn write_fault<W: Write>(
    writer: &mut Counted<W>,
    tool: &[u8],
    name: &[u8],
    error: &ToolError,
) -> Result<(), ToolError>
    ensures { Wrote (observation W.contents writer.old) (observation W.contents writer.new)
        (concat (message_parts tool.now name.now (Some error.now))) result }
{
    match error {
        ToolError::NoTerminal => write_line(writer, tool, b": unknown terminal \"", name, b"\"\n"),
        ToolError::BadEntry(why) => {
            write_line(writer, tool, b": bad entry \"", name, refusal_end(*why))
        }
        ToolError::BlockTooLong(line) => write_block(writer, tool, *line),
        ToolError::Usage
        | ToolError::ReadFault
        | ToolError::WriteFault
        | ToolError::LineTooLong
        | ToolError::TooManyBlocks
        | ToolError::Memory => write_line(writer, tool, b": ", plain_text(error), b"\n"),
    }
}

/// Writes the line for standard error on which a tool that stops says why: the name of the tool,
/// the fault, and in quotes the `name` of the terminal that it is about. `None` means the status 4
/// of `tput`: `name` is then a capability that is unknown, or whose string is bad.
///
/// # Errors
/// `WriteFault`.
pub fn message<W: Write>(
    job: &Job,
    name: &str,
    error: Option<&ToolError>,
    writer: &mut Counted<W>,
) -> Result<(), ToolError>
    ensures { Wrote (observation W.contents writer.old) (observation W.contents writer.new)
        (message_text job.now name.now (option_map (λ e. e.now) error.entry)) result }
{
    let tool = job.tool_name().as_bytes();
    let name = name.as_bytes();
    match error {
        None => write_line(writer, tool, capability_head(name), name, b"\"\n"),
        Some(error) => write_fault(writer, tool, name, error),
    }
}
