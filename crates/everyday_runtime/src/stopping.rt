//! How a tool ends that stops before its work is done.
use everyday_entries::{Failure, Tool, line, status};
use everyday_starting::Unfit;
use std::alloc::AllocError;
use std::io::Write;
use std::rt::{Clock, Files};
use tools_devices::ToolError;
use tools_disk::{DiskTree, ErrorStream, reason};

/// Why a tool stops before its work is done.
#[derive(Debug, Drop)]
pub enum Stop {
    /// A failure, and what the system says of it, if that is part of the line.
    Failed(Failure, String),
    /// The same without anything that the system says.
    Plain(Failure),
    /// No program can draw on the terminal of this name, and why.
    Unfit(String, Unfit),
    /// What the environment gives is not UTF-8: the command line, or a variable that is read. It is
    /// an error of usage.
    NotText(&'static str),
    /// The reader of the pipe that is standard output is gone.
    NoReader,
}

// The status that a shell shows of a program which SIGPIPE ends, as it does ncurses's tools.
const NO_READER_STATUS: u8 = 128 + 13;

impl Stop {
    /// Memory ran out.
    pub fn memory() -> Stop {
        Stop::Plain(Failure::Stopped(ToolError::Memory))
    }

    /// A failure of which the system says nothing.
    pub fn of(failure: Failure) -> Stop {
        Stop::Plain(failure)
    }
}

impl From<AllocError> for Stop {
    fn from(_error: AllocError) -> Stop {
        Stop::memory()
    }
}

impl From<Failure> for Stop {
    fn from(failure: Failure) -> Stop {
        Stop::Plain(failure)
    }
}

/// Says texts on standard error, in a line after the name of the tool.
pub fn say<R: Eprint>(rt: &R, tool: Tool, texts: &[&[u8]]) {
    let mut error = ErrorStream::new(rt);
    let _ = error.write_all(tool.name().as_bytes());
    let _ = error.write_all(b": ");
    for text in texts {
        let _ = error.write_all(text);
    }
    let _ = error.write_all(b"\n");
}

/// Why a tool stops, with what the system says of it.
///
/// # Errors
/// Out of memory.
pub fn stop_of<R: Files + Clock + AllocGlobal>(
    rt: &R,
    tree: &DiskTree<'_, R>,
    failure: Failure,
) -> Result<Stop, Stop> {
    match tree.last_error() {
        Some(error) => Ok(Stop::Failed(failure, reason(rt.alloc(), error)?)),
        None => Ok(Stop::of(failure)),
    }
}

/// Says on standard error why a tool stopped, unless the reader of its output is gone. Returns the
/// status of the process, even if standard error takes nothing.
pub fn end_tool<R: Eprint + AllocGlobal>(rt: &R, tool: Tool, stop: Stop) -> u8 {
    match stop {
        Stop::Failed(failure, reason) => end(rt, tool, &failure, reason.as_str()),
        Stop::Plain(failure) => end(rt, tool, &failure, ""),
        Stop::Unfit(terminal, why) => {
            let name = tool.name();
            let _ = eprintln!(rt; "{name}: terminal \"{terminal}\" cannot be used: {why}");
            1
        }
        Stop::NotText(what) => {
            let name = tool.name();
            let _ = eprintln!(rt; "{name}: bad usage: {what} is not text");
            tool.usage_status()
        }
        Stop::NoReader => NO_READER_STATUS,
    }
}

// Says why a tool failed.
fn end<R: Eprint + AllocGlobal>(rt: &R, tool: Tool, failure: &Failure, reason: &str) -> u8 {
    if let Ok(text) = line(rt.alloc(), tool, failure, reason) {
        let _ = rt.eprint(text.as_str());
    }
    status(tool, failure)
}
