//! `ti-clear`: clears the screen.
use crate::tput_tool::{entry_file, entry_of, say_capability, terminal_name};
use everyday_entries::{Failure, Tool};
use everyday_runtime::{Stop, Variables, print_bytes};
use everyday_tput::{ClearError, clear};
use everyday_words::ClearRequest;
use std::rt::{Clock, Env, Files};
use tools_devices::ToolError;

// The name that is asked for.
const CLEAR: &[u8] = b"clear";

/// Writes to standard output what clears the screen of a terminal: that of the request, else that of
/// `TERM`. Returns the status of the process.
///
/// # Errors
/// Why it stopped.
pub fn run<R: Clock + Env + Files + Print + Eprint + AllocGlobal>(
    rt: &R,
    request: &ClearRequest,
) -> Result<u8, Stop> {
    let variables = Variables::read(rt)?;
    let name = terminal_name(&variables, request.term.as_deref())?;
    let file = entry_file(rt, &variables, name)?;
    let entry = entry_of(rt, &file, request.keeps_scrollback, &[CLEAR])?;
    match clear(rt.alloc(), &entry, 0, request.keeps_scrollback) {
        Ok(cleared) => {
            print_bytes(rt, cleared.bytes.as_slice())?;
            Ok(cleared.status)
        }
        Err(ClearError::Unfit(why)) => {
            Err(Stop::Unfit(String::from_str(rt.alloc(), name)?, why))
        }
        Err(ClearError::TooMuch) => {
            say_capability(rt, Tool::Clear, &entry, CLEAR);
            Ok(1)
        }
        Err(ClearError::Memory) => Err(Stop::of(Failure::Stopped(ToolError::Memory))),
    }
}
