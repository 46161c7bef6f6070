//! What is written to standard output.
use crate::stopping::Stop;
use everyday_entries::Failure;
use std::io::{self, Write};
use tools_devices::ToolError;

/// Writes all of these bytes to standard output.
///
/// # Errors
/// That the reader of the pipe is gone, or a write fault.
pub fn print_bytes<R: Print>(rt: &R, bytes: &[u8]) -> Result<(), Stop> {
    match io::writer(rt).write_all(bytes) {
        Ok(()) => Ok(()),
        Err(error) => Err(stop_of(&error)),
    }
}

// Why the tool stops if standard output takes no more.
fn stop_of(error: &io::Error) -> Stop {
    if error.kind() == io::ErrorKind::BrokenPipe {
        Stop::NoReader
    } else {
        Stop::of(Failure::Stopped(ToolError::WriteFault))
    }
}
