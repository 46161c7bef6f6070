//! `ti session`: replies to a script.
use std::io;
use tools_devices::{Counted, ToolError};
use tools_session::session;

/// Reads the script on standard input, and replies on standard output.
///
/// # Errors
/// Why it stopped. The replies before have been written.
pub fn run<R: Input + Print + AllocGlobal>(rt: &R) -> Result<(), ToolError> {
    let mut reader = Counted::new(rt.reader());
    let mut writer = Counted::new(io::writer(rt));
    session(rt.alloc(), &mut reader, &mut writer)
}
