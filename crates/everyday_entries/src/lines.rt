//! The line on standard error of a tool that stops, and the status of the process.
ghost use Rattle.std.specs.Prelude.{◌≡◌, ◌++◌, IfOk};
ghost use Rattle.std.specs.String.{string_bytes};
ghost use Rattle.everyday_entries.specs.Lines.{capability_line, failure_text, fault_text, line_of, refusal_name, status_of};

use crate::failure::Failure;
use everyday_arguments::Tool;
use std::alloc::{AllocError, Global};
use ti_layout::ReadError;
use tools_devices::ToolError;
use user_extension::ExtensionError;

// What is said before a capability whose string is bad.
const BAD_STRING: &[u8] = b": bad string '";

// What is said before a capability that is unknown.
const UNKNOWN: &[u8] = b": unknown terminfo capability '";

// The name of a refusal of an entry.
fn refusal_name(why: ExtensionError) -> &'static str
    ensures { result.now ≡ refusal_name why }
{
    match why {
        ExtensionError::Entry(ReadError::Short) => "Short",
        ExtensionError::Entry(ReadError::Magic) => "Magic",
        ExtensionError::Entry(ReadError::Counts) => "Counts",
        ExtensionError::Entry(ReadError::Truncated) => "Truncated",
        ExtensionError::Entry(ReadError::BadNames) => "BadNames",
        ExtensionError::Entry(ReadError::BadFlag) => "BadFlag",
        ExtensionError::Entry(ReadError::BadNumber) => "BadNumber",
        ExtensionError::Entry(ReadError::BadOffset) => "BadOffset",
        ExtensionError::BadExtension => "BadExtension",
    }
}

// What a fault of a device is called.
fn fault_text(error: &ToolError) -> &'static str
    ensures { result.now ≡ fault_text error.now }
{
    match error {
        ToolError::Usage => "no terminal named",
        ToolError::NoTerminal => "unknown terminal",
        ToolError::BadEntry(_) => "bad entry",
        ToolError::ReadFault => "read fault",
        ToolError::WriteFault => "write fault",
        ToolError::LineTooLong => "line too long",
        ToolError::BlockTooLong(_) => "block too long",
        ToolError::TooManyBlocks => "too many blocks",
        ToolError::Memory => "out of memory",
    }
}

// What is reported about the file at a path, and why.
fn path_text(
    alloc: Global,
    path: &str,
    said: &str,
    why: &str,
    end: &str,
) -> Result<String, AllocError>
    ensures { IfOk result (λ text. string_bytes text ≡ path.now ++ said.now ++ why.now ++ end.now) }
{
    let mut text = String::from_str(alloc, path)?;
    text.push_str(said)?;
    text.push_str(why)?;
    text.push_str(end)?;
    Ok(text)
}

// What is said of a failure, after the name of the tool.
fn failure_text(alloc: Global, failure: &Failure, reason: &str) -> Result<String, AllocError>
    ensures { IfOk result (λ text. string_bytes text ≡ failure_text failure.now reason.now) }
{
    match failure {
        Failure::NoName => String::from_str(alloc, "no terminal is named\n"),
        Failure::Unknown(terminal) => { format!(in alloc; "unknown terminal \"{terminal}\"\n") }
        Failure::Absent(path) => format!(in alloc; "{path}: No such file or directory\n"),
        Failure::Unreadable(path) | Failure::Unwritable(path) => {
            path_text(alloc, path.as_str(), ": ", reason, "\n")
        }
        Failure::BadEntry(path, why) => {
            let why = refusal_name(*why);
            path_text(alloc, path.as_str(), ": bad entry (", why, ")\n")
        }
        Failure::Stopped(error) => {
            let fault = fault_text(error);
            format!(in alloc; "{fault}\n")
        }
    }
}

/// The line for standard error on which a tool that stops says why. `reason` is what the system says
/// of a file that could not be read or written, such as `Permission denied`.
///
/// # Errors
/// `AllocError` if memory ran out.
pub fn line(
    alloc: Global,
    tool: Tool,
    failure: &Failure,
    reason: &str,
) -> Result<String, AllocError>
    ensures { IfOk result (λ line. string_bytes line ≡ line_of tool failure.now reason.now) }
{
    let name = tool.name();
    let text = failure_text(alloc, failure, reason)?;
    format!(in alloc; "{name}: {text}")
}

/// The line for standard error on a capability that is unknown, or whose string is bad.
///
/// # Errors
/// `AllocError` if memory ran out.
pub fn capability_line(
    alloc: Global,
    tool: Tool,
    capability: &[u8],
    known: bool,
) -> Result<Vec<u8>, AllocError>
    ensures { IfOk result (λ line. line.items ≡ capability_line tool capability.now known) }
{
    let head = if known { BAD_STRING } else { UNKNOWN };
    let mut line = Vec::from_slice(alloc, tool.name().as_bytes())?;
    line.extend_from_slice(head)?;
    line.extend_from_slice(capability)?;
    line.extend_from_slice(b"'\n")?;
    Ok(line)
}

// The status of `ti-tput`.
fn tput_status(failure: &Failure) -> u8
    ensures { result ≡ status_of Tool.Tput failure.now }
{
    match failure {
        Failure::NoName | Failure::Stopped(ToolError::Usage) => 2,
        Failure::Stopped(_) => 255,
        _ => 3,
    }
}

/// The status of the process of a tool that stops: 1 of `ti-clear`, `ti-toe`, `ti-tabs`, `ti-tset` and
/// `ti-reset`; of the others 2 if no terminal is named, and at bad usage; else 1, but of `ti-tput` 3 if
/// there is no entry to be had, and 255 at a fault of a device.
pub fn status(tool: Tool, failure: &Failure) -> u8
    ensures { result ≡ status_of tool failure.now }
{
    match (tool, failure) {
        (Tool::Clear | Tool::Toe | Tool::Tabs | Tool::Tset | Tool::Reset, _) => 1,
        (Tool::Tput, failure) => tput_status(failure),
        (_, Failure::NoName | Failure::Stopped(ToolError::Usage)) => 2,
        _ => 1,
    }
}
