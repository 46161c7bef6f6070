//! The file of an entry that an everyday tool is asked for, and why and how a tool stops.
//!
//! ```text
//! match entry_file(alloc, &mut tree, "xterm", directories.as_slice()) {
//!     Ok(file) => ..
//!     Err(failure) => line(alloc, Tool::Infocmp, &failure, ""),  // ti-infocmp: unknown terminal "xterm"
//! }
//! ```
//!
//! - `failure`: why a tool stops (`Failure`)
//! - `files`: the file of a name (`named_file`), or of a name that may be a path (`entry_file`)
//! - `lines`: the line on standard error of a tool that stops (`line`), or whose capability is unknown
//!   or bad (`capability_line`), and the status of the process (`status`)
#![tactic(auto)]

mod failure;
mod files;
mod lines;

pub use everyday_arguments::Tool;
pub use failure::Failure;
pub use files::{entry_file, named_file};
pub use lines::{capability_line, line, status};
pub use tools_directories::Found;
