//! What everyday command lines share: the tools, their names, and a command line as a table.
//!
//! ```text
//! let tool = called_tool("/usr/bin/ti-infocmp");          // Some(Tool::Infocmp)
//! const LINE: CommandLine<'static> = CommandLine { name: "ti-clear", arguments: &[..], .. };
//! let matches = LINE.command(alloc)?.try_get_matches_from(words)?;
//! ```
//!
//! - `names`: the tools, and the names by which they are called (`called_tool`, `called_words`)
//! - `lines`: the command line of a tool (`CommandLine`), whose arguments are those of
//!   `tools_commands`
#![tactic(auto)]

mod lines;
mod names;

pub use lines::CommandLine;
pub use names::{Tool, called_tool, called_words};
