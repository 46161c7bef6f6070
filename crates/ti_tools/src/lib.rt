//! What `tic` and `infocmp` make of their input, over any files and streams, and the tools of `ti` over
//! those of the system.
//!
//! - `compiling`: what `tic` makes of a source: files, a report and a status. `entry_files` names
//!   the files of the entries, and `sources` says why a source is refused; the crate `tools_sources`
//!   makes a database of its blocks
//! - `outcome`: what `tic` is asked for, and what it made
//! - `listings`: what `infocmp` prints of entries
//! - `stopping`: how a tool that stops ends: its status, and the line on standard error
//! - `laws`: that the listing of an entry, and its relative source, compile back to the entry
//! - `running`: the program (`run`). `tic_tool`, `infocmp_tool`, `tput_tool` and `session_tool` have a
//!   tool each, `environment` the variables that they read, and `failure` and `job_end` how they end
//!
//! The crate `tools_commands` has the command lines and their jobs, `tools_session` the session, and
//! `tools_devices` the counted devices, the trees of files and the errors of the tools.
#![tactic(auto)]

mod compiling;
mod entry_files;
mod environment;
mod failure;
mod infocmp_tool;
mod job_end;
pub mod laws;
mod listings;
mod outcome;
mod running;
mod session_tool;
mod sources;
mod stopping;
mod tic_tool;
mod tput_tool;

pub use compiling::tic;
pub use listings::{InfocmpOptions, infocmp};
pub use outcome::{TicOptions, TicOutcome};
pub use running::run;
pub use stopping::{message, status};
