//! What `ti-tic` does (tic(1)): a source is compiled by the rule of ncurses, `Rule::OwnFirst`, with
//! installed entries for the names that its items use, with the entries that are chosen, and with
//! user-defined capabilities if they are wanted.
//!
//! ```text
//! let options = TicOptions {
//!     user_defined: true, draws: true, check: false, entries: None, directory: "out",
//! };
//! let outcome = tic(alloc, &mut tree, &directories, "mine.ti", source, &options)?;
//! ```
//!
//! - `options`: how a source is compiled (`TicOptions`), and what comes of it (`TicOutcome`)
//! - `drawing`: the entries with line graphics that are written in the places of compiled ones
//! - `entries`: the files of the entries
//! - `messages`: what is reported about files and names that were asked for
//! - `characters`: the entries with the constants of their strings as characters
//! - `naming`: the entries with names fields that are too long for the profile
//! - `notes`: what is noted of entries that are checked: which get the `acsc` of a VT100
//! - `compiling`: what comes of a source (`tic`)
//! - `laws`: a block of the source keeps its names, whatever is installed; and the outcome is
//!   determined by the request, the source, the directories and the files
//! - `termcap`: termcap source, which is not compiled
//! - `writing`: what is written of it (`write`), and the line of `-s` (`summary`); `run` does both
//!
//! The crate `source_plain` has the source as it is read, without what other systems put into it;
//! `everyday_names` has names fields that are too long for the profile;
//! `everyday_sources` has it with the installed entries that it uses, and `everyday_report` what is
//! reported about its faults.
#![tactic(auto)]

mod characters;
mod compiling;
mod drawing;
mod entries;
pub mod laws;
mod messages;
mod naming;
mod notes;
mod options;
mod termcap;
mod writing;

pub use compiling::tic;
pub use everyday_sources::{Cause, Problem};
pub use options::{TicOptions, TicOutcome};
pub use writing::{TicStop, run, summary, write};
