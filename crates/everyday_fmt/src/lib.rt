//! What `ti-fmt` does: it gives sources the layout of a listing, in lines of a width, or repairs their
//! own lines, or says which of them have another layout.
//!
//! ```text
//! // ti-fmt --check -w 72 mine.ti other.ti
//! let options = FmtOptions { check: true, width: 72, keep: false };
//! let outcome = format_files(alloc, &mut tree, options, paths.as_slice())?;
//! ```
//!
//! - `options`: how a source is written (`FmtOptions`), and what comes of it (`FmtOutcome`)
//! - `reasons`: a tree of files that says why a call failed (`ReasonedTree`)
//! - `changes`: a source in its layout, and whether it has another
//! - `files`: what becomes of a file, and of the files in turn
//! - `report`: the lines about them, and the status
//! - `tool`: what comes of files (`format_files`), and of standard input (`format_input`)
//! - `laws`: what formatting promises of a source, of both
#![tactic(auto)]

mod changes;
mod files;
pub mod laws;
mod options;
mod reasons;
mod report;
mod tool;

pub use files::{Done, Fate};
pub use options::{FmtOptions, FmtOutcome};
pub use reasons::ReasonedTree;
pub use tool::{format_files, format_input};
