//! The hints on names and files, and on items after a `use=`: what no fault of the report says and
//! yet is a mistake. Those on a block by its items and its head are of `source_block_hints`.
//!
//! - `unknown`: the hints on user-defined names that are not known
//! - `file_form`: the hints on the form of a whole file
//! - `uses`: the hints on items that say a capability that a use before them has too; `following`:
//!   whether a block may have such, by its text alone; `laws`: which blocks have none
//! - `merging`: hints in the order in which they begin; `hints`: all of those on a block
#![tactic(auto)]

mod file_form;
mod following;
mod hints;
pub mod laws;
mod merging;
mod unknown;
mod uses;

pub use file_form::file_hints;
pub use following::says_after_use;
pub use hints::hints_of;
pub use merging::merged;
pub use source_block_hints::{Hint, HintKind};
pub use unknown::{is_unknown_name, unknown_names};
pub use uses::hints_after_uses;
