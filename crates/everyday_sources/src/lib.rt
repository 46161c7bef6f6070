//! A source as `ti-tic` takes it (tic(1)): with the installed entries that it uses after its blocks,
//! and which of its entries are chosen.
//!
//! - `used`: the installed entries that a source uses, as further blocks (`take_used`), and what is
//!   found of it meanwhile (`UsedEntries`); `installed`: the listing of one; `problem`: why the entry
//!   of a file is not taken (`Problem`, `Cause`)
//! - `selection`: which entries are chosen (`is_chosen`), by the names that are asked for
//!   (`chosen_names`)
//! - `laws`: names of the source win, its blocks come first, and what is taken is determined by the
//!   source, the directories and the files; a block has the values of the installed entry that it uses
#![tactic(auto)]

mod installed;
pub mod laws;
mod problem;
mod selection;
mod used;

pub use problem::{Cause, Problem};
pub use selection::{chosen_names, is_chosen};
pub use used::{UsedEntries, take_used};
