//! Which blocks of a source depend on an edit: the block put in, and each block that reaches a name
//! of the block taken out or put in, found by a search backwards along uses. If a list is made in
//! one go, all of its blocks.
//!
//! - `blocks`: a block by its id
//! - `dependents`: the blocks, and their uses of each other
//! - `listing`: all blocks of a list
//! - `search`: the search for them
//! - `uses`: which of them use each other
#![tactic(auto)]

mod blocks;
mod dependents;
mod listing;
mod search;
mod uses;

pub use dependents::{Dependents, find_all, find_dependents};
