//! What an edit rebuilds: the blocks that depend on it, with the values, the entry and the faults
//! of each, found along an order in which owners come before their users, and the work of that. If
//! a list is made in one go, all of its blocks.
//!
//! - `plans`: the plan of an edit
//! - `planning`: how it is made
//! - `faults`: the faults of a block
//! - `tables`: the values of a block, item by item, and its entry
//! - `settling`: what is found out about one block
//! - `owners`: what becomes of the owners of used names
#![tactic(auto)]

mod faults;
mod owners;
mod planning;
mod plans;
mod settling;
mod tables;

pub use planning::{plan, plan_all};
pub use plans::Plan;
