//! The indexes of a list of blocks that is edited: blocks are known by ids that stay when others
//! come and go, and names lead to the blocks that have them and to those that use them.
//!
//! - `labels`: labels that rise along the ids, by which two ids are compared
//! - `laws`: what holds of the lists of an index
//! - `listing`: lists of some ids, in the order of all
//! - `names`: names with the blocks that have and use them
//! - `order`: the ids in the order of the list
#![tactic(auto)]

mod labels;
pub mod laws;
mod listing;
mod names;
mod order;

pub use names::NameIndex;
pub use order::BlockOrder;
