//! What a list of blocks of terminal descriptions means, apart from any data structure that holds
//! it: which block owns each name, what a block says once its uses are expanded, its compiled
//! entry, what is wrong with the source, and what an edit makes of the list. The definitions are in
//! `specs`; the crates above state their contracts in them.
//!
//! - `edits`: what an edit is, and why one is refused
//! - `edit_laws`: laws on edits, and on what they leave
//! - `faults`: a fault of a source
//! - `item_laws`: laws on the faults of items and on names
//! - `laws`: laws of the definitions
//! - `rule_laws`: laws on the rules by which a block's values count
//! - `use_laws`: laws on what blocks reach, and on the faults of their uses
#![tactic(auto)]

mod edit_laws;
mod edits;
mod faults;
mod item_laws;
pub mod laws;
mod rule_laws;
mod use_laws;

pub use edits::{Edit, EditError, Edited, Outcome};
pub use faults::Fault;
