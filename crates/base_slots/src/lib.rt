//! The blocks of a source under stable ids, in the order of their list, with an index of their
//! names: what planning an edit reads, and what an edit changes. A block's slot holds its text, the
//! block as it is read, and what was found out about it in the list.
//!
//! - `changes`: blocks come to the list and leave it
//! - `entries`: the entry of a block, with the values that it has
//! - `indexing`: the index of names as a block comes or goes
//! - `positions`: positions of ids
//! - `slots`: the blocks, and what each slot holds
#![tactic(auto)]

mod changes;
mod entries;
mod indexing;
mod positions;
mod slots;

pub use entries::BlockEntry;
pub use slots::{KeptFault, Settled, Slot, Slots, State, copy_detail};
