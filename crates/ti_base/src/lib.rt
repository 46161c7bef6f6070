//! A source that is edited block by block, and that knows the compiled entry of every block: at
//! every time what the whole current source gives when it is taken afresh. What that is,
//! `base_meaning` says, whose edits and faults are public here again.
//!
//! An edit is an exchange: at most one block is taken out of the list, and at most one is put in.
//! The blocks that depend on it are then settled in the closing order of the components of their
//! uses. A use is circular exactly if its owner is in the component of its block, and the owners of
//! all other uses of a block come before it. So one pass settles each block once. A queue of blocks
//! whose owners are settled would give the same, and the circular uses would still have to be told
//! from what is left in it.
//!
//! Two kinds of number name a block: a position is its place in the list, from 0, and changes as
//! blocks before it come and go; an id is given to it when it is put in, and stays with its slot.
//! An offset is of a byte, and no block has one.
//!
//! - `ruled`: the edited source, read by a rule, and a run of edits
//! - `database`: the same by the rule of the leftmost mention
//! - `judging`: whether an edit is refused, and why
//! - `exchange`: an edit as an exchange of blocks, which takes no memory, and the way back
//! - `growing`: a list that edits make, with what there is to find out about it found once
//! - `texts`: which texts of blocks are refused, and what is read from one
//! - `slot_edits`: the edits of a settled list, taken back if memory is short
//! - `rebuilding`: what an edit rebuilds, put into the slots of the blocks
//! - `owners`: whose a name is
//! - `names`: each of the names of a block once
//! - `faults`: what is wrong with a source
//! - `report`: a fault as text
#![tactic(auto)]

mod database;
mod exchange;
mod faults;
mod growing;
mod judging;
mod names;
mod owners;
mod rebuilding;
mod report;
mod ruled;
mod slot_edits;
mod texts;

pub use base_meaning::{Edit, EditError, Edited, Fault, Outcome};
pub use database::{Database, run};
pub use names::distinct_names;
pub use report::{write_detail, write_fault};
pub use ruled::{RuledDatabase, run_by};
