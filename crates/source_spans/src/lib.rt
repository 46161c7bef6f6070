//! The parts of a block, with the bytes at which they are: what a cursor in an editor is on.
//!
//! - `folding`: the text of a block without its comments and line breaks
//! - `parts`: the names field with its names and the items, as parts of that text
//! - `heads`: where the names field of a block is; `names`: the names by which the block can be
//!   looked up
//! - `items`: the items as they are seen, and the names that they use
//! - `subjects`: what an offset of a block is on
//! - `faulty`: the part of a block that each of its faults is of
//! - `touching`: the item that an offset of a block is on, as it is written, and its ordinal
//! - `sentences`: the sentence of each error and warning
//! - `words`: the word that an editor completes
#![tactic(auto)]

mod faulty;
mod folding;
mod heads;
mod items;
pub mod laws;
mod names;
mod parts;
mod reading;
mod replacing;
mod sentences;
mod subjects;
mod touching;
mod words;

pub use faulty::FaultFinder;
pub use folding::folded;
pub use heads::{Head, head_of};
pub use items::{Use, used_part, uses_of, visible_items, without_end};
pub use names::own_spans;
pub use parts::{Part, field_len, item_parts, name_parts, span_of};
pub use sentences::{BLOCK_TOO_LONG, TOO_MANY_BLOCKS, sentence};
pub use subjects::{Subject, Touched, subject_at, subject_in};
pub use touching::{Item, item_in, name_of, ordinal_in};
pub use words::{Word, word_before};
