//! The hints on a block: what no fault of the report says of its head and its items and yet is a
//! mistake.
//!
//! - `hint`: what a hint says, and where
//! - `block`: the hints on a block, by its text alone
//! - `found`: what is found in a part of a block; `mentions`: which capability an item says;
//!   `formats`: what is wrong with the format of a string, by `counts`, how many parameters each
//!   takes, and `stacks`, where the stack is full; `commas`: a comma that is missing; `delays`:
//!   padding that is none; `heads`: a head that holds an item
//! - `laws`: whose counts of parameters these are
#![tactic(auto)]

mod block;
mod commas;
mod counts;
mod delays;
mod formats;
pub mod found;
mod heads;
pub mod hint;
pub mod laws;
mod mentions;
mod stacks;

pub use block::{hints_of_block, text_of};
pub use found::{Found, push_hints};
pub use hint::{Hint, HintKind};
pub use mentions::{is_among, mention_in, note, number_said};
