//! Edits of a block: what is offered against the fault of one item, and what an editor can take.
//!
//! - `distances`: the names that are nearest to one that nothing has: `nearest`
//! - `candidates`: the names that an item may have in place of its own
//! - `pieces`: the parts of an item as it is written: `written_name`, `used_of`, `span`, `bytes_of`;
//!   the bytes in a part of a block: `bytes_in`
//! - `carets`: the `^` at the end of a string that takes nothing
//! - `texts`: bytes as an editor is sent them: `utf8_of`
//! - `starting`: the offsets of a text at which a character begins: `is_start`
//! - `edits`: what is offered against the fault of an item, as edits of its block: `push_edits`;
//!   other names in place of one: `push_nearest`
//! - `narrowing`: an edit without the bytes that it leaves as they are: `narrowed`
//! - `laws`: an item that is edited as it is offered is read without the fault
#![tactic(auto)]

mod candidates;
mod carets;
mod distances;
mod edits;
pub mod laws;
mod narrowing;
mod pieces;
mod starting;
mod texts;

pub use distances::nearest;
pub use edits::{Advice, Edit, push_edits, push_nearest};
pub use narrowing::narrowed;
pub use pieces::{bytes_in, bytes_of, span, used_of, written_name};
pub use starting::is_start;
pub use texts::utf8_of;
