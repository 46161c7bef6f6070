//! What each capability of a terminal description is, in a sentence of our own.
//!
//! - `descriptions`: a row for each capability: its variable, a sentence and the parameters
//! - `words`: the text that an editor shows of a row
//! - `user_rows`: a row for each user-defined capability that is known, and keys with modifiers
//! - `user_words`: the text that an editor shows of these
//! - `known_names`: whether a user-defined name is known
//!
//! The rows are data: marks of `tests/editor` have each with the name of its capability.
#![tactic(auto)]

mod descriptions;
mod known_names;
mod user_rows;
mod user_words;
mod words;

pub use descriptions::{Description, description_of};
pub use known_names::is_known;
pub use user_words::{UserDescription, user_description, user_descriptions};
pub use words::{detail_of, documentation_of};
