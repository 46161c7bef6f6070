//! What a string of a terminal does, told in words: its pieces in order, and an example.
//!
//! - `pieces`: a string as its pieces: runs of bytes that are written as they are, and codes
//! - `words`: what a code does, in words
//! - `examples`: what a string gives for example parameters
//! - `explaining`: the text on a string that an editor shows
//! - `parameters`: which parameter a place of the source text of a string is about
//! - `places`: which byte of a string a place of its source text is of
//! - `spellings`: bytes as a source spells them
//!
//! The crate `ti_formats` reads the codes of a string, and `ti_param` runs them.
#![tactic(auto)]

mod examples;
mod explaining;
pub mod laws;
mod parameters;
mod pieces;
mod places;
mod spellings;
mod words;

pub use examples::{push_example, samples_for};
pub use explaining::explained;
pub use parameters::parameter_at;
pub use pieces::{Piece, Pieces, pieces_of};
pub use places::place_in;
pub use spellings::spelled;
pub use words::words_of;
