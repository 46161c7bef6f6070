//! A terminfo source as an editor holds it: a text that is exchanged, over a database of its
//! blocks. What is wrong with it is told by `source_diagnostics`.
//!
//! - `recutting`: the blocks of a text, cut anew only between those that were held before
//! - `cut`: what two lists of blocks have in common at their ends
//! - `taking`: whether the blocks of a source are taken, once they are cut
//! - `exchanging`: the edits that make the blocks of one text those of another
//! - `document`: a text with a database of its blocks
#![tactic(auto)]

mod cut;
mod document;
mod exchanging;
pub mod laws;
mod recutting;
mod taking;

pub use document::Document;
pub use source_diagnostics::{Capabilities, Diagnostic, Problem, shown_detail};
