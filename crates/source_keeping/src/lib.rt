//! Comments and blank lines of a source: which lines they are, and which edits leave each of them
//! as it is, on the line that it is on.
//!
//! - `keeping`: the edits that are within a line of items
//! - `laws`: such an edit keeps the comments and blank lines
#![tactic(auto)]

mod keeping;
pub mod laws;

pub use keeping::stays_in_line;
