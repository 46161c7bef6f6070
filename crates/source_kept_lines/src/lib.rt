//! The layout that keeps lines (terminfo(5); X/Open Curses Issue 7, "Terminfo Source Format"): white
//! space of a terminfo source is repaired, and lines past the width are broken.
//!
//! - `parts`: the parts of a line, each up to the comma that ends names or an item
//! - `fronts`: the white space that a line begins with
//! - `lines`: the lines of a block, and the white space that its items have in front
//! - `writing`: a line as it is written
//! - `repairing`: a source as it is written
//! - `sources`: the same of a source with a byte order mark, or lines that end in CR LF, which stay
//! - `laws`: a repaired source is read as before, and stays as it is
#![tactic(auto)]

mod fronts;
pub mod laws;
mod lines;
mod parts;
mod repairing;
mod sources;
mod writing;

pub use repairing::repaired;
pub use sources::repaired_source;
