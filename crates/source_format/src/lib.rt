//! The layout of a terminfo source (terminfo(5); X/Open Curses Issue 7, "Terminfo Source Format"):
//! the same blocks, comments and order of items, in lines of a width.
//!
//! - `kinds`: the kinds of items, of which a line has one
//! - `lines`: the lines of a block that are kept as they are: comments and blank lines
//! - `entries`: the items of a block, each with its line
//! - `places`: where on a line an item comes; `writing`: pieces as they are written
//! - `formatting`: a source as it is written
//! - `sources`: the same of a source with a byte order mark, or lines that end in CR LF, which stay
//! - `folding`: the lines of a source that an editor may fold
//! - `laws`: a formatted source is read as before, and stays as it is
#![tactic(auto)]

mod entries;
mod folding;
mod formatting;
mod kinds;
pub mod laws;
mod lines;
mod places;
mod sources;
mod writing;

pub use folding::{Fold, folds_of};
pub use formatting::formatted;
pub use sources::formatted_source;
