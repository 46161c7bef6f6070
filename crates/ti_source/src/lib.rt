//! The terminfo source format, as terminfo(5) and X/Open Curses Issue 7 ("Terminfo Source Format")
//! describe it: what a source says, with no files.
//!
//! - `code`: the codes of the faults that a description may have.
//! - `cutting` and `walk`: a source as a preface and blocks, one for each entry; `heads` finds
//!   where they begin.
//! - `header`: the names field of a block, and its lookup names.
//! - `folding`: a block without its comments and line breaks; `items`: the names field and the
//!   items of a block, and what an item states; `verdicts`: what comes of that; `sharing`: strings
//!   that blocks share; `parsing`: a block as it is read, with its faults, or its names field alone.
//! - `laws`: that each source has one cut, and each block one reading.
//!
//! The crate `ti_spelling` has the spelling of string values and numbers. What the layers above need
//! of it is public here too.
#![tactic(auto)]

mod code;
mod cutting;
mod folding;
mod header;
mod heads;
mod items;
pub mod laws;
mod parsing;
mod sharing;
mod statements;
mod verdicts;
mod walk;

pub use code::Code;
pub use cutting::{blocks, is_block};
pub use header::{is_lookup_name, lookup_names};
pub use items::{Claim, RawItem, Statement, statement_of, strip};
pub use parsing::{Item, Local, Parsed, Rule, What, names_field, parse, parse_sharing};
pub use sharing::SharedTexts;
pub use statements::ItemWalk;
pub use ti_spelling::{NumberError, UnescapeError, Unescaped, escape, read_number, unescape};
pub use walk::Blocks;
