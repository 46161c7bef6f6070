//! Line graphics (terminfo(5), "Line Graphics"): an entry that `ti-tic` writes, with `smacs` and
//! `rmacs`, of which nothing says `acsc`, has that of a VT100, as from ncurses's tic.
//!
//! - `graphics`: whether a block lacks `acsc`, and what it says with that of a VT100
//! - `entries`: its entry with it: of one that was compiled with user-defined capabilities
//!   (`drawn_entry`), or without them (`drawn_image`)
//! - `laws`: the names of the three capabilities, that one thing is written of each block, and how it is
//!   read back
#![tactic(auto)]

mod entries;
mod graphics;
pub mod laws;

pub use entries::{drawn_entry, drawn_image};
