//! Constants as characters (terminfo(5), "Parameterized Strings"): ncurses's tic writes `%{32}` as
//! `%' '`, in the strings of the tables.
//!
//! - `constants`: a string with its constants as characters
//! - `entries`: an entry with those of its strings (`with_characters`)
//! - `laws`: there is one such entry, and it stays as it is
#![tactic(auto)]

mod constants;
mod entries;
pub mod laws;

pub use entries::with_characters;
