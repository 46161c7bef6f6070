//! The command `tput`: the bytes that drive a terminal, from a compiled entry, as tput(1) has it.
//!
//! - `commands`: the result of one command; `replies` makes its bytes and status, of what
//!   `entries` finds in the entry and of the words, which `parameters` reads as numbers and texts
//! - `streaming`: commands read line by line; `terminal` takes them, and `words` splits a line
//! - `laws`: each command has one answer, and a bad one changes nothing
#![tactic(auto)]

mod commands;
mod entries;
pub mod laws;
mod parameters;
mod replies;
mod streaming;
mod terminal;
mod words;

pub use commands::tput;
pub use entries::terminal_line;
pub use parameters::parameters_of;
pub use replies::{TputOutcome, answer_string};
pub use streaming::tput_lines;
