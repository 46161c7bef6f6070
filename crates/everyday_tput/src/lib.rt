//! The command `tput` with user-defined capabilities (user_caps(5)): the bytes that drive a
//! terminal, from a compiled entry and the extension after it.
//!
//! It does what `tools_tput` does, and more: it accepts a name that is in no table and that the entry
//! has, several commands, and words as C's `strtol` reads them; `cols` and `lines` are those of the
//! window, and `clear` clears the scrollback.
//!
//! - `entry`: an entry with its user-defined capabilities (`Entry`); `target`: what commands are for
//!   (`Target`)
//! - `running`: words as commands, one after another (`tput`); `commands` answers one of them, by
//!   `strings`
//! - `asked`: what a name asks for, and whether words may ask for something user-defined
//!   (`needs_extension`)
//! - `clearing`: what clear(1) writes (`clear`)
//! - `parameters`: words as the parameters of a string; `numbers`: what they spell
//! - `starting`: the result of `init` and `reset`, of which `everyday_starting` has the parts
//! - `sizes`: how many columns and lines there are (`Sources`, `column_count`)
//! - `streaming`: commands read line by line (`tput_lines`); `terminal` takes them, and `words`
//!   splits a line
//! - `laws`: commands one after another; what needs nothing user-defined
#![tactic(auto)]

mod asked;
mod clearing;
mod commands;
mod entry;
pub mod laws;
mod numbers;
mod parameters;
mod running;
mod sizes;
mod starting;
mod streaming;
mod strings;
mod target;
mod terminal;
mod words;

pub use asked::needs_extension;
pub use clearing::{ClearError, Cleared, clear};
pub use entry::Entry;
pub use running::{Ending, Stop, Until, tput};
pub use sizes::{Sources, column_count, line_count};
pub use streaming::{LinesEnding, tput_lines};
pub use strings::BAD_COMMAND;
pub use target::{StartFile, Target};
