//! How a source spells a string or a number, as terminfo(5) and X/Open Curses Issue 7 ("Terminfo
//! Source Format") describe it.
//!
//! - `spelling`: from the text of a string value to the bytes that it spells, or the reason that it
//!   spells none
//! - `writing`: from bytes to the text that spells them
//! - `numbers`: the value of a number, or why a text is none; `white_space`: the white space at the
//!   end of a text
//! - `laws`: a text has one value or one first fault, what is written spells its bytes, and a text
//!   reads as one number, as one over the limit, or as none
#![tactic(auto)]

pub mod laws;
mod numbers;
mod spelling;
mod white_space;
mod writing;

pub use numbers::{NumberError, read_number};
pub use spelling::{UnescapeError, Unescaped, unescape, unescape_into};
pub use white_space::trim_end;
pub use writing::{MOST_ESCAPED, escape, push_escaped, write_escaped};
