//! printf forms and padding, as terminfo(5) has them: a form of a parameter string ("Parameterized
//! Strings"), and a string with its delays as pad bytes ("Delays and Padding").
//!
//! - `printf`: what one of the printf forms prints
//! - `padding`: a string with its padding as pad bytes, at a line's speed
//! - `delays`: the delays of a string with their times, for whoever waits
//! - `laws`: that a text has one cut, and a number one numeral
#![tactic(auto)]

pub mod delays;
pub mod laws;
pub mod padding;
pub mod printf;

pub use delays::{DelayedText, first_delay};
pub use padding::{Line, PadError, pad, pad_owned};
