//! Strings in termcap's form, as infocmp(1)'s `-C` writes them.
//!
//! - `bytes`: bytes as they are written; `pieces`: what codes and delays are in a string
//! - `strings`: a string in termcap's form (`termcap_text`), and as ncurses writes it in a source
//!   (`source_text`)
#![tactic(auto)]

mod bytes;
mod pieces;
mod strings;

pub use pieces::{after, begins, byte_at};
pub use strings::{source_text, termcap_text};
