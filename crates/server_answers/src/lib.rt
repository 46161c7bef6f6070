//! A terminfo source as the language server holds and shows it: what is published of it, and the
//! answers to questions about it, as values of the protocol (LSP 3.17).
//!
//! - `terminfo`: a source, what is wrong with it, and the answer to each question about it
//! - `showing` writes diagnostics and hints
//! - `answering` answers questions; `offers` has the capabilities as a completion offers them and
//!   `installed_offers` the names of installed entries, `laying` lays out and folds, `renaming`
//!   renames, `searching` finds entries by parts of their names, `signing` lists the parameters of a
//!   string, and `fixing` says what is offered against faults
#![tactic(auto)]

mod answering;
mod fixing;
mod installed_offers;
mod laying;
mod offers;
mod renaming;
mod searching;
mod showing;
mod signing;
mod terminfo;

pub use terminfo::Terminfo;
