//! For tests: the worked rows of files `*.rows`. A program gives the calls that its rows make, as
//! `Calls`; `run` makes them, and says which rows fail, with what came and what was wanted.
//! CONTRIBUTING, "Add a test", says how a row is written.
//!
//! - `words`: the words of a row
//! - `row`: what a call is given, and what it says
//! - `values`: what is said of capabilities
//! - `items`: the items and the faults of blocks
//! - `files`: the files of a directory, and their rows
#![tactic(auto)]

mod files;
mod items;
mod row;
pub mod values;
mod words;

pub use files::{Calls, run};
pub use items::{block_of, code_of, say_items, say_place};
pub use row::{NO_CALL, Row, RowResult, count_of, shown, text_of};
pub use words::RowError;
