//! The other names of the capabilities in terminfo(5): the variable of X/Open Curses, such as
//! `cursor_address` for `cup`, and the code of termcap, `cm`.
//!
//! - `variables`: the variable of a capability, and the capability of a variable
//! - `codes`: the code of a capability, and the capability of a code
//! - `variable_tables`, `code_tables`: the lists of both, and their indexes by key
//! - `index`: looks up a word in a list by its key
//! - `laws`: each variable leads to its capability, and so does each code but one
//!
//! The lists are literals in `specs/`, and the tables are proved equal to them. No call takes
//! memory.
#![tactic(auto)]

mod code_tables;
mod codes;
mod index;
pub mod laws;
mod variable_tables;
mod variables;

pub use codes::{by_code, code};
pub use variables::{by_variable, variable};
