//! The formats of parameter strings, as terminfo(5) has them under "Parameterized Strings": their
//! codes and conditionals, and how they are read.
//!
//! - `codes`: the codes of a format, and its tokens; `reader`, `directives` and `decimals`: they read
//!   one code.
//! - `lexer`: a format as its tokens, up to the first that may not come where it is.
//! - `acceptor`: whether a token may come in the conditionals that are open.
//! - `taken`: which parameters a format takes.
//!
//! A format is a tree: `specs/Formats.antt` has the grammar, and `specs/Codes.antt` the table of
//! codes. `one_code` and `one_reading` are laws of these. The crate `ti_param` says what a tree does.
#![tactic(auto)]

// What reads or judges one code is marked `inline(always)`. By callgrind a format takes 2.9 times the
// instructions if each code is read and run by calls.

mod acceptor;
mod codes;
mod decimals;
mod directives;
pub mod laws;
mod lexer;
mod reader;
mod taken;

pub use codes::{Code, Letter, Operator, ParameterIndex, Placed, Token, Variable};
pub use lexer::Lexer;
pub use taken::{TakenParameters, parameters};
