//! Changes of a compiled entry: capabilities of the tables and user-defined ones are given values,
//! or lose those that they have, and the entry is written anew.
//!
//! ```text
//! let changes = [
//!     Change { name: b"Smulx", value: Some(Content::Text(b"\x1b[4:%p1%dm")) },
//!     Change { name: b"smxx", value: None },
//! ];
//! let bytes = changed(alloc, view.names(), &view, &extension, &changes)?;
//! ```
//!
//! - `change`: a change (`Change`), and why one cannot be made (`first_fault`, `ChangeFault`)
//! - `tables`: the values of the tables after changes
//! - `rows`: the user-defined capabilities after changes; `order`: one is taken out or put in
//! - `writing`: the entry after changes (`changed`)
#![tactic(auto)]

mod change;
mod order;
mod rows;
mod tables;
mod writing;

pub use change::{Change, ChangeFault, first_fault};
pub use writing::changed;
