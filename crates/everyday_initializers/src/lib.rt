//! An entry as C has it, in the tables of a program, as infocmp(1)'s `-E` and `-e` print it.
//!
//! ```text
//! static char dumb_alias_data[] = "dumb|80-column dumb tty";
//!
//! static char dumb_s_bel          [] = "\007";
//! ```
//!
//! - `marks`: where a file says of a capability without a value whether it is absent or cancelled
//! - `rows`: the capabilities of an entry as they are in its file, user-defined ones last of their
//!   kind
//! - `lines`: a line of a table
//! - `whole`: the tables, and the structure that has them (`initializers`)
#![tactic(auto)]

mod lines;
mod marks;
mod rows;
mod whole;

pub use whole::initializers;
