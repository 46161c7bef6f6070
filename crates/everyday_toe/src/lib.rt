//! The table of the entries of directories, as toe(1) prints it: a function of the files that are in
//! the directories.
//!
//! ```text
//! match see(alloc, b"xterm", bytes)? {                    // the file /usr/share/terminfo/x/xterm
//!     Seen::Entry(row) => rows.push(row)?,
//!     Seen::Alias => ..                                   // the file of a name that is not the first
//!     Seen::Damaged => ..
//! }
//! let text = table(alloc, Style { headings: false, sorted: true }, directories)?;
//! ```
//!
//! - `seeing`: what a file is to the table (`see`), and the row of an entry (`Row`)
//! - `sums`: a sum of what an entry has, by which entries of one name are told apart
//! - `listing`: the table (`table`) of each `Directory`; `ordering` has the order of its rows, `marking`
//!   the marks that show which directory has an entry, and `lines` its lines
#![tactic(auto)]

mod lines;
mod listing;
mod marking;
mod ordering;
mod seeing;
mod sums;

pub use listing::{Directory, Style, table};
pub use seeing::{Row, Seen, see};
