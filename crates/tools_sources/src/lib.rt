//! A whole source before any of it is compiled: its preface, the lines and texts of its blocks, and
//! why it is refused; a database of its blocks; and the files of an entry.
//!
//! - `source_error`: why a source is refused
//! - `checking`: whether a source is refused, and the line of its first block
//! - `loading`: a database of all its blocks, which are read by a rule
//! - `entry_files`: the files of an entry, one for each name that its block owns
#![tactic(auto)]

mod checking;
mod entry_files;
pub mod laws;
mod loading;
mod source_error;

pub use checking::{check, first_line, is_ended};
pub use entry_files::add_entry_files;
pub use loading::{database_by, database_of};
pub use source_error::SourceError;
