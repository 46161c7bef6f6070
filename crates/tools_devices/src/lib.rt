//! What the tools read from and write to: readers and writers whose failures are counted, trees of
//! files, and the faults that stop a tool.
//!
//! - `tool_error`: why a tool stops
//! - `counted`: readers and writers with a count of their failures and of their reads; `tally` is
//!   such a count, which only contracts see
//! - `reading` and `writing`: bytes read as they come, and bytes written to their end
//! - `buffer`: bytes with a limit, for which the room was made at the start
//! - `interpreter`: the lines of an input answered one after another. `line_reader` reads them,
//!   with a limit on their length and on the reads; `read_ahead` holds what was read and not used
//!   yet. `laws`: bytes are cut into lines in only one way
//! - `directories`: those in which an entry is looked for, by the environment, and the one into
//!   which entries are written; `paths`: the path of an entry below one; `searching`: the file of a
//!   terminal's entry, and the entry in it
//! - `tree`: what a tree of files is; `memory_tree` is one in memory, and `placing` writes files
//!   into a tree
#![tactic(auto)]

mod buffer;
mod counted;
mod directories;
mod interpreter;
pub mod laws;
mod line_reader;
mod memory_tree;
mod paths;
mod placing;
mod read_ahead;
mod reading;
mod searching;
mod tally;
mod tool_error;
mod tree;
mod writing;

pub use buffer::Buffer;
pub use counted::Counted;
pub use directories::{directory_at, output_directory, places};
pub use interpreter::{Interpreter, answer_lines};
pub use line_reader::READS_MAX;
pub use memory_tree::MemTree;
pub use paths::entry_path;
pub use placing::{File, place};
pub use searching::{entry, locate};
pub use tally::Tally;
pub use tool_error::ToolError;
pub use tree::{Tree, TreeFault};
pub use writing::write_out;
