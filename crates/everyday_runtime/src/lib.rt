//! What everyday tools ask of the system: the environment, the line to the terminal, the files that an
//! entry names, standard output, and how a tool ends.
//!
//! - `environment`: the terminal, its size and the directories of entries, as variables say
//!   (`Variables`); whether standard output is a terminal and takes colors
//! - `line`: the line to the terminal of `ti-tset` and `ti-reset` (`Line`)
//! - `start_files`: the files that an entry names for its initialization and for its reset
//! - `output`: what is written to standard output (`print_bytes`)
//! - `stopping`: why a tool stops before its work is done (`Stop`, `stop_of`), how it then ends
//!   (`end_tool`), and what it says on standard error (`say`)
#![tactic(auto)]

mod environment;
mod line;
mod output;
mod start_files;
mod stopping;

pub use environment::{Variables, is_terminal, takes_colors};
pub use line::{Line, LineFound};
pub use output::print_bytes;
pub use start_files::StartContent;
pub use stopping::{Stop, end_tool, say, stop_of};
