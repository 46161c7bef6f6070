//! How a terminal is started, as its entry says: what `init` and `reset` of tput(1) write, what they ask
//! of the modes of the line, and terminals that no program can draw on.
//!
//! ```text
//! let Some(first) = first_bytes(alloc, is_reset, &view, last_column, &line)? else {
//!     ..                                       // a string of the entry cannot be written
//! };
//! let path = file_named(is_reset, &view);      // the file to write next
//! let last = last_bytes(alloc, is_reset, &view, &line)?;
//! ```
//!
//! - `named`: what an entry has of a name in the tables (`has_flag`, `table_number`, `table_text`)
//! - `padding`: strings with their padding (`pad_once`, `pad_output`, `pad_both`)
//! - `starting`: what is written before the file that an entry names (`first_bytes`), the file
//!   (`file_named`), and what is written after it (`last_bytes`)
//! - `written`: the parts of what is written (`Part`), and their bytes (`write_parts`)
//! - `modes`: what is asked of the modes of the line (`modes_asked`)
//! - `fitness`: why no program can draw on a terminal (`Unfit`, `why_unfit`)
#![tactic(auto)]

mod fitness;
mod modes;
mod named;
mod padding;
mod starting;
mod written;

pub use fitness::{Unfit, why_unfit};
pub use modes::modes_asked;
pub use named::{has_flag, table_number, table_text};
pub use padding::{pad_both, pad_once, pad_output};
pub use starting::{file_named, first_bytes, last_bytes};
pub use written::{Part, write_parts};
