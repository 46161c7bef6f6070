//! The report of `ti-tic` on standard error: a line for each fault, in the form of GNU's compilers.
//!
//! ```text
//! mine.ti:4:9: error: cols: Invalid number. .. [E3 BadNumber]
//! ```
//!
//! - `report`: the lines (`write_said`, `write_faults`)
//! - `sentences`: the sentence of each error and warning
//! - `places`: the column of each fault, at the part of its block that it is of
//! - `blocks`: a block with what was read of it; `columns`: columns of a text
#![tactic(auto)]

mod blocks;
mod columns;
mod places;
mod report;
mod sentences;

pub use report::{Place, append_parts, write_faults, write_said};
pub use sentences::{BAD_USER_DEFINED, TOO_MANY_NAMES, sentence};
pub use source_spans::{BLOCK_TOO_LONG, TOO_MANY_BLOCKS};
