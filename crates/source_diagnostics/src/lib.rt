//! What is wrong with a terminfo source, as an editor shows it: its errors and warnings, each with
//! its place and a sentence, or why the whole source is refused.
//!
//! - `capabilities`: which capabilities a source may have
//! - `source_faults`: the faults of a source, by that
//! - `marking`: what of a block is shown as faulty for a fault
//! - `kept`: what is shown for the faults of a block, kept while it and they stay the same
//! - `faults`: the faults of a database, and what is shown for each
//! - `diagnostics`: the diagnostics of a source, of which a database has the blocks, or a database
//!   that keeps what was found out about user-defined capabilities
#![tactic(auto)]

mod capabilities;
mod diagnostics;
mod faults;
mod kept;
pub mod laws;
mod marking;
mod source_faults;

pub use capabilities::Capabilities;
pub use diagnostics::{
    Diagnostic, Problem, diagnostics_of_source, kept_diagnostics, profile_message, sentence_by,
    shown_detail,
};
pub use kept::KeptMarks;
