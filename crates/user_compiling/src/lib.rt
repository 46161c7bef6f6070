//! What `tic -x` makes of a source (tic(1), user_caps(5)): the entry of each block with its
//! user-defined capabilities, and the report.
//!
//! ```text
//! let compiled = compile(alloc, &database)?;
//! let found = faults(alloc, &database, &compiled)?;
//! let report = report_of(alloc, &database, &found, 1)?;
//! ```
//!
//! - `compiled`: what becomes of a block (`Compiled`): its entry, or why there is none
//! - `rows`: the user-defined capabilities that an entry has
//! - `compiling`: what becomes of each block of a source (`compile`)
//! - `fault`: a fault of a source (`ExtendedFault`), one of the profile or W5; `own_codes`: what is
//!   wrong with the items of a block that define names; `finding`: what is found out about a block
//!   for its faults (`Finding`), which can be kept; `block_faults`: the faults of a block;
//!   `source_faults`: those of a source (`faults`), also by what was found out (`found_faults`)
//! - `report`: the faults as text (`report_of`)
//! - `leftmost`: the same of a source that a `Database` holds
//! - `laws`: each entry is read as what its block says; without user-defined names all is as in the
//!   profile
//!
//! A source without user-defined names gives the entries and the report that `ti_base` gives.
#![tactic(auto)]

mod block_faults;
mod compiled;
mod compiling;
mod fault;
mod finding;
pub mod laws;
pub mod leftmost;
mod own_codes;
mod report;
mod rows;
mod source_faults;

pub use compiled::Compiled;
pub use compiling::{compile, compile_with};
pub use fault::ExtendedFault;
pub use finding::Finding;
pub use report::report_of;
pub use source_faults::{faults, findings_of, found_faults};
