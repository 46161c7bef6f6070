//! Uses of entries that are installed: `ti-tic` takes such an entry if no block of a source has the
//! name, so they are no errors.
//!
//! ```text
//! let installed = Installed::of(alloc, names)?;
//! let findings = source_findings(alloc, &installed, &mut document, &mut completed)?;
//! ```
//!
//! - `directories`: where the file of an entry is (`is_directory_of`)
//! - `names`: the names of installed entries (`Installed`)
//! - `missed`: those of them that a source uses and does not have
//! - `completed`: a source with a block after it for each of these
//! - `findings`: what is wrong with a source once it has them, and where it uses them (`source_findings`)
#![tactic(auto)]

mod completed;
mod directories;
mod findings;
mod missed;
mod names;

pub use directories::is_directory_of;
pub use findings::{Findings, source_findings};
pub use names::Installed;
