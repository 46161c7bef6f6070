//! Names of entries in a document: where they lead, and what a rename of one edits.
//!
//! - `names`: where the names of a document lead: `definition_of`, `references_of`; `name_of`, the
//!   name that a place is on
//! - `name_edits`: the edits that put a new name in the place of another
//! - `renaming`: what an editor renames: `renaming_of`, `renamable_at`
//! - `laws`: the edits of a rename do not overlap; the client that makes them has the new name in
//!   place of the old one, and each entry has what it had
#![tactic(auto)]

pub mod laws;
mod name_edits;
mod names;
mod renaming;

pub use names::{definition_of, name_of, references_of};
pub use renaming::{RenameEdit, Renaming, renamable_at, renaming_of};
