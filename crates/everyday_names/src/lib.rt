//! Names fields of up to 512 bytes: those that are too long for the profile, whose limit is 127 bytes.
//! The blocks are compiled with a part of their descriptions, and the entries get the whole names
//! fields.
//!
//! - `fields`: the names field of a block, if it is such a field (`long_field`), and the block with a
//!   part of it (`push_fitted`)
//! - `entries`: an entry with another names field (`with_names`)
//! - `sources`: the blocks of a source, each with a part of its description (`fit`), and their whole
//!   names fields (`long_fields`)
//! - `laws`: such a block says the same, and such an entry is read as the same
#![tactic(auto)]

mod entries;
mod fields;
pub mod laws;
mod sources;

pub use entries::with_names;
pub use fields::{LONG_NAMES_MAX, long_field, push_fitted};
pub use sources::{fit, long_fields};
