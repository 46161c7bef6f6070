//! What `ti-infocmp` prints: entries as source text, compared, or as they differ from others, with or
//! without their user-defined capabilities.
//!
//! ```text
//! // ti-infocmp -x -d xterm ./out/x/xterm
//! let text = infocmp(alloc, &mut tree, &request, own, directories.as_slice())?;
//! ```
//!
//! - `names`: the names of a request, with the terminal's own for those that are missing
//!   (`needs_own`)
//! - `reading`: the files of the names; `entries`: the entries that they are
//! - `listings`: what is printed of entries with their user-defined capabilities, and
//!   `plain_listings` without them, as the program `ti` prints it
//! - `termcap_listings`: what is printed of entries in termcap's form
//! - `initializing`: what is printed of an entry as C has it
//! - `joining`: what is printed of entries, each on one line
//! - `tool`: what the whole of it prints (`infocmp`)
//! - `directories`: what `-D` prints (`directories_text`)
#![tactic(auto)]

mod directories;
mod entries;
mod initializing;
mod joining;
mod listings;
mod names;
mod plain_listings;
mod reading;
mod termcap_listings;
mod tool;

pub use directories::directories_text;
pub use names::needs_own;
pub use tool::infocmp;
