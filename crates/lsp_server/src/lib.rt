//! What a language server does with each message, over any texts that can be edited: its state, and
//! its answers (LSP 3.17). It knows nothing about terminfo.
//!
//! - `source`: what a text has to offer that is open in an editor
//! - `phase`: how far the server has come; `requests` replies to requests by it
//! - `documents`: the documents that are open; `editing` changes the text of one
//! - `server`: the state, changed by a message; `serving` replies to frames with it; `runs` has the
//!   law on whole runs
#![tactic(auto)]

mod documents;
mod editing;
pub mod laws;
pub mod phase;
mod requests;
mod runs;
pub mod server;
mod serving;
pub mod source;

pub use phase::Phase;
pub use server::{Server, VERSION};
pub use serving::serve;
pub use source::HeldText;
