//! A script that edits a source and asks of it, over any reader and writer, and its replies.
//!
//! - `streaming`: the session. `editor` holds the source and the block that is open, `requests`
//!   says what a line asks for, and `replies` writes what it is answered
//! - `laws`: the definition of a session leaves nothing open but out of memory
//!
//! The devices that it reads from and writes to are those of `tools_devices`.
#![tactic(auto)]

mod editor;
pub mod laws;
mod replies;
mod requests;
mod streaming;

pub use streaming::session;
pub use tools_devices::{Counted, ToolError};
