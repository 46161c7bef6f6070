//! The messages of a client, read from JSON (Language Server Protocol, version 3.17).
//!
//! - `bodies`: which value a body is
//! - `messages`: what a client asks for or reports; `reading` reads it from values, with `members`
//!   and `asking`
//! - `clients`: what a client can do
//! - `laws`: what a repair of a body exchanges
#![tactic(auto)]

mod asking;
mod bodies;
pub mod clients;
pub mod laws;
mod members;
pub mod messages;
pub mod reading;

pub use bodies::parse;
pub use clients::Client;
pub use messages::{Call, Change, Message, Notice, Question};
pub use reading::read_message;
