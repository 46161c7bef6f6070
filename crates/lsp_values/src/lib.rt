//! What a server sends, as values of JSON (Language Server Protocol, version 3.17).
//!
//! - `writing`: the responses and the notifications, and what the server can do
//! - `answers`: the values that answer questions about a document
//! - `replies`: what comes of such a question
//! - `objects` makes the larger objects of both
#![tactic(auto)]

pub mod answers;
mod objects;
pub mod replies;
pub mod writing;

pub use replies::Reply;
