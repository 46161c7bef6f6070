//! What a client and a server speak of (Language Server Protocol, version 3.17), without the JSON
//! that says it.
//!
//! - `places`: positions and ranges in a text
//! - `severities`: how grave a diagnostic is
//! - `items`: what an item of a completion stands for
//! - `failures`: why a request is refused
//!
//! No call takes memory.
#![tactic(auto)]

pub mod failures;
pub mod items;
pub mod places;
pub mod severities;

pub use failures::Failure;
pub use items::ItemKind;
pub use places::{Position, Range};
pub use severities::Severity;
