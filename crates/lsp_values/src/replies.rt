//! What comes of a question about a document.
use serde_json::Value;
use source_types::Failure;

/// What comes of a question about a document.
#[derive(Drop)]
pub enum Reply {
    /// Its answer.
    Answer(Value),
    /// Nothing: it is refused.
    Refusal(Failure),
}
