//! What is shown about a place in a terminfo source: what the capability or the entry is that it is
//! on, in sentences.
#![tactic(auto)]

mod hovering;

pub use hovering::hover;
