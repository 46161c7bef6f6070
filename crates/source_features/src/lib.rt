//! What an editor asks of a document at a place: the language features of the Language Server
//! Protocol 3.17, chapter "Language Features". What it asks of a name is in `source_names`.
//!
//! - `meanings`: what an item says, as it is read; `user_meanings`: what one says of a user-defined
//!   name
//! - `hovers`: what an editor shows about a position; `explaining`: what it says of a string there
//! - `signatures`: which parameters the string at a position takes
//! - `completions`: what an editor offers to complete a word with
//! - `formatting`: the edit that lays out a document; `range_formatting`: that of the blocks that a
//!   range touches
//! - `laws`: what a completion offers and replaces; a document has its layout once the client has
//!   made the edit
#![tactic(auto)]

mod completions;
mod explaining;
mod formatting;
mod hovers;
pub mod laws;
mod meanings;
mod range_formatting;
mod signatures;
mod user_meanings;

pub use completions::{Completion, Offers, completion_of};
pub use explaining::explanation_of;
pub use formatting::{LayoutEdit, layout_of};
pub use hovers::{About, Hover, hover_of};
pub use meanings::Meaning;
pub use range_formatting::layout_in;
pub use signatures::{Signature, signature_of};
