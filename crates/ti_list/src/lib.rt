//! Listings of compiled entries, as infocmp(1) prints them: an entry as source text, two entries
//! compared capability by capability, and an entry as it differs from others.
//!
//! - `layout`: how wide the lines of a listing are, and the order of its items
//! - `order`: the capabilities of a kind in that order
//! - `contents`: what an entry has of a capability, and how it differs from what others have
//! - `items`: an item as it is written
//! - `listing`: an entry as source text
//! - `relative_source`: an entry as source text, as it differs from others
//! - `comparison`: two entries compared
#![tactic(auto)]

// What is done for each capability of an entry is marked `inline(always)`: its caller knows the
// kind, so that the cases of the other kinds fold away. By callgrind a listing takes 2.9 times the
// instructions without it.

mod comparison;
mod contents;
mod items;
mod layout;
mod listing;
mod order;
mod relative_source;

pub use comparison::compare;
pub use layout::{Layout, Mode, Order};
pub use listing::list;
pub use relative_source::{ListError, relative};
