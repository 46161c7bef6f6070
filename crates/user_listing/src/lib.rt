//! Listings with user-defined capabilities, as infocmp(1) prints them at `-x`: an entry as source
//! text, two entries compared, and an entry as it differs from others. What an entry has by a name
//! that is in none of the tables comes after what it has of the tables, kind by kind, in the order
//! of the names.
//!
//! ```text
//! mine,
//!     am, Tc,
//!     cols#80, U8#1,
//!     bel=^G, Ss=\E[%p1%d q,
//! ```
//!
//! - `entry`: an entry and the extension after it (`ExtendedEntry`)
//! - `kinds`: the kind of a value; `names`: the user-defined names of a kind
//! - `items`: an item as it is written, and its place on a line
//! - `values`: what an entry has of a capability or of a name, and how it differs from what others
//!   have
//! - `listing`: an entry as source text (`list`)
//! - `relative_source`: an entry as source text, as it differs from others (`relative`)
//! - `comparison`: two entries compared (`compare`)
//! - `laws`: without user-defined names, these are the texts of `ti_list`; names come in order
//!
//! Layouts, orders, modes and the refusal are those of `ti_list`.
#![tactic(auto)]

mod comparison;
mod entry;
mod items;
mod kinds;
pub mod laws;
mod listing;
mod names;
mod relative_source;
mod values;

pub use comparison::compare;
pub use entry::ExtendedEntry;
pub use listing::list;
pub use relative_source::relative;
