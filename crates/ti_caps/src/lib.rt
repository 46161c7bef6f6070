//! The capabilities of a terminal description, as terminfo(5) lists them: 44 booleans, 39 numbers
//! and 414 strings, each with its name and its place in the compiled entry.
//!
//! - `capability`: what a capability is, its kind and its index
//! - `tables`: the names in the order of the compiled entry, and all of them by name
//! - `keys`: a number for each name, by which a look-up searches
//! - `lookup`: from a name to its capability, and back
//! - `name_order`: the capabilities of each kind by name
//! - `laws`: names are distinct, each is found, and the order by name is the only one
//!
//! The lists of names are literals in `specs/`, where you can compare them with the manual; the
//! tables are proved equal to them. No call takes memory.
#![tactic(auto)]

mod capability;
mod keys;
pub mod laws;
mod lookup;
mod name_order;
mod tables;

pub use capability::{Cap, Kind};
pub use lookup::{count, find, name};
pub use name_order::by_name;
pub use tables::{CAPABILITY_COUNT, FLAG_COUNT, NUMBER_COUNT, TEXT_COUNT};
