//! The laws of reading listings back, with user-defined capabilities. They compute nothing: each is
//! the contract of a function whose code only calls other laws.
//!
//! - `reading_back`: what is laid out as a listing is read as the user-defined items that it lists,
//!   and so are the listings and the relative sources of entries
//!
//! They speak of names fields that can be listed, of values of the tables that a source can give,
//! and of user-defined names whose values can be written.
#![tactic(auto)]

mod reading_back;

pub use reading_back::{
    items_are_blocks, items_are_read, items_are_read_by_the_profile, listings_are_read,
    listings_compile_by_the_profile, listings_say_the_entry, read_entries_have_listings,
    relatives_are_read, relatives_say_the_entry, relatives_say_the_entry_in_a_source,
    users_have_the_entry,
};
