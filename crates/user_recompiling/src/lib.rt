//! The laws of recompiling with user-defined capabilities. They compute nothing: each is the
//! contract of a function whose code only calls other laws.
//!
//! - `entries`: listings and relative sources of the compiled entries of any sources compile back by
//!   `-x`, byte for byte
//!
//! They speak of the entry that `-x` makes of any block of any source whose blocks are single, by
//! whatever rule it is read. The listing may be compiled by that rule or by another.
//! `compile` of `user_compiling` refuses a source of more than 1,024 distinct user-defined names,
//! which the listings of several entries together may be, and then makes nothing of it.
#![tactic(auto)]

mod entries;

pub use entries::{
    listings_compile_back, relative_sources_compile_back, several_listings_compile_back,
    shown_entries_come_back, sources_have_entries,
};
