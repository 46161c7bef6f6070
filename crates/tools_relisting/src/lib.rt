//! The laws of compiling what was listed. They compute nothing: each is the contract of a function
//! whose code only calls other laws.
//!
//! - `layouts`: listings and relative sources are laid out as items.
//! - `reading_back`: what is laid out as a listing is one block, and is read as what it lists.
//! - `relisting`: a listing compiles to what was listed, and a relative source to its entry.
//! - `entries`: listings and relative sources of the compiled entries of any sources compile back,
//!   byte for byte.
//! - `runs`: the blocks that a run of edits inserts as listings compile back.
#![tactic(auto)]

mod entries;
mod layouts;
mod reading_back;
mod relisting;
mod runs;

pub use entries::{
    listings_compile_back, relative_sources_compile_back, several_listings_compile_back,
    sources_have_entries,
};
pub use layouts::listings_are_laid_out;
pub use reading_back::{parts_are_blocks, parts_are_read};
pub use relisting::{listings_compile, relatives_compile};
pub use runs::runs_of_listings_compile_back;
