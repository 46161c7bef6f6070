//! The laws of compiling what was listed: the listing of a compiled entry compiles to the entry,
//! byte for byte, and so does its relative source, with the listings of the entries that it uses
//! after it. They compute nothing: each is the contract of a function whose code only calls other
//! laws.

pub use tools_relisting::{
    listings_are_laid_out, listings_compile, listings_compile_back, parts_are_blocks,
    parts_are_read, relative_sources_compile_back, relatives_compile,
    runs_of_listings_compile_back, several_listings_compile_back, sources_have_entries,
};
pub use tools_sources::laws::sources_have_one_refusal;
