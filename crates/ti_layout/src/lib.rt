//! The layout of compiled entries, by term(5): tables of values, written and read.
//!
//! - `values`: the values of an entry, a finite map from capabilities
//! - `merging`: two such maps made one; the first decides
//! - `mentions`: such a map made of mentions of capabilities, of which the first of each decides
//! - `layout`: the two formats, and numbers as bytes
//! - `header`: the format and the sizes with which an entry begins, and where each section begins
//! - `writing`: an entry written from its names and values
//! - `view`: an entry read where it is; each name and value is a slice of the caller's bytes
//! - `view_parts`: such an entry as its sections, for a caller that holds it in another struct
//! - `sections`: the sections of an entry, cut by its header and each looked through once
//! - `fault`: why bytes are not an entry
//! - `laws`: the definitions of reading determine one answer, and what is written is read again
#![tactic(auto)]

mod fault;
mod header;
pub mod laws;
mod layout;
mod mentions;
mod merging;
mod sections;
mod values;
mod view;
mod view_parts;
mod writing;

pub use fault::ReadError;
pub use header::{HEADER_SIZE, Header};
pub use layout::{ABSENT_BYTE, ABSENT_NUMBER, ABSENT_WORD, Format, number, word, word_bytes};
pub use mentions::Mentions;
pub use sections::{are_flags, are_numbers, are_offsets};
pub use values::{Content, Table, Value};
pub use view::View;
pub use view_parts::ViewParts;
pub use writing::{WriteError, format_wanted, header_in, push_fill, push_number, write, write_in};
