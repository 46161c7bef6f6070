//! Places in a text, as the Language Server Protocol counts them: by lines and UTF-16 columns.
//!
//! - `position`: places in a text by lines and UTF-16 columns
//! - `splicing`: a text with a part of it exchanged
//! - `lines`: a line of a text, and laws of lines and columns
//! - `walking`: the places of offsets, one after another
//!
//! Only `spliced` takes memory.
#![tactic(auto)]

pub mod laws;
mod lines;
mod position;
mod splicing;
mod walking;

pub use lines::{first_of, indent, line_of, width};
pub use position::{offset_of, position_of};
pub use splicing::spliced;
pub use walking::PlaceWalk;
