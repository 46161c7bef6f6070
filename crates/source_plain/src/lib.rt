//! A source as other systems write it (as ncurses reads it): with a byte order mark in front, and
//! with lines that end in CR LF.
//!
//! - `reading`: a source without the mark and the CR of such lines, as every tool reads it (`plain`),
//!   and without one of both alone (`without_mark`, `without_returns`)
//! - `writing`: another text in the place of a source, with the mark and the line ends that the
//!   source has (`written_like`), or with the mark alone (`marked_like`)
//! - `laws`: sources of other systems are read as the plain ones, and what is written in the place
//!   of one is read as the text
#![tactic(auto)]

pub mod laws;
mod reading;
mod writing;

pub use reading::{plain, without_mark, without_returns};
pub use writing::{marked_like, written_like};
