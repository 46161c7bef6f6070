//! Compiled terminfo entries that are changed in place.
//!
//! - `image`: an entry's bytes, of which one capability is given another value without writing the
//!   rest anew; `changing` is a change of one capability, of whose kinds `flags`, `numbers` and
//!   `texts` each have one, and `patching` makes all that are wanted
//! - `header`: the header's six numbers in the bytes
//! - `bytes`: a part of bytes overwritten, made longer or shorter
//!
//! The crate `ti_layout` has values, the layout, the writer and the reader. Their calls are public
//! here too.
#![tactic(auto)]

mod bytes;
mod changing;
mod flags;
mod header;
mod image;
mod numbers;
mod patching;
mod texts;

pub use image::Image;
pub use ti_layout::{Mentions, ReadError, Table, Value, View, WriteError, write};
