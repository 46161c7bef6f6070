//! The frames of the Language Server Protocol, version 3.17 ("Base Protocol"): a header that announces
//! how long the body is, and the body.
//!
//! - `frames`: a body after its header, read and written
//! - `input`: bytes that are read in pieces and used one after another; `buffered` has what is held of
//!   a device, and `log` what reads brought
//! - `laws`: bytes are read as a frame in at most one way
#![tactic(auto)]

pub mod buffered;
pub mod frames;
pub mod input;
pub mod laws;
pub mod log;

pub use buffered::Buffered;
pub use frames::{
    Frame, FrameError, holds_frame, make_frame, read_frame, write_flushed, write_frame,
};
pub use input::{Held, Input};
