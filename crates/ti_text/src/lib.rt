//! What every layer shares: lines, digits, limits, white space, and growth into room made before.
//!
//! - `specs/`: `Ascii` names the bytes that terminfo gives a meaning, `Texts` says what is known of
//!   a text by its bytes alone, `Lists` properties of lists of any kind, `Digits` what decimal
//!   digits write, and `Limits` what the limits of the product are.
//! - `limits`: the limits, for the code
//! - `lines`: counts lines; `laws`: the lines of joined texts
//! - `room`: growth of a vector into room that was made before
//! - `white_space`: the white space of the source format
#![tactic(auto)]

pub mod laws;
pub mod limits;
mod lines;
pub mod room;
mod white_space;

pub use lines::count_lines;
pub use white_space::is_white_space;
