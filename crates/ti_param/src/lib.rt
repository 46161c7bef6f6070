//! The meaning of parameter strings, and their padding, as terminfo(5) has them under
//! "Parameterized Strings" and "Delays and Padding".
//!
//! - `values`: what is given to a parameter string, and the static variables.
//! - `expansion`: the bytes that a parameter string sends to the terminal; `output`: where they are;
//!   `errors`: why there are none.
//! - `machine`, `arithmetic`: the stack, the variables, and what each code does to them.
//!
//! The crate `ti_formats` reads a format, and has the grammar of its tree; `specs/Meaning.antt` says
//! what a tree does. The crate `ti_printing` has what a printf form prints, and padding. Its call for
//! padding is public here too.
#![tactic(auto)]

// What runs one code is marked `inline(always)`. By callgrind a format takes 2.9
// times the instructions if each code is read and run by calls.

mod arithmetic;
mod errors;
mod expansion;
mod machine;
mod output;
mod values;

pub use errors::ParamError;
pub use expansion::{expand, expand_output};
pub use output::Output;
pub use ti_printing::{Line, PadError, pad, pad_owned};
pub use values::{LETTERS, Statics, Value};
