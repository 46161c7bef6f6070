//! Tab stops, as tabs(1) sets them: what its words ask for, which stops a list says, and the bytes that
//! set them.
//!
//! ```text
//! let settings = read_words(alloc, words)?;                      // -T xterm +m5 1,9,+8
//! let done = tabs(alloc, &view, columns, &settings, b"\n")?;
//! ```
//!
//! - `words`: what a word or an option means, of which a word may have several (`options`); `settings`:
//!   what words ask for, one after another (`read_words`)
//! - `lists`: lists of stops as they are written; `stops`: the stops that a list says
//! - `margins`: how a margin is set; `setting`: the bytes that set the stops (`tabs`)
//! - `ruler`: the ruler that `-d` asks for
#![tactic(auto)]

mod lists;
mod margins;
mod options;
mod ruler;
mod setting;
mod settings;
mod stops;
mod words;

pub use setting::{Tabbed, TabsError, TabsFault, tabs};
pub use settings::{Next, Settings, WordsError, read_words};
