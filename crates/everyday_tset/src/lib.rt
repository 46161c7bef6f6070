//! What tset(1) does, and reset, as it is called too: what its words ask for, which terminal there is, the
//! modes of the line, what is sent to the terminal and what is reported.
//!
//! ```text
//! let settings = read_words(alloc, words)?;                     // -m dialup>9600:vt100 -Q
//! let name = first_type(&settings, term, rate);                 // ?vt100: ask the user
//! let modes = found.sane().for_terminal(&view, &settings);      // without `sane` for tset
//! let bytes = strings(alloc, true, &view, last, file, &line)?;
//! let text = report_text(alloc, &view, &found, &modes)?;             // Erase set to delete.
//! ```
//!
//! - `settings`: what words ask for (`read_words`); `mappings`: from a type of port to one of terminal,
//!   by the rate of the line (`rates`)
//! - `terminal`: which terminal there is (`first_type`), and what the user is asked about it (`prompt`,
//!   `reply_to`)
//! - `modes`: the modes of the line (`Modes`); `report`: what is reported of its characters
//! - `sending`: what is sent to the terminal (`strings`); `windows`: the size of its window
//! - `shells`: commands that set `TERM` (`shell_commands`)
#![tactic(auto)]

mod mappings;
mod modes;
mod rates;
mod report;
mod sending;
mod settings;
mod shells;
mod terminal;
mod windows;

pub use mappings::{Mapping, MappingFault, Test, mapped};
pub use modes::Modes;
pub use report::report_text;
pub use sending::strings;
pub use settings::{Next, Settings, WordsError, read_words};
pub use shells::shell_commands;
pub use terminal::{Reply, first_type, prompt, question_of, reply_to};
pub use windows::Window;
