//! Where the everyday tools look for a terminal's entry, as ncurses on Debian does, and what they
//! find there.
//!
//! ```text
//! let environment = Environment { terminfo: None, home: Some("/home/me"), dirs: None };
//! let directories = entry_directories(alloc, &environment)?;
//! let found = find(alloc, &mut tree, "xterm", directories.as_slice())?;
//! let (view, extension) = read(found.bytes.as_slice())?;
//! ```
//!
//! - `environment`: the variables that say where entries are (`Environment`)
//! - `directories`: the directories in which an entry is looked for, in order (`entry_directories`)
//! - `outputs`: the directory into which entries are written (`named_output`, `unnamed_output`)
//! - `paths`: the files that may have the entry of a name, below directories named by a letter
//!   (`letter_paths`) and in hexadecimal (`hexadecimal_paths`)
//! - `finding`: the first of them that there is (`find`, which gives a `Found`)
//! - `reading`: the entry that its bytes are, with its user-defined capabilities (`read`)
//! - `laws`: each directory is listed once, a search without a failure finds the first file, by the
//!   letter if there is one, and what is user-defined changes nothing else of an entry
#![tactic(auto)]

mod directories;
mod environment;
mod finding;
pub mod laws;
mod outputs;
mod paths;
mod reading;

pub use directories::entry_directories;
pub use environment::Environment;
pub use finding::{Found, find};
pub use outputs::{SYSTEM_OUTPUT, named_output, unnamed_output};
pub use paths::{hexadecimal_paths, letter_paths};
pub use reading::read;
