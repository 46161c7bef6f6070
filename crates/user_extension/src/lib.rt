//! User-defined capabilities in a compiled entry ("Extended storage format" of term(5)): they
//! stand after the entry, with a header, sections and a table of texts of their own.
//!
//! ```text
//! let defined = [UserDefined { name: b"Tc", value: Content::True }];
//! let entry = write(alloc, b"mine", &table, &defined)?;
//! let (view, extension) = read(&entry)?;
//! extension.flag(b"Tc")
//! ```
//!
//! - `user_defined`: a user-defined capability (`UserDefined`), a name and what it has
//! - `writing`: an entry with user-defined capabilities (`write`)
//! - `reading`: such an entry, read in place (`read`, which gives a `View` and an `Extension`);
//!   `fault`: why bytes are none (`ExtensionError`)
//! - `view`: what an extension shows (`Extension`): its rows, and the value of a name;
//!   `extension_parts`: its sections, for who holds them in another struct (`ExtensionParts`)
//! - `checks`: its sections, cut by its header and looked through; `keys`: names as numbers;
//!   `texts`: texts ended by a NUL
//! - `laws`: what is written is read again, and no string that is read holds a NUL
//!
//! Nothing here takes memory but `write`.
#![tactic(auto)]

mod checks;
mod extension_parts;
mod fault;
mod keys;
pub mod laws;
mod reading;
mod texts;
mod user_defined;
mod view;
mod writing;

pub use extension_parts::ExtensionParts;
pub use fault::ExtensionError;
pub use reading::read;
pub use user_defined::UserDefined;
pub use view::Extension;
pub use writing::write;
