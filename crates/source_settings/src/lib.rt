//! What an author settles, and what is published of a source by it: what `ti-lint` prints. It is
//! settled in a file `.ti-lint.toml` beside a source or above it, and in comments
//! `# ti-lint: allow N3` before a block.
//!
//! ```text
//! names = ["Mine"]        # user-defined names of the author's own
//!
//! [severity]
//! N3 = "off"
//!
//! [layout]
//! width = 60
//! ```
//!
//! - `levels`: how grave something is told (`Level`), and which codes this may be settled for
//! - `settings`: what is settled (`Settings`)
//! - `refusals`: what is wrong with a file (`Refusal`), and the sentence that says it
//! - `tables`: a table of TOML, and the texts in an array
//! - `reading`: what a file settles (`read_settings`)
//! - `finding`: the nearest file of a source (`settle`)
//! - `comments`: what a comment line allows; `walking`: what comments allow, line by line
//! - `allowances`: what the comments of a text allow on its lines (`Allowances`)
//! - `own`: the hints on names that are the author's own
//! - `published`: which remarks are published, and how grave each is told (`published_of`)
//! - `laws`: errors stay, nothing is taken out but what is settled so, and without settings all is
//!   published
#![tactic(auto)]

mod allowances;
mod comments;
mod finding;
pub mod laws;
mod levels;
mod own;
mod published;
mod reading;
mod refusals;
mod settings;
mod tables;
mod walking;

pub use allowances::Allowances;
pub use finding::{SETTINGS_FILE, Settled, settle};
pub use levels::{Level, is_settled_code};
pub use published::{Published, as_they_are, published_of};
pub use reading::read_settings;
pub use refusals::{Refusal, SettingsFault};
pub use settings::{Change, Settings};
