//! A database that keeps what was found out about its blocks: of their user-defined capabilities
//! (user_caps(5)), so that after an edit only what depends on it is found out anew.
//!
//! ```text
//! let mut kept = KeptDatabase::of(alloc, database);
//! let found = kept.user_faults(alloc)?;
//! kept.replace(at, text)?;
//! let found = kept.user_faults(alloc)?;
//! let entry = kept.compiled(alloc, at)?;
//! ```
//!
//! - `database`: the database (`KeptDatabase`); `running`: the one that a list of edits makes (`run`)
//! - `kept`: what is kept of a source, and what remains of it after an edit
//! - `found`: what is found out about one block; `alone`: what that says of user-defined names,
//!   without the tables of other blocks; `entry`: what becomes of it, when it is asked for
//! - `leftmost`: how many user-defined names a source has that is read by the rule `Leftmost`
//! - `laws`: what an edit leaves of what was found out
#![tactic(auto)]

mod alone;
mod database;
mod entry;
mod found;
mod kept;
pub mod laws;
mod leftmost;
mod running;

pub use database::KeptDatabase;
pub use running::run;
