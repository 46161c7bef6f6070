//! The items of a block that speak of user-defined capabilities: names that are in none of the
//! tables, with a value or a cancel (user_caps(5), and tic(1) at `-x`).
//!
//! ```text
//! mine, am, Tc, Su@, kUP5=\E[1;5A, use=xterm,
//! ```
//!
//! Of this block, `user_items` gives `Tc` as a boolean, `Su` as cancelled, `kUP5` as a string, and
//! the use of `xterm`, each with its place and its line. `am` is a capability of the tables, and
//! so is left to `ti_source`.
//!
//! - `names`: which names are user-defined (`is_user_defined_name`)
//! - `reading`: the items of a block (`user_items`, which gives `UserItems`: each `UserItem` with
//!   its `UserWhat`, each `UserFault` with its `UserCode`); `verdicts`: what comes of one; `known`:
//!   those of a block that has been read (`known_user_items`)
//! - `laws`: each block has one reading, what is read is sound, and how it stands to the faults of
//!   the block
//!
//! An item of an unknown name that is not user-defined stays an unknown capability (W1).
#![tactic(auto)]

mod known;
pub mod laws;
mod names;
mod reading;
mod verdicts;

pub use known::{is_user_warning, known_user_items};
pub use names::is_user_defined_name;
pub use reading::{UserCode, UserFault, UserItem, UserItems, UserWhat, user_items};
