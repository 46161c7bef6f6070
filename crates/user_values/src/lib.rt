//! The values of user-defined capabilities (user_caps(5)) of all blocks of a source, once their
//! uses are expanded.
//!
//! ```text
//! let mut tables = UserTables::of(alloc, &database)?;
//! while let Some(at) = tables.make_next()? {
//!     let table = tables.table(at);
//! }
//! ```
//!
//! Where the block at a position resolves, `table` is its `UserTable`: what the mention that decides
//! by the rule of the source, `ti_source::Rule`, says of each user-defined name, its kind too, or
//! that it is cancelled.
//!
//! - `limit`: how many user-defined names a source has (`count_names`) and may have (`NAME_LIMIT`);
//!   `names_found`: those that were found; `fault`: why it has no values (`ValuesError`)
//! - `table`: what a block says of each name (`UserTable`); `entries`: in entries that tables share
//!   (`UserEntry`)
//! - `graph`: which blocks use each other
//! - `values`: the table of one block; `walk`: the tables of all blocks (`UserTables`), each made
//!   after those of the blocks that it uses, and kept until the last block that uses it is made
//! - `laws`: by each rule, a block has values exactly where it resolves, and its table has them
#![tactic(auto)]

mod entries;
mod fault;
mod graph;
pub mod laws;
mod limit;
mod names_found;
mod table;
mod values;
mod walk;

pub use entries::UserEntry;
pub use fault::ValuesError;
pub use limit::{NAME_LIMIT, count_names};
pub use table::UserTable;
pub use walk::UserTables;
