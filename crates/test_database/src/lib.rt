//! Worked rows of the libraries that hold the blocks of a source and expand their uses, with
//! user-defined capabilities and without. Each module is named after the group of its calls.
#![tactic(auto)]

mod base;
mod edits;
mod graph;
mod items;
mod kept;
mod slots;
mod user;

use base_slots::Slots;
use std::alloc::{AllocError, Global};
use test_rows::{Calls, NO_CALL, Row, RowResult};
use ti_base::Database;
use user_kept::KeptDatabase;

// What is kept from row to row of a file.
#[derive(Drop)]
pub struct DatabaseCalls {
    // The database of `base.edit`.
    base: Database,
    // The list of `slots.new`.
    slots: Slots,
    // The blocks of `user.source`.
    kept: KeptDatabase,
}

impl Calls for DatabaseCalls {
    fn new(alloc: Global) -> Result<DatabaseCalls, AllocError> {
        Ok(DatabaseCalls {
            base: Database::new(alloc),
            slots: Slots::new(alloc),
            kept: KeptDatabase::new(alloc),
        })
    }

    fn call(&mut self, group: &str, name: &str, row: &mut Row<'_>) -> RowResult {
        match group {
            "base" => base::call(&mut self.base, name, row),
            "graph" => graph::call(name, row),
            "slots" => slots::call(&mut self.slots, name, row),
            "items" => items::call(name, row),
            "user" => user::call(&mut self.kept, name, row),
            "kept" => kept::call(&mut self.kept, name, row),
            _ => Err(NO_CALL),
        }
    }
}
