//! Worked rows of the libraries that editors and commands share: parts and places of sources, hints,
//! documents, what is told, and files. Each module is named after the group of its calls.
#![tactic(auto)]

mod forms;
mod hints;
mod loading;
mod places;
mod plain;
mod spans;
mod tree;

use std::alloc::{AllocError, Global};
use test_rows::{Calls, NO_CALL, Row, RowResult};
use tools_devices::MemTree;

// What is kept from row to row of a file: the files of `tree.place`.
#[derive(Drop)]
pub struct SourceCalls {
    tree: MemTree,
}

impl Calls for SourceCalls {
    fn new(alloc: Global) -> Result<SourceCalls, AllocError> {
        let tree = MemTree::new(alloc);
        Ok(SourceCalls { tree })
    }

    fn call(&mut self, group: &str, name: &str, row: &mut Row<'_>) -> RowResult {
        match group {
            "forms" => forms::call(name, row),
            "hints" => hints::call(name, row),
            "loading" => loading::call(name, row),
            "places" => places::call(name, row),
            "plain" => plain::call(name, row),
            "spans" => spans::call(name, row),
            "tree" => tree::call(&mut self.tree, name, row),
            _ => Err(NO_CALL),
        }
    }
}
