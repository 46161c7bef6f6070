//! Worked rows of the libraries. CONTRIBUTING, "Add a test", says how a row is written, and
//! `data/README.md` which file has the rows of which library.
#![tactic(auto)]

use std::alloc::{AllocError, Global};
use std::io;
use std::process::ExitCode;
use test_database::DatabaseCalls;
use test_entries::EntryCalls;
use test_rows::{Calls, Row, RowResult, run};
use test_sources::SourceCalls;

// What is kept from row to row of a file.
#[derive(Drop)]
struct AllCalls {
    entries: EntryCalls,
    database: DatabaseCalls,
    sources: SourceCalls,
}

impl Calls for AllCalls {
    fn new(alloc: Global) -> Result<AllCalls, AllocError> {
        Ok(AllCalls {
            entries: EntryCalls::new(alloc)?,
            database: DatabaseCalls::new(alloc)?,
            sources: SourceCalls::new(alloc)?,
        })
    }

    fn call(&mut self, group: &str, name: &str, row: &mut Row<'_>) -> RowResult {
        match group {
            "base" | "graph" | "slots" | "items" | "user" | "kept" => {
                self.database.call(group, name, row)
            }
            "forms" | "hints" | "loading" | "places" | "plain" | "spans" | "tree" => {
                self.sources.call(group, name, row)
            }
            _ => self.entries.call(group, name, row),
        }
    }
}

fn main(rt: HostRuntime) -> io::Result<ExitCode> {
    run::<AllCalls, HostRuntime>(&rt)
}
