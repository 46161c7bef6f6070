//! `ti tic`: compiles a source into files.
use crate::compiling::tic;
use crate::environment::own_directory;
use crate::failure::Failure;
use crate::outcome::TicOptions;
use std::rt::{Clock, Env, Files};
use std::str;
use tools_devices::{ToolError, TreeFault, place};
use tools_disk::{DiskTree, read_source};

/// Compiles the source in `file`, or on standard input, and writes the files below `dir`. Nothing
/// is written before the whole source is compiled. Returns the status of the process.
///
/// # Errors
/// Why it stopped. If a file could not be written, the report and earlier files stay.
pub fn run<R: Clock + Env + Files + Input + Eprint + AllocGlobal>(
    rt: &R,
    check: bool,
    dir: Option<&str>,
    file: Option<&str>,
) -> Result<u8, Failure> {
    let alloc = rt.alloc();
    let dir = directory(rt, check, dir)?;
    let source = read_source(rt, alloc, file)?;
    let outcome = tic(alloc, source.as_slice(), &TicOptions { check, dir })?;
    print_report(rt, outcome.report.as_slice())?;
    let mut tree = DiskTree::new(rt);
    match place(&mut tree, outcome.files.as_slice()) {
        Ok(()) => Ok(outcome.status),
        Err((_, TreeFault::Failed)) => Err(Failure::Tool(ToolError::WriteFault)),
        Err((_, TreeFault::Memory)) => Err(Failure::Tool(ToolError::Memory)),
    }
}

// The directory of `-o`, else the one that the environment names. Nothing is written for `-c`, so
// the environment is not read then.
fn directory<R: Env + AllocGlobal>(
    rt: &R,
    check: bool,
    dir: Option<&str>,
) -> Result<String, Failure> {
    if let Some(dir) = dir {
        return Ok(String::from_str(rt.alloc(), dir)?);
    }
    if check {
        return Ok(String::new(rt.alloc()));
    }
    own_directory(rt)
}

// Writes the report to standard error.
fn print_report<R: Eprint>(rt: &R, report: &[u8]) -> Result<(), Failure> {
    let Ok(text) = str::from_utf8(report) else {
        return Err(Failure::Tool(ToolError::WriteFault));
    };
    match eprint!(rt; "{text}") {
        Ok(()) => Ok(()),
        Err(_) => Err(Failure::Tool(ToolError::WriteFault)),
    }
}
