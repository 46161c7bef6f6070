//! `ti-fmt`: gives sources their layout.
use crate::tic_tool::source;
use everyday_fmt::{FmtOptions, FmtOutcome, format_files, format_input};
use everyday_runtime::{Stop, print_bytes};
use everyday_words::FmtRequest;
use std::io::Write;
use std::rt::{Clock, Files};
use tools_disk::{DiskTree, ErrorStream};

/// Gives the sources that are asked for their layout, or says which of them have another. Returns
/// the status of the process.
///
/// # Errors
/// Why it stopped. Files that were written before stay as they are then.
pub fn run<R: Clock + Files + Input + Print + Eprint + AllocGlobal>(
    rt: &R,
    request: &FmtRequest,
) -> Result<u8, Stop> {
    let outcome = outcome(rt, request)?;
    let _ = ErrorStream::new(rt).write_all(outcome.errors.as_slice());
    print_bytes(rt, outcome.output.as_slice())?;
    Ok(outcome.status)
}

// What comes of the sources.
fn outcome<R: Clock + Files + Input + AllocGlobal>(
    rt: &R,
    request: &FmtRequest,
) -> Result<FmtOutcome, Stop> {
    let options = FmtOptions {
        check: request.check,
        width: request.width,
        keep: request.keep,
    };
    if request.files.is_empty() {
        let source = source(rt, None)?;
        return Ok(format_input(rt.alloc(), options, source.as_slice())?);
    }
    let mut tree = DiskTree::new(rt);
    Ok(format_files(rt.alloc(), &mut tree, options, request.files.as_slice())?)
}
