//! Writing what comes of a source.
ghost use Rattle.std.specs.Prelude.{◌≡◌, IfOk, map};
ghost use Rattle.std.specs.String.{string_bytes};
ghost use Rattle.tools_devices.specs.Counted.{observation};
ghost use Rattle.tools_devices.specs.Placing.{entries};
ghost use Rattle.everyday_tic.specs.Outcomes.{asked_of, made_of};
ghost use Rattle.everyday_tic.specs.Writing as spec;
ghost use Rattle.everyday_tic.specs.Writing.{Runs, WritesOut, summary_if};
ghost use Rattle.everyday_tic.specs.inside.Stops.{Filed, IsPathAt, Said, SaidIfMade};

use crate::compiling::tic;
use crate::options::{TicOptions, TicOutcome};
use everyday_report::append_parts;
use std::alloc::{AllocError, Global};
use std::fmt::Write as Format;
use std::io::Write;
use thiserror::Error;
use tools_devices::{Counted, File, Tree, TreeFault, place, write_out};

/// Why `ti-tic` stops before its work is done.
#[derive(Debug, PartialEq, Eq, Drop, Error)]
pub enum TicStop {
    /// Standard error could not be written.
    #[error("standard error could not be written")]
    Report,
    /// The file of this path could not be written; those before it were.
    #[error("{0}")]
    File(String),
    /// A growth of memory was refused.
    #[error("out of memory")]
    Memory,
}

/// Says how many entries were written: the line of `-s`.
///
/// # Errors
/// Out of memory.
pub fn summary(alloc: Global, entries: usize, directory: &str) -> Result<Vec<u8>, AllocError>
    ensures { IfOk result (λ line. line.items ≡ spec.summary entries directory.now) }
{
    let digits = entries.to_string(alloc)?;
    let mut line = Vec::new(alloc);
    append_parts(
        &mut line,
        &[
            digits.as_bytes(),
            b" entries written to ",
            directory.as_bytes(),
            b"\n",
        ],
    )?;
    Ok(line)
}

// Writes bytes to standard error.
fn say<W: Write>(errors: &mut Counted<W>, bytes: &[u8]) -> Result<(), TicStop>
    ensures { Said (observation W.contents errors.old) (observation W.contents errors.new) bytes.now result }
{
    match write_out(errors, bytes) {
        Ok(()) => Ok(()),
        Err(_) => Err(TicStop::Report),
    }
}

// The line of `-s` to standard error, if it is asked for.
fn say_summary<W: Write>(
    alloc: Global,
    errors: &mut Counted<W>,
    entries: usize,
    directory: &str,
    summarizes: bool,
) -> Result<(), TicStop>
    ensures { SaidIfMade (observation W.contents errors.old) (observation W.contents errors.new) (summary_if summarizes entries directory.now) result }
{
    if !summarizes {
        return say(errors, b"");
    }
    match summary(alloc, entries, directory) {
        Ok(line) => say(errors, line.as_slice()),
        Err(_) => Err(TicStop::Memory),
    }
}

// The stop at the file of an index.
fn stop_at(alloc: Global, files: &[File], at: usize) -> TicStop
    ensures { IsPathAt (entries files.now) at result }
{
    match files.get(at) {
        Some(file) => match String::from_str(alloc, file.path.as_str()) {
            Ok(path) => TicStop::File(path),
            Err(_) => TicStop::Memory,
        },
        None => TicStop::Memory,
    }
}

// Writes the files.
fn write_files<T: Tree>(alloc: Global, tree: &mut T, files: &[File]) -> Result<(), TicStop>
    ensures { Filed (entries files.now) (T.files tree.old) (T.files tree.new) result }
{
    match place(tree, files) {
        Ok(()) => Ok(()),
        Err((at, TreeFault::Failed)) => Err(stop_at(alloc, files, at)),
        Err((_, TreeFault::Memory)) => Err(TicStop::Memory),
    }
}

/// Writes what comes of a source: what is said to standard error, the files, and with `summarizes`,
/// the option `-s`, how many entries they are of. Returns the status.
///
/// # Errors
/// Where it stops: `Report` if standard error fails; `File` at the first file that could not be
/// written; `Memory`. What was written before stays.
pub fn write<T: Tree, W: Write>(
    alloc: Global,
    tree: &mut T,
    errors: &mut Counted<W>,
    outcome: &TicOutcome,
    directory: &str,
    summarizes: bool,
) -> Result<u8, TicStop>
    ensures { WritesOut summarizes directory.now (made_of outcome.now) (T.files tree.old) (T.files tree.new)
        (observation W.contents errors.old) (observation W.contents errors.new) result }
{
    say(errors, outcome.report.as_slice())?;
    write_files(alloc, tree, outcome.files.as_slice())?;
    say_summary(alloc, errors, outcome.entries, directory, summarizes)?;
    Ok(outcome.status)
}

/// Compiles a source by [`tic`] and writes what comes of it by [`write`]. Nothing is written before
/// all of the source was read, and nothing is said about entries if it is only checked. Returns the
/// status.
///
/// # Errors
/// As [`write`]; `Memory` also if nothing was compiled, and then nothing is written.
pub fn run<T: Tree, W: Write>(
    alloc: Global,
    tree: &mut T,
    errors: &mut Counted<W>,
    directories: &[String],
    file: &str,
    source: &[u8],
    options: &TicOptions<'_>,
    summarizes: bool,
) -> Result<u8, TicStop>
    ensures { Runs (asked_of options.now) summarizes (map string_bytes directories.now) file.now source.now (T.files tree.old) (T.files tree.new)
        (T.failures tree.old) (observation W.contents errors.old) (observation W.contents errors.new) result }
{
    match tic(alloc, tree, directories, file, source, options) {
        Ok(outcome) => {
            let says_summary = summarizes && !options.check;
            write(
                alloc,
                tree,
                errors,
                &outcome,
                options.directory,
                says_summary,
            )
        }
        Err(_) => Err(TicStop::Memory),
    }
}
