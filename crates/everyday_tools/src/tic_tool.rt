//! `ti-tic`: compiles a source into entries.
use everyday_entries::Failure;
use everyday_lint::{Capabilities, hint_lines};
use everyday_runtime::{Stop, Variables, print_bytes};
use everyday_tic::{TicOptions, TicStop};
use everyday_words::TicRequest;
use std::fs;
use std::io::{self, Write};
use std::rt::{Clock, Env, Files};
use tools_devices::{Counted, ToolError};
use tools_directories::{
    Environment, SYSTEM_OUTPUT, entry_directories, named_output, unnamed_output,
};
use tools_disk::{DiskTree, ErrorStream, read_whole, reason, takes_files};

// What is said of a directory for entries that takes no files.
const NO_PERMISSION: &str = "no permission";

// What standard input is called in the report.
const STANDARD_INPUT: &str = "<stdin>";

/// Compiles the source that is asked for. Returns the status of the process.
///
/// # Errors
/// Why it stopped. If a file could not be written, the report and earlier files stay.
pub fn run<R: Clock + Env + Files + Input + Eprint + AllocGlobal>(
    rt: &R,
    request: &TicRequest,
) -> Result<u8, Stop> {
    let variables = Variables::read(rt)?;
    let environment = variables.environment()?;
    let directories = entry_directories(rt.alloc(), &environment)?;
    let directory = output(rt, request, &environment)?;
    let source = source(rt, request.file.as_deref())?;
    let options = TicOptions {
        user_defined: request.user_defined,
        draws: request.draws,
        check: request.check,
        entries: request.only.as_deref().map(str::as_bytes),
        directory: directory.as_str(),
    };
    let mut tree = DiskTree::new(rt);
    let mut errors = Counted::new(ErrorStream::new(rt));
    let file = request.file.as_deref().unwrap_or(STANDARD_INPUT);
    match everyday_tic::run(
        rt.alloc(),
        &mut tree,
        &mut errors,
        directories.as_slice(),
        file,
        source.as_slice(),
        &options,
        request.summary,
    ) {
        Ok(status) => {
            show_hints(rt, request, file, source)?;
            Ok(status)
        }
        Err(stop) => Err(stop_of(rt, tree.last_error(), stop)?),
    }
}

/// Prints the directories into which entries may be written: the one that they go to, and the user's
/// own, each if files can be put there. Returns the status of the process.
///
/// # Errors
/// Why it stopped; that the first takes no files, after what is printed (tic(1)).
pub fn print_outputs<R: Clock + Env + Files + Print + AllocGlobal>(
    rt: &R,
    given: Option<&str>,
) -> Result<u8, Stop> {
    let variables = Variables::read(rt)?;
    let environment = variables.environment()?;
    let named = named_output(given, &environment);
    let own = unnamed_output(rt.alloc(), &environment, false)?;
    let first = named.unwrap_or(SYSTEM_OUTPUT);
    let takes_first = print_output(rt, first)?;
    let takes_own = own.as_str() == SYSTEM_OUTPUT || print_output(rt, own.as_str())?;
    let refused = if !takes_own && named.is_none() {
        own.as_str()
    } else if !takes_first {
        first
    } else {
        return Ok(0);
    };
    let path = String::from_str(rt.alloc(), refused)?;
    let reason = String::from_str(rt.alloc(), NO_PERMISSION)?;
    Err(Stop::Failed(Failure::Unwritable(path), reason))
}

// Prints a directory, if entries can be put there: it takes files, or it is missing and the one
// above it does.
fn print_output<R: Clock + Files + Print + AllocGlobal>(
    rt: &R,
    directory: &str,
) -> Result<bool, Stop> {
    let takes = takes_files(rt, directory)
        || (is_missing(rt, directory) && above_takes(rt, directory));
    if takes {
        let line = format!(in rt.alloc(); "{directory}\n")?;
        print_bytes(rt, line.as_bytes())?;
    }
    Ok(takes)
}

// Whether nothing has that path.
fn is_missing<R: Files + AllocGlobal>(rt: &R, path: &str) -> bool {
    fs::metadata(rt, path).is_err()
}

// Whether the directory above takes files.
fn above_takes<R: Clock + Files + AllocGlobal>(rt: &R, directory: &str) -> bool {
    match directory.rsplit_once('/') {
        Some((above, _)) => takes_files(rt, above),
        None => false,
    }
}

// Adds the hints on a source after its report, if it is only checked.
fn show_hints<R: Eprint + AllocGlobal>(
    rt: &R,
    request: &TicRequest,
    file: &str,
    source: Vec<u8>,
) -> Result<(), Stop> {
    if !request.check {
        return Ok(());
    }
    let capabilities = if request.user_defined {
        Capabilities::UserDefined
    } else {
        Capabilities::Profile
    };
    let lines = hint_lines(rt.alloc(), capabilities, file, source)?;
    let _ = ErrorStream::new(rt).write_all(lines.as_slice());
    Ok(())
}

// The directory for the entries. The system's is tried only if none is named, and there are files
// to write.
fn output<R: Clock + Files + AllocGlobal>(
    rt: &R,
    request: &TicRequest,
    environment: &Environment<'_>,
) -> Result<String, Stop> {
    if let Some(directory) = named_output(request.dir.as_deref(), environment) {
        return Ok(String::from_str(rt.alloc(), directory)?);
    }
    let is_writable = !request.check && takes_files(rt, SYSTEM_OUTPUT);
    Ok(unnamed_output(rt.alloc(), environment, is_writable)?)
}

/// The bytes of the file at `path`, or of standard input if there is none.
///
/// # Errors
/// That it cannot be read, with what the system says; out of memory.
pub fn source<R: Files + Input + AllocGlobal>(rt: &R, path: Option<&str>) -> Result<Vec<u8>, Stop> {
    match read_whole(rt, rt.alloc(), path) {
        Ok(source) => Ok(source),
        Err(error) if error.kind() == io::ErrorKind::OutOfMemory => Err(Stop::memory()),
        Err(error) => {
            let path = String::from_str(rt.alloc(), path.unwrap_or(STANDARD_INPUT))?;
            Err(Stop::Failed(Failure::Unreadable(path), reason(rt.alloc(), &error)?))
        }
    }
}

// Why the tool stops, with what the system says of it.
fn stop_of<R: AllocGlobal>(rt: &R, error: Option<&io::Error>, stop: TicStop) -> Result<Stop, Stop> {
    match (stop, error) {
        (TicStop::File(path), Some(error)) => {
            Ok(Stop::Failed(Failure::Unwritable(path), reason(rt.alloc(), error)?))
        }
        (TicStop::File(_) | TicStop::Report, _) => Ok(Stop::of(Failure::Stopped(
            ToolError::WriteFault,
        ))),
        (TicStop::Memory, _) => Ok(Stop::memory()),
    }
}
