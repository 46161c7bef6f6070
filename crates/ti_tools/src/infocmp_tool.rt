//! `ti infocmp`: lists entries as source, or compares them.
use crate::environment::{entry_places, own_terminal};
use crate::failure::Failure;
use crate::job_end::end_job;
use crate::listings::{InfocmpOptions, infocmp};
use std::alloc::{AllocError, Global};
use std::io::{self, Write};
use std::rt::{Clock, Env, Files};
use ti_layout::View;
use tools_commands::{InfocmpMode, Job};
use tools_devices::{ToolError, entry, locate};
use tools_disk::DiskTree;

/// Prints what the options ask for on standard output, or says on standard error why it did not.
/// `names` are those of the terminals, or the one that `TERM` names if there is none. `first_dir`
/// is the only directory for the first of them, and `other_dir` the only one for the others. The
/// entries are read in the order of their names, and the first that cannot be read ends the run.
/// Returns the status of the process.
pub fn run<R: Clock + Env + Files + Print + Eprint + AllocGlobal>(
    rt: &R,
    job: &Job,
    names: &[String],
    first_dir: Option<&str>,
    other_dir: Option<&str>,
    options: &InfocmpOptions,
) -> u8 {
    if !names.is_empty() {
        return run_names(rt, job, names, first_dir, other_dir, options);
    }
    match own_names(rt, options.mode) {
        Ok(names) => run_names(rt, job, names.as_slice(), first_dir, other_dir, options),
        Err(failure) => end_job(rt, job, "", failure, false),
    }
}

// The terminal's own name, which `-n` takes for both of its names.
fn own_names<R: Env + AllocGlobal>(rt: &R, mode: InfocmpMode) -> Result<Vec<String>, Failure> {
    let name = own_terminal(rt)?;
    let count = if mode == InfocmpMode::Neither { 2 } else { 1 };
    Ok(copies(rt.alloc(), name.as_str(), count)?)
}

// A number of copies of a string.
fn copies(alloc: Global, text: &str, count: usize) -> Result<Vec<String>, AllocError> {
    let mut copies = Vec::new(alloc);
    for _ in 0..count {
        copies.push(String::from_str(alloc, text)?)?;
    }
    Ok(copies)
}

// Prints what the options ask for of the terminals with these names. There is at least one name.
fn run_names<R: Clock + Env + Files + Print + Eprint + AllocGlobal>(
    rt: &R,
    job: &Job,
    names: &[String],
    first_dir: Option<&str>,
    other_dir: Option<&str>,
    options: &InfocmpOptions,
) -> u8 {
    let mut files = Vec::new(rt.alloc());
    let read = read_files(rt, names, first_dir, other_dir, &mut files);
    let mut views = Vec::new(rt.alloc());
    for (file, name) in files.iter().zip(names) {
        let viewed = match entry(file.as_slice()) {
            Ok(view) => views.push(view).map_err(|_| ToolError::Memory),
            Err(error) => Err(error),
        };
        if let Err(error) = viewed {
            return end_job(rt, job, name.as_str(), Failure::Tool(error), false);
        }
    }
    if let Err(failure) = read {
        let name = names.get(files.len()).map_or("", |name| name.as_str());
        return end_job(rt, job, name, failure, false);
    }
    match print(rt, views.as_slice(), options) {
        Ok(()) => 0,
        Err(error) => end_job(rt, job, "", Failure::Tool(error), true),
    }
}

// Reads the files of these names, in order, up to the first that cannot be read.
fn read_files<R: Clock + Env + Files + AllocGlobal>(
    rt: &R,
    names: &[String],
    first_dir: Option<&str>,
    other_dir: Option<&str>,
    files: &mut Vec<Vec<u8>>,
) -> Result<(), Failure> {
    let mut of_environment = None;
    let mut only = first_dir;
    for name in names {
        let file = entry_file(rt, name.as_str(), only, &mut of_environment)?;
        if files.push(file).is_err() {
            return Err(Failure::Tool(ToolError::Memory));
        }
        only = other_dir;
    }
    Ok(())
}

// The file of a terminal's entry, in the only directory for it if there is one, else in those of
// the environment, which are read from it once a run.
fn entry_file<R: Clock + Env + Files + AllocGlobal>(
    rt: &R,
    name: &str,
    only: Option<&str>,
    of_environment: &mut Option<Vec<String>>,
) -> Result<Vec<u8>, Failure> {
    let alloc = rt.alloc();
    let mut tree = DiskTree::new(rt);
    if let Some(dir) = only {
        let dirs = copies(alloc, dir, 1)?;
        return Ok(locate(alloc, &mut tree, name, dirs.as_slice())?);
    }
    let dirs = match of_environment.take() {
        Some(dirs) => dirs,
        None => entry_places(rt)?,
    };
    let file = locate(alloc, &mut tree, name, dirs.as_slice());
    *of_environment = Some(dirs);
    Ok(file?)
}

// Prints what the options ask for of these entries.
fn print<R: Print + AllocGlobal>(
    rt: &R,
    views: &[View<'_>],
    options: &InfocmpOptions,
) -> Result<(), ToolError> {
    let text = infocmp(rt.alloc(), views, options)?;
    match io::writer(rt).write_all(text.as_slice()) {
        Ok(()) => Ok(()),
        Err(_) => Err(ToolError::WriteFault),
    }
}
