//! `ti tput`: writes what drives a terminal.
use crate::environment::{entry_places, own_terminal};
use crate::failure::Failure;
use crate::job_end::end_job;
use crate::stopping::message;
use std::io::{self, Write};
use std::rt::{Clock, Env, Files};
use ti_layout::View;
use tools_commands::Job;
use tools_devices::{Counted, ToolError, entry, locate};
use tools_disk::{DiskTree, ErrorStream};
use tools_tput::{tput, tput_lines};

/// Writes to standard output what the words ask of a terminal, or what each line of standard input
/// asks if `lines` is set, or says on standard error why it did not. The terminal is `term`, else
/// that of `TERM`; `rate` is the speed of its line in bits per second. Returns the status of the
/// process.
pub fn run<R: Clock + Env + Files + Input + Print + Eprint + AllocGlobal>(
    rt: &R,
    job: &Job,
    lines: bool,
    term: Option<&str>,
    rate: u32,
    words: &[String],
) -> u8 {
    let name = match terminal_name(rt, term) {
        Ok(name) => name,
        Err(failure) => return end_job(rt, job, "", failure, false),
    };
    let file = match entry_file(rt, name.as_str()) {
        Ok(file) => file,
        Err(failure) => return end_job(rt, job, name.as_str(), failure, false),
    };
    let view = match entry(file.as_slice()) {
        Ok(view) => view,
        Err(error) => return end_job(rt, job, name.as_str(), Failure::Tool(error), false),
    };
    let written = if lines {
        write_lines(rt, &view, rate)
    } else {
        write_command(rt, job, &view, rate, words)
    };
    match written {
        Ok(status) => status,
        Err(error) => end_job(rt, job, name.as_str(), Failure::Tool(error), true),
    }
}

// The name of the terminal: that of `-T`, else that of `TERM`.
fn terminal_name<R: Env + AllocGlobal>(rt: &R, term: Option<&str>) -> Result<String, Failure> {
    match term {
        Some(term) => Ok(String::from_str(rt.alloc(), term)?),
        None => own_terminal(rt),
    }
}

// The file of a terminal's entry.
fn entry_file<R: Clock + Env + Files + AllocGlobal>(
    rt: &R,
    name: &str,
) -> Result<Vec<u8>, Failure> {
    let places = entry_places(rt)?;
    let mut tree = DiskTree::new(rt);
    Ok(locate(rt.alloc(), &mut tree, name, places.as_slice())?)
}

// Writes what the lines of standard input ask for.
fn write_lines<R: Input + Print + AllocGlobal>(
    rt: &R,
    view: &View<'_>,
    rate: u32,
) -> Result<u8, ToolError> {
    let mut reader = Counted::new(rt.reader());
    let mut writer = Counted::new(io::writer(rt));
    tput_lines(rt.alloc(), view, rate, &mut reader, &mut writer)
}

// Writes what the words ask for.
fn write_command<R: Print + Eprint + AllocGlobal>(
    rt: &R,
    job: &Job,
    view: &View<'_>,
    rate: u32,
    words: &[String],
) -> Result<u8, ToolError> {
    let mut texts = Vec::new(rt.alloc());
    for word in words {
        if texts.push(word.as_bytes()).is_err() {
            return Err(ToolError::Memory);
        }
    }
    let outcome = tput(rt.alloc(), view, texts.as_slice(), rate)?;
    if io::writer(rt).write_all(outcome.bytes.as_slice()).is_err() {
        return Err(ToolError::WriteFault);
    }
    if outcome.status == 4 {
        if let Some(name) = words.first() {
            let mut stream = Counted::new(ErrorStream::new(rt));
            let _ = message(job, name.as_str(), None, &mut stream);
        }
    }
    Ok(outcome.status)
}
