//! The tools of `ti` over real files, streams and the environment.
use crate::failure::Failure;
use crate::job_end::end_job;
use crate::listings::InfocmpOptions;
use crate::{infocmp_tool, session_tool, tic_tool, tput_tool};
use std::rt::{Clock, Env, Files};
use std::{env, io};
use tools_commands::{Job, PROGRAM, Refusal, job_or_refusal};
use tools_devices::ToolError;

/// Does what the command line asks for. Returns the status of the process.
pub fn run<R: Clock + Env + Files + Input + Print + Eprint + AllocGlobal>(rt: &R) -> u8 {
    let words = match words(rt) {
        Ok(words) => words,
        Err(failure) => return print_failure(rt, PROGRAM, failure),
    };
    match job_or_refusal(rt.alloc(), words.as_slice()) {
        Ok(job) => run_job(rt, &job),
        Err(refusal) => print_refusal(rt, &refusal),
    }
}

// Does a job. Returns the status of the process.
fn run_job<R: Clock + Env + Files + Input + Print + Eprint + AllocGlobal>(rt: &R, job: &Job) -> u8 {
    match job {
        Job::Tic { check, dir, file } => {
            match tic_tool::run(rt, *check, dir.as_deref(), file.as_deref()) {
                Ok(status) => status,
                Err(failure) => end_job(rt, job, "", failure, false),
            }
        }
        Job::Tput {
            lines,
            term,
            rate,
            words,
        } => { tput_tool::run(rt, job, *lines, term.as_deref(), *rate, words.as_slice()) }
        Job::Infocmp {
            mode,
            names,
            layout,
            first_dir,
            other_dir,
        } => {
            let options = InfocmpOptions {
                mode: *mode,
                layout: *layout,
            };
            infocmp_tool::run(
                rt,
                job,
                names.as_slice(),
                first_dir.as_deref(),
                other_dir.as_deref(),
                &options,
            )
        }
        Job::Session => match session_tool::run(rt) {
            Ok(()) => 0,
            Err(error) => end_job(rt, job, "", Failure::Tool(error), false),
        },
    }
}

// The words of the command line, the program's name first.
fn words<R: Env + AllocGlobal>(rt: &R) -> Result<Vec<String>, Failure> {
    match env::args(rt) {
        Ok(words) => match words.collect(rt.alloc()) {
            Ok(words) => Ok(words),
            Err(_) => Err(Failure::Tool(ToolError::Memory)),
        },
        Err(error) if error.kind() == io::ErrorKind::OutOfMemory => {
            Err(Failure::Tool(ToolError::Memory))
        }
        Err(_) => Err(Failure::NotText("the command line")),
    }
}

// Says in one line why a tool stopped. The status is the same if standard error takes nothing.
fn print_failure<R: Eprint>(rt: &R, tool: &str, failure: Failure) -> u8 {
    let status = failure.status();
    let _ = eprintln!(rt; "{tool}: {failure}");
    status
}

// Prints the help that the words ask for, or what is wrong with them. An error of usage has status
// 2, even if standard error takes nothing.
fn print_refusal<R: Print + Eprint>(rt: &R, refusal: &Refusal) -> u8 {
    match refusal {
        Refusal::Memory => print_failure(rt, PROGRAM, Failure::Tool(ToolError::Memory)),
        Refusal::Usage(text) => {
            let _ = rt.eprint(text.as_str());
            2
        }
        Refusal::Help(text) => match rt.print(text.as_str()) {
            Ok(()) => 0,
            Err(_) => print_failure(rt, PROGRAM, Failure::Tool(ToolError::WriteFault)),
        },
    }
}
