//! The program `ti-lsp`: a language server for terminfo source, over standard input and output.
//!
//! - `command`: what the words of the command line ask for
//! - `environment`: the names of the entries that are installed
//!
//! It is `serve` of `lsp_server` over `Terminfo` of `server_answers`. A command line is served exactly
//! if clap finds no error in it. Which entries are installed is read once, at the start; that it is
//! read right is only tested.
#![tactic(auto)]

mod command;
mod environment;

use crate::command::{Task, asked};
use crate::environment::installed_names;
use lsp_frames::{Buffered, FrameError};
use lsp_server::{Server, serve};
use server_answers::Terminfo;
use std::process::ExitCode;
use std::rt::{Env, Files};
use std::{env, io};
use tools_devices::Counted;

fn main(rt: HostRuntime) -> ExitCode {
    ExitCode::from(run(&rt))
}

// Does what the command line asks for. The answer is the status of the process.
fn run<R: Env + Files + Input + Print + Eprint + AllocGlobal + Clone + Drop>(rt: &R) -> u8 {
    let Ok(words) = words(rt) else {
        return 1;
    };
    match asked(rt.alloc(), words.as_slice()) {
        Ok(Task::Serve) => serve_input(rt),
        Ok(Task::Text(text)) => match rt.print(text.as_str()) {
            Ok(()) => 0,
            Err(_) => 1,
        },
        Ok(Task::Refusal(text)) => {
            let _ = rt.eprint(text.as_str());
            2
        }
        Err(_) => 1,
    }
}

// The words of the command line, the program's name first.
fn words<R: Env + AllocGlobal>(rt: &R) -> io::Result<Vec<String>> {
    Ok(env::args(rt)?.collect(rt.alloc())?)
}

// Replies to what comes on standard input. The answer is the status of the process: 1 at a fault.
fn serve_input<R: Env + Files + Input + Print + AllocGlobal + Clone + Drop>(rt: &R) -> u8 {
    match serve_buffered(rt) {
        Ok(status) => status,
        Err(_) => 1,
    }
}

// Replies to what comes on standard input, read in pieces. The names of installed entries are read
// once, before.
fn serve_buffered<R: Env + Files + Input + Print + AllocGlobal + Clone + Drop>(
    rt: &R,
) -> Result<u8, FrameError> {
    let installed = installed_names(rt)?;
    let mut server: Server<Terminfo> = Server::new(rt.alloc());
    let mut input = Buffered::new(rt.alloc(), rt.reader())?;
    let mut writer = Counted::new(io::writer(rt));
    serve(rt.alloc(), &installed, &mut server, &mut input, &mut writer)
}
