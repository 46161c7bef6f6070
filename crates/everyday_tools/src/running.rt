//! What is asked for, by the name that the program is called by.
use crate::{fmt_tool, infocmp_tool, lint_tool, tic_tool, toe_tool};
use everyday_runtime::{Stop, end_tool, print_bytes};
use everyday_terminals::{clear_tool, tabs_tool, tput_tool, tset_tool};
use everyday_words::{Refusal, Request, Tool, called_tool, called_words, request};
use std::rt::{Clock, Env, Files};
use std::str::from_utf8;
use std::{env, io};
use tools_disk::read_whole;

/// Does what the command line asks for. Returns the status of the process.
pub fn run<R: Clock + Env + Files + Input + Print + Eprint + AllocGlobal + Clone + Drop>(
    rt: &R,
) -> u8 {
    let words = match words(rt) {
        Ok(words) => words,
        Err(stop) => return end_tool(rt, tool_called(rt), stop),
    };
    let Some((tool, words)) = called_words(words.as_slice()) else {
        return unknown_name(rt);
    };
    match request(rt.alloc(), tool, words) {
        Ok(request) => run_request(rt, &request),
        Err(refusal) => print_refusal(rt, tool, &refusal),
    }
}

// Does what is asked for. Returns the status of the process.
fn run_request<R: Clock + Env + Files + Input + Print + Eprint + AllocGlobal + Clone + Drop>(
    rt: &R,
    request: &Request,
) -> u8 {
    let (tool, done) = match request {
        Request::Tic(request) => (Tool::Tic, tic_tool::run(rt, request)),
        Request::Outputs(given) => (Tool::Tic, tic_tool::print_outputs(rt, given.as_deref())),
        Request::Infocmp(request) => (Tool::Infocmp, infocmp_tool::run(rt, request)),
        Request::Directories => (Tool::Infocmp, infocmp_tool::print_directories(rt)),
        Request::Tput(request) => (Tool::Tput, tput_tool::run(rt, request)),
        Request::Fmt(request) => (Tool::Fmt, fmt_tool::run(rt, request)),
        Request::Lint(request) => (Tool::Lint, lint_tool::run(rt, request)),
        Request::Clear(request) => (Tool::Clear, clear_tool::run(rt, request)),
        Request::Toe(request) => (Tool::Toe, toe_tool::run(rt, request)),
        Request::Tabs(request) => (Tool::Tabs, tabs_tool::run(rt, request)),
        Request::Tset(request) => (tset_tool::tool_of(request), tset_tool::run(rt, request)),
    };
    match done {
        Ok(status) => status,
        Err(stop) => end_tool(rt, tool, stop),
    }
}

// The words of the command line, the program's name first.
fn words<R: Env + AllocGlobal>(rt: &R) -> Result<Vec<String>, Stop> {
    match env::args(rt) {
        Ok(words) => match words.collect(rt.alloc()) {
            Ok(words) => Ok(words),
            Err(_) => Err(Stop::memory()),
        },
        Err(error) if error.kind() == io::ErrorKind::OutOfMemory => Err(Stop::memory()),
        Err(_) => Err(Stop::NotText("the command line")),
    }
}

// The tool that is called, if its words cannot be read as text: by the first word that names one, as
// the system holds them. If they cannot be had, it is the first tool.
fn tool_called<R: Files + Input + AllocGlobal>(rt: &R) -> Tool {
    let Ok(line) = read_whole(rt, rt.alloc(), Some("/proc/self/cmdline")) else {
        return Tool::Tic;
    };
    for word in line.split(|byte| *byte == 0).take(2) {
        if let Ok(text) = from_utf8(word)
            && let Some(tool) = called_tool(text)
        {
            return tool;
        }
    }
    Tool::Tic
}

// Says by which names the program is called. It is an error of usage.
fn unknown_name<R: Eprint>(rt: &R) -> u8 {
    let _ = rt.eprint(
        "ti-everyday: call it ti-tic, ti-infocmp, ti-tput, ti-clear, ti-toe, ti-tabs, ti-tset, ti-reset, ti-fmt or ti-lint, or give one of these names as the first word\n",
    );
    2
}

// Prints the text that the words ask for, or what is wrong with them. An error of usage has its status
// even if standard error takes nothing.
fn print_refusal<R: Print + Eprint + AllocGlobal>(rt: &R, tool: Tool, refusal: &Refusal) -> u8 {
    match refusal {
        Refusal::Memory => end_tool(rt, tool, Stop::memory()),
        Refusal::Usage(text) => {
            let _ = rt.eprint(text.as_str());
            tool.usage_status()
        }
        Refusal::Text(text) => match print_bytes(rt, text.as_bytes()) {
            Ok(()) => 0,
            Err(stop) => end_tool(rt, tool, stop),
        },
    }
}
