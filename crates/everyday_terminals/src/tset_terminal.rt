//! Which terminal `ti-tset` and `ti-reset` set up: the user is asked until there is an entry.
use crate::tput_tool::entry_of;
use everyday_entries::{Failure, Found, Tool, line, named_file};
use everyday_runtime::{Stop, Variables, say};
use everyday_starting::{Unfit, why_unfit};
use everyday_tset::{Reply, prompt, question_of, reply_to};
use std::io::{Read, Write};
use std::rt::{Clock, Env, Files};
use std::str::from_utf8;
use tools_disk::{DiskTree, ErrorStream};

// An answer is cut after so many bytes, as in ncurses.
const ANSWER_MAX: usize = 255;

// A name with more bytes is not looked for.
const NAME_MAX: usize = 512;

/// A terminal whose entry was found.
#[derive(Drop)]
pub struct Terminal {
    /// Its name.
    pub name: Vec<u8>,
    /// The file of its entry.
    pub file: Found,
}

// What looking for a terminal gave.
#[derive(Drop)]
enum Looked {
    // Its entry.
    Found(Found),
    // There is none.
    Unknown,
    // It cannot be used; the code of curs_terminfo(3X).
    Unfit(&'static str),
    // Its entry cannot be read, which was said.
    Said,
}

/// The terminal of a name, or the one that the user names in answer; `None` if no answer comes.
///
/// # Errors
/// Why it stopped.
pub fn choose_terminal<R: Clock + Env + Files + Input + Eprint + AllocGlobal>(
    rt: &R,
    tool: Tool,
    variables: &Variables,
    first: &[u8],
) -> Result<Option<Terminal>, Stop> {
    let mut input = rt.reader();
    let mut name = Vec::from_slice(rt.alloc(), first)?;
    if let Some(offered) = question_of(first) {
        match asked(rt, &mut input, offered)? {
            Some(answer) => name = answer,
            None => return Ok(None),
        }
    }
    for _asked in 0..u64::MAX {
        match look_up(rt, tool, variables, name.as_slice())? {
            Looked::Found(file) => return Ok(Some(Terminal { name, file })),
            Looked::Said => {}
            Looked::Unknown => say(rt, tool, &[b"unknown terminal type ", name.as_slice()]),
            Looked::Unfit(code) => {
                let before = b"can't initialize terminal type ".as_slice();
                let code = code.as_bytes();
                say(
                    rt,
                    tool,
                    &[before, name.as_slice(), b" (error ", code, b")"],
                );
            }
        }
        match asked(rt, &mut input, b"")? {
            Some(answer) => name = answer,
            None => return Ok(None),
        }
    }
    Ok(None)
}

// What looking for a terminal gives.
fn look_up<R: Clock + Env + Files + Eprint + AllocGlobal>(
    rt: &R,
    tool: Tool,
    variables: &Variables,
    name: &[u8],
) -> Result<Looked, Stop> {
    if NAME_MAX < name.len() {
        return Ok(Looked::Unfit("-1"));
    }
    let Ok(name) = from_utf8(name) else {
        return Ok(Looked::Unknown);
    };
    let directories = variables.directories(rt.alloc())?;
    let mut tree = DiskTree::new(rt);
    match named_file(rt.alloc(), &mut tree, name, directories.as_slice()) {
        Ok(file) => fitting(rt, tool, file),
        Err(Failure::Unknown(_)) => Ok(Looked::Unknown),
        Err(failure) => Err(Stop::of(failure)),
    }
}

// The same of the file of an entry.
fn fitting<R: Eprint + AllocGlobal>(rt: &R, tool: Tool, file: Found) -> Result<Looked, Stop> {
    let unfit = match entry_of(rt, &file, true, &[]) {
        Ok(entry) => why_unfit(&entry.view),
        Err(Stop::Plain(failure)) => {
            let text = line(rt.alloc(), tool, &failure, "")?;
            let _ = rt.eprint(text.as_str());
            return Ok(Looked::Said);
        }
        Err(stop) => return Err(stop),
    };
    match unfit {
        None => Ok(Looked::Found(file)),
        Some(Unfit::Generic) => Ok(Looked::Unknown),
        Some(_) => Ok(Looked::Unfit("1")),
    }
}

// The type of terminal that the user names; `None` if no answer comes.
fn asked<R: Eprint + AllocGlobal, I: Read>(
    rt: &R,
    input: &mut I,
    offered: &[u8],
) -> Result<Option<Vec<u8>>, Stop> {
    let question = prompt(rt.alloc(), offered)?;
    for _asked in 0..u64::MAX {
        let _ = ErrorStream::new(rt).write_all(question.as_slice());
        let answer = answer(rt, input)?;
        match reply_to(offered, answer.as_deref()) {
            Reply::Named(name) => return Ok(Some(Vec::from_slice(rt.alloc(), name)?)),
            Reply::Again => {}
            Reply::Ended => return Ok(None),
        }
    }
    Ok(None)
}

// A line of an input; `None` at its end.
fn answer<R: AllocGlobal, I: Read>(rt: &R, input: &mut I) -> Result<Option<Vec<u8>>, Stop> {
    let mut line = Vec::new(rt.alloc());
    let mut byte = [0];
    for _read in 0..ANSWER_MAX {
        match input.read(&mut byte) {
            Ok(1) if byte[0] == b'\n' => return Ok(Some(line)),
            Ok(1) => push(&mut line, byte[0])?,
            _ if line.is_empty() => return Ok(None),
            _ => break,
        }
    }
    Ok(Some(line))
}

// Adds a byte.
fn push(line: &mut Vec<u8>, byte: u8) -> Result<(), Stop> {
    if line.push(byte).is_err() {
        return Err(Stop::memory());
    }
    Ok(())
}
