//! `ti-tabs`: sets tab stops.
use crate::tput_tool::{entry_file, entry_of};
use everyday_entries::Tool;
use everyday_runtime::{Stop, Variables, is_terminal, print_bytes, say};
use everyday_starting::Unfit;
use everyday_tabs::{Settings, TabsError, TabsFault, WordsError, read_words, tabs};
use everyday_tput::column_count;
use everyday_words::{Refusal, TabsRequest, request};
use std::rt::{Clock, Env, Files};
use std::str::from_utf8;

// The terminal if `TERM` is not set.
const USUAL_TERMINAL: &str = "ansi+tabs";

/// Writes to standard output what sets the tab stops that the words ask for. Returns the status of the
/// process.
///
/// # Errors
/// Why it stopped.
pub fn run<R: Clock + Env + Files + Print + Eprint + AllocGlobal>(
    rt: &R,
    asked: &TabsRequest,
) -> Result<u8, Stop> {
    match read_words(rt.alloc(), asked.words.as_slice()) {
        Ok(settings) => set(rt, &settings),
        Err(WordsError::Version) => print_version(rt, Tool::Tabs),
        Err(WordsError::Unsupported(word)) => {
            say(
                rt,
                Tool::Tabs,
                &[b"bad usage: ", word, b" is not supported"],
            );
            Ok(1)
        }
        Err(WordsError::NoName) => {
            let text = b"bad usage: -T needs the name of a terminal".as_slice();
            say(rt, Tool::Tabs, &[text]);
            Ok(1)
        }
        Err(WordsError::Memory) => Err(Stop::memory()),
    }
}

/// Prints the version of a tool. Returns the status of the process.
///
/// # Errors
/// Why it stopped.
pub fn print_version<R: Print + AllocGlobal>(rt: &R, tool: Tool) -> Result<u8, Stop> {
    let mut words = Vec::new(rt.alloc());
    add(&mut words, String::from_str(rt.alloc(), tool.name())?)?;
    add(&mut words, String::from_str(rt.alloc(), "--version")?)?;
    if let Err(Refusal::Text(text)) = request(rt.alloc(), tool, words.as_slice()) {
        print_bytes(rt, text.as_bytes())?;
        return Ok(0);
    }
    Err(Stop::memory())
}

// Adds a word.
fn add(words: &mut Vec<String>, word: String) -> Result<(), Stop> {
    if words.push(word).is_err() {
        return Err(Stop::memory());
    }
    Ok(())
}

// The name of the terminal: that of `-T`, else that of `TERM`, even if it is empty.
fn terminal<R: AllocGlobal>(
    rt: &R,
    variables: &Variables,
    term: Option<&[u8]>,
) -> Result<String, Stop> {
    let Some(term) = term else {
        let name = variables.term()?.unwrap_or(USUAL_TERMINAL);
        return Ok(String::from_str(rt.alloc(), name)?);
    };
    match from_utf8(term) {
        Ok(term) => Ok(String::from_str(rt.alloc(), term)?),
        Err(_) => Err(Stop::NotText("the name of the terminal")),
    }
}

// Writes what sets the tab stops that are asked for.
fn set<R: Clock + Env + Files + Print + Eprint + AllocGlobal>(
    rt: &R,
    settings: &Settings<'_>,
) -> Result<u8, Stop> {
    let variables = Variables::read(rt)?;
    let name = terminal(rt, &variables, settings.term)?;
    let name = name.as_str();
    let file = entry_file(rt, &variables, name)?;
    let entry = entry_of(rt, &file, true, &[])?;
    let columns = column_count(false, &variables.columns(), &entry.view);
    let newline: &[u8] = if settings.sets && is_terminal(rt) {
        b"\r\n"
    } else {
        b"\n"
    };
    match tabs(rt.alloc(), &entry.view, columns, settings, newline) {
        Ok(done) => {
            if !done.in_order {
                let text = b"tab stops are not in increasing order: ".as_slice();
                say(rt, Tool::Tabs, &[text, settings.list()]);
            }
            print_bytes(rt, done.bytes.as_slice())?;
            Ok(0)
        }
        Err(TabsError::Fault(fault)) => refuse(rt, name, settings, fault),
        Err(TabsError::TooMuch) => {
            let text = b"\": a string cannot be written".as_slice();
            say(rt, Tool::Tabs, &[b"terminal \"", name.as_bytes(), text]);
            Ok(1)
        }
        Err(TabsError::Memory) => Err(Stop::memory()),
    }
}

// Says why no tab stops can be set. Returns the status of the process.
fn refuse<R: Eprint + AllocGlobal>(
    rt: &R,
    name: &str,
    settings: &Settings<'_>,
    fault: TabsFault,
) -> Result<u8, Stop> {
    let before = b"terminal \"".as_slice();
    let name_bytes = name.as_bytes();
    match fault {
        TabsFault::Unfit(why) => return Err(unfit(rt, name, why)?),
        TabsFault::NoClear => {
            let after = b"\" cannot clear tab stops".as_slice();
            say(rt, Tool::Tabs, &[before, name_bytes, after]);
        }
        TabsFault::NoSet => {
            let after = b"\" cannot set tab stops".as_slice();
            say(rt, Tool::Tabs, &[before, name_bytes, after]);
        }
        TabsFault::BadList => {
            let before = b"bad list of tab stops: ".as_slice();
            say(rt, Tool::Tabs, &[before, settings.list()]);
        }
        TabsFault::WideMargin => {
            let text = b"the margin leaves no column".as_slice();
            say(rt, Tool::Tabs, &[text]);
        }
    }
    Ok(1)
}

// That no program can draw on the terminal.
fn unfit<R: AllocGlobal>(rt: &R, name: &str, why: Unfit) -> Result<Stop, Stop> {
    Ok(Stop::Unfit(String::from_str(rt.alloc(), name)?, why))
}
