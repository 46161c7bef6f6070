//! `ti-tset` and `ti-reset`: set a terminal up, and reset it.
use crate::tabs_tool::print_version;
use crate::tput_tool::{entry_of, names_program};
use crate::tset_terminal::{Terminal, choose_terminal};
use everyday_entries::Tool;
use everyday_runtime::{Line, LineFound, StartContent, Stop, Variables, print_bytes, say};
use everyday_starting::first_bytes;
use everyday_tput::{Entry, StartFile, column_count, line_count};
use everyday_tset::{
    Modes, Settings, Window, WordsError, first_type, read_words, report_text, shell_commands,
    strings,
};
use everyday_words::TsetRequest;
use std::io::{self, Write};
use std::rt::{Clock, Env, Files};
use std::thread;
use std::time::Duration;
use tools_disk::{ErrorStream, reason};
use tools_tput::terminal_line;

// The exit status of a failure of the system, to which the number of its error is added.
const SYSTEM: u8 = 4;

// The rate of a line without padding.
const UNPADDED: u32 = 0;

// What is done to a terminal.
#[derive(Drop)]
struct Work<'a> {
    tool: Tool,
    settings: &'a Settings<'a>,
    variables: &'a Variables,
    line: Option<Line>,
}

/// The tool that is asked.
pub fn tool_of(asked: &TsetRequest) -> Tool {
    if asked.is_reset {
        Tool::Reset
    } else {
        Tool::Tset
    }
}

/// Sets a terminal up, or resets it, as the words ask. Returns the status of the process.
///
/// # Errors
/// Why it stopped.
pub fn run<R: Clock + Env + Files + Input + Print + Eprint + AllocGlobal>(
    rt: &R,
    asked: &TsetRequest,
) -> Result<u8, Stop> {
    let tool = tool_of(asked);
    match read_words(rt.alloc(), asked.words.as_slice()) {
        Ok(settings) => begin(rt, tool, &settings),
        Err(why) => refuse(rt, tool, why),
    }
}

// Says why words ask for nothing, or prints the version. Returns the status of the process.
fn refuse<R: Print + Eprint + AllocGlobal>(
    rt: &R,
    tool: Tool,
    why: WordsError<'_>,
) -> Result<u8, Stop> {
    match why {
        WordsError::Version => return print_version(rt, tool),
        WordsError::Memory => return Err(Stop::memory()),
        WordsError::Unknown(letter) => {
            say(
                rt,
                tool,
                &[b"bad usage: -", &[letter], b" is not supported"],
            );
        }
        WordsError::NoValue(letter) => {
            say(rt, tool, &[b"bad usage: -", &[letter], b" needs a value"]);
        }
        WordsError::Others => say(rt, tool, &[b"bad usage: more than one terminal is named"]),
        WordsError::BadMapping(text) => say(rt, tool, &[b"illegal -m option format: ", text]),
        WordsError::UnknownRate(name) => say(rt, tool, &[b"unknown baud rate ", name]),
    }
    Ok(1)
}

// Does what is asked for. Returns the status of the process.
fn begin<R: Clock + Env + Files + Input + Print + Eprint + AllocGlobal>(
    rt: &R,
    tool: Tool,
    settings: &Settings<'_>,
) -> Result<u8, Stop> {
    let variables = Variables::read(rt)?;
    let line = match LineFound::read(rt, &variables)? {
        LineFound::Nothing => None,
        LineFound::NoTerminal(number) => return no_terminal(rt, tool, number),
        LineFound::Line(line) => Some(line),
    };
    let work = Work {
        tool,
        settings,
        variables: &variables,
        line,
    };
    if !settings.name_only {
        work.make_sane(rt)?;
    }
    let rate = match &work.line {
        Some(line) => line.rate,
        None => 0,
    };
    let first = first_type(settings, variables.term_bytes(), rate);
    match choose_terminal(rt, tool, &variables, first)? {
        Some(terminal) => work.set_up(rt, &terminal),
        None => work.give_up(rt, 1),
    }
}

// Says that there is no terminal, and what the system says of that, before an empty line, as ncurses
// does. Returns the status of the process.
fn no_terminal<R: Eprint + AllocGlobal>(rt: &R, tool: Tool, number: u32) -> Result<u8, Stop> {
    let error = io::Error::from_raw_os_error(i32::try_from(number).unwrap_or(i32::MAX));
    let why = reason(rt.alloc(), &error)?;
    say(rt, tool, &[b"terminal attributes: ", why.as_bytes(), b"\n"]);
    Ok(SYSTEM.saturating_add(u8::try_from(number).unwrap_or(u8::MAX)))
}

impl Work<'_> {
    // Makes the modes of the line sane, if it is to be reset.
    fn make_sane<R: Files + AllocGlobal>(&self, rt: &R) -> Result<(), Stop> {
        match &self.line {
            Some(line) if self.tool == Tool::Reset => line.set_modes(rt, &line.modes.sane()),
            _ => Ok(()),
        }
    }

    // The modes that a line gets.
    fn new_modes(&self, line: &Line, entry: &Entry<'_>) -> Modes {
        let modes = if self.tool == Tool::Reset {
            line.modes.sane()
        } else {
            line.modes
        };
        if self.settings.modes {
            return modes.for_terminal(&entry.view, self.settings);
        }
        modes
    }

    // Gives the line its modes back, and ends a line on standard error. Returns the status.
    fn give_up<R: Files + Eprint + AllocGlobal>(&self, rt: &R, status: u8) -> Result<u8, Stop> {
        if let Some(line) = &self.line {
            line.set_modes(rt, &line.modes)?;
        }
        let _ = rt.eprint("\n");
        Ok(status)
    }

    // Sets a terminal up. Returns the status of the process.
    fn set_up<R: Clock + Files + Input + Print + Eprint + AllocGlobal>(
        &self,
        rt: &R,
        terminal: &Terminal,
    ) -> Result<u8, Stop> {
        let name = terminal.name.as_slice();
        let entry = entry_of(rt, &terminal.file, true, &[])?;
        if self.settings.name_only {
            print_bytes(rt, name)?;
            print_bytes(rt, b"\n")?;
        } else if let Some(status) = self.set(rt, &entry, name)? {
            return Ok(status);
        }
        if self.settings.termcap {
            let mut error = ErrorStream::new(rt);
            let _ = error.write_all(self.tool.name().as_bytes());
            let _ = error.write_all(b": The -S option is not supported under terminfo.");
            return self.give_up(rt, 1);
        }
        if self.settings.commands {
            let text = shell_commands(rt.alloc(), self.variables.shell(), name)?;
            print_bytes(rt, text.as_slice())?;
        }
        Ok(0)
    }

    // Sets the size of the window, the modes of the line and the terminal, and reports. Returns the
    // status of the process, if it ends.
    fn set<R: Clock + Files + Input + Eprint + AllocGlobal>(
        &self,
        rt: &R,
        entry: &Entry<'_>,
        name: &[u8],
    ) -> Result<Option<u8>, Stop> {
        if self.settings.size {
            self.set_window(rt, entry)?;
        }
        if self.settings.modes && !self.settings.no_strings {
            if let Some(status) = self.send(rt, entry)? {
                return Ok(Some(status));
            }
        }
        if let Some(line) = &self.line {
            line.set_modes(rt, &self.new_modes(line, entry))?;
        }
        if self.settings.says_name {
            let mut error = ErrorStream::new(rt);
            let _ = error.write_all(b"Terminal type is ");
            let _ = error.write_all(name);
            let _ = error.write_all(b".\n");
        }
        self.report(rt, entry)?;
        Ok(None)
    }

    // Gives the window a size, if it has none.
    fn set_window<R: Files + AllocGlobal>(&self, rt: &R, entry: &Entry<'_>) -> Result<(), Stop> {
        let Some(line) = &self.line else {
            return Ok(());
        };
        let wanted = Window {
            lines: line_count(false, &self.variables.lines(), &entry.view),
            columns: column_count(false, &self.variables.columns(), &entry.view),
        };
        match line.window.to_set(&wanted) {
            Some(window) => line.set_window(rt, &window),
            None => Ok(()),
        }
    }

    // The last column that strings are made for, counted from 0.
    fn last_column(&self, entry: &Entry<'_>) -> u32 {
        let columns = column_count(false, &self.variables.columns(), &entry.view);
        let columns = match &self.line {
            Some(line) if self.settings.size => line.window.columns_or(columns),
            _ => columns,
        };
        columns.saturating_sub(1)
    }

    // Sends the strings of the terminal to it. Returns the status of the process, if it ends.
    fn send<R: Clock + Files + Input + Eprint + AllocGlobal>(
        &self,
        rt: &R,
        entry: &Entry<'_>,
    ) -> Result<Option<u8>, Stop> {
        if let Some(line) = &self.line {
            if let Some(modes) = line.modes.while_sending() {
                line.set_modes(rt, &modes)?;
            }
        }
        if names_program(entry) {
            say(rt, self.tool, &[b"the program of iprog is not run"]);
        }
        let is_reset = self.tool == Tool::Reset;
        let content = StartContent::read(rt, is_reset, entry)?;
        match content.file() {
            StartFile::Bytes(file) => self.send_strings(rt, entry, is_reset, file),
            StartFile::Failed(status) => {
                self.say_file(rt, entry, is_reset, &content)?;
                Ok(Some(self.give_up(rt, status)?))
            }
        }
    }

    // Says that the file cannot be read that the entry names, after what is sent before it.
    fn say_file<R: Eprint + AllocGlobal>(
        &self,
        rt: &R,
        entry: &Entry<'_>,
        is_reset: bool,
        content: &StartContent,
    ) -> Result<(), Stop> {
        let line = terminal_line(&entry.view, UNPADDED);
        let last = self.last_column(entry);
        if let Some(bytes) = first_bytes(rt.alloc(), is_reset, &entry.view, last, &line)? {
            let _ = ErrorStream::new(rt).write_all(bytes.as_slice());
        }
        content.say(rt, self.tool)
    }

    // Sends the strings, with that content of the file, and waits a second if there are some.
    fn send_strings<R: Clock + Files + Eprint + AllocGlobal>(
        &self,
        rt: &R,
        entry: &Entry<'_>,
        is_reset: bool,
        file: &[u8],
    ) -> Result<Option<u8>, Stop> {
        let line = terminal_line(&entry.view, UNPADDED);
        let last = self.last_column(entry);
        match strings(rt.alloc(), is_reset, &entry.view, last, file, &line)? {
            Some(bytes) => {
                let _ = ErrorStream::new(rt).write_all(bytes.as_slice());
                if !bytes.is_empty() {
                    thread::sleep(rt, Duration::from_secs(1));
                }
                Ok(None)
            }
            None => {
                say(rt, self.tool, &[b"a string cannot be written"]);
                Ok(Some(self.give_up(rt, 1)?))
            }
        }
    }

    // Reports the characters of the line.
    fn report<R: Eprint + AllocGlobal>(&self, rt: &R, entry: &Entry<'_>) -> Result<(), Stop> {
        let Some(line) = &self.line else {
            return Ok(());
        };
        if !self.settings.no_report {
            let modes = self.new_modes(line, entry);
            let text = report_text(rt.alloc(), &entry.view, &line.modes, &modes)?;
            let _ = ErrorStream::new(rt).write_all(text.as_slice());
        }
        Ok(())
    }
}
