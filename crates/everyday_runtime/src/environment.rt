//! What the environment says of the terminal, of its size and of the directories of entries.
ghost use Rattle.std.specs.Prelude.{◌≤◌, IfOk, IfSome, length};

use crate::stopping::Stop;
use everyday_tput::Sources;
use std::alloc::{AllocError, Global};
use std::env::{self, FillError, VarError};
use std::fs;
use std::rt::{Env, Files};
use std::str::from_utf8;
use tools_directories::{Environment, entry_directories};

// How much room is made for a variable at first. Few are longer.
const ROOM: usize = 512;

/// What the variables are set to that say which terminal and which shell there are, how large the
/// terminal is, and where entries are. Those of the window, of the modes and of the line are set by what
/// is linked to the program in C (window/), which first removes them.
#[derive(Drop)]
pub struct Variables {
    term: Option<Vec<u8>>,
    terminfo: Option<Vec<u8>>,
    home: Option<Vec<u8>>,
    dirs: Option<Vec<u8>>,
    columns: Option<Vec<u8>>,
    lines: Option<Vec<u8>>,
    window_columns: Option<Vec<u8>>,
    window_lines: Option<Vec<u8>>,
    modes: Option<Vec<u8>>,
    line: Option<Vec<u8>>,
    shell: Option<Vec<u8>>,
}

impl Variables {
    /// Reads the variables in one walk over the environment. For each name that it is asked for, the
    /// system's interface clears a buffer of 4,096 bytes, which takes longer.
    ///
    /// # Errors
    /// Out of memory.
    pub fn read<R: Env + AllocGlobal>(rt: &R) -> Result<Variables, Stop> {
        let mut found = Variables {
            term: None,
            terminfo: None,
            home: None,
            dirs: None,
            columns: None,
            lines: None,
            window_columns: None,
            window_lines: None,
            modes: None,
            line: None,
            shell: None,
        };
        let mut buffer = Vec::new(rt.alloc());
        buffer.resize(ROOM, 0)?;
        for at in 0..usize::MAX {
            match read_entry(rt, at, &mut buffer)? {
                Some(len) => found.take(rt.alloc(), &buffer.as_slice()[..len])?,
                None => break,
            }
        }
        Ok(found)
    }

    // Takes an entry of the environment, if it is the first of a variable that is read.
    fn take(&mut self, alloc: Global, entry: &[u8]) -> Result<(), AllocError> {
        match entry {
            [b'T', ..] => self.take_of_terminal(alloc, entry),
            [b'H', ..] => keep(alloc, &mut self.home, b"HOME=", entry),
            [b'C', ..] => keep(alloc, &mut self.columns, b"COLUMNS=", entry),
            [b'L', ..] => keep(alloc, &mut self.lines, b"LINES=", entry),
            [b'S', ..] => keep(alloc, &mut self.shell, b"SHELL=", entry),
            _ => Ok(()),
        }
    }

    // The same of the variables that begin with `T`.
    fn take_of_terminal(&mut self, alloc: Global, entry: &[u8]) -> Result<(), AllocError> {
        keep(alloc, &mut self.term, b"TERM=", entry)?;
        keep(alloc, &mut self.terminfo, b"TERMINFO=", entry)?;
        keep(alloc, &mut self.dirs, b"TERMINFO_DIRS=", entry)?;
        keep(
            alloc,
            &mut self.window_columns,
            b"TI_WINDOW_COLUMNS=",
            entry,
        )?;
        keep(alloc, &mut self.window_lines, b"TI_WINDOW_LINES=", entry)?;
        keep(alloc, &mut self.modes, b"TI_MODES=", entry)?;
        keep(alloc, &mut self.line, b"TI_LINE=", entry)
    }

    /// What is said of how many columns there are.
    pub fn columns(&self) -> Sources<'_> {
        Sources {
            variable: self.columns.as_deref(),
            window: self.window_columns.as_deref(),
        }
    }

    /// What is said of how many lines there are.
    pub fn lines(&self) -> Sources<'_> {
        Sources {
            variable: self.lines.as_deref(),
            window: self.window_lines.as_deref(),
        }
    }

    /// The path of the file that says which modes the line is to have, if they can be set.
    pub fn modes(&self) -> Option<&str> {
        text("TI_MODES", &self.modes).unwrap_or(None)
    }

    /// The path of the file that tells of the line, if there is one.
    pub fn line(&self) -> Option<&str> {
        text("TI_LINE", &self.line).unwrap_or(None)
    }

    /// The path of the user's shell, if it is set.
    pub fn shell(&self) -> Option<&[u8]> {
        self.shell.as_deref()
    }

    /// What `TERM` is set to, if it is, text or not.
    pub fn term_bytes(&self) -> Option<&[u8]> {
        self.term.as_deref()
    }

    /// The name of the terminal that `TERM` names, if it is set and not empty.
    ///
    /// # Errors
    /// That it is not text.
    pub fn terminal(&self) -> Result<Option<&str>, Stop> {
        match text("TERM", &self.term)? {
            Some(term) if !term.is_empty() => Ok(Some(term)),
            _ => Ok(None),
        }
    }

    /// What `TERM` is set to, if it is.
    ///
    /// # Errors
    /// That it is not text.
    pub fn term(&self) -> Result<Option<&str>, Stop> {
        text("TERM", &self.term)
    }

    /// What says where entries are. A `HOME` that is not text names no directory.
    ///
    /// # Errors
    /// That `TERMINFO` or `TERMINFO_DIRS` is not text.
    pub fn environment(&self) -> Result<Environment<'_>, Stop> {
        Ok(Environment {
            terminfo: text("TERMINFO", &self.terminfo)?,
            home: text("HOME", &self.home).unwrap_or(None),
            dirs: text("TERMINFO_DIRS", &self.dirs)?,
        })
    }

    /// The directories in which entries are looked for.
    ///
    /// # Errors
    /// That `TERMINFO` or `TERMINFO_DIRS` is not text; out of memory.
    pub fn directories(&self, alloc: Global) -> Result<Vec<String>, Stop> {
        Ok(entry_directories(alloc, &self.environment()?)?)
    }
}

// The length of an entry of the environment, which is then at the front of the buffer; `None` after
// the last one.
fn read_entry<R: Env>(rt: &R, at: usize, buffer: &mut Vec<u8>) -> Result<Option<usize>, AllocError>
    ensures { IfOk result (λ found. IfSome found (λ len. len ≤ length buffer.new.items)) }
{
    for _doubled in 0..usize::BITS {
        match rt.var_at(at, buffer.as_mut_slice()) {
            Ok(len) => return Ok(Some(len)),
            Err(FillError::NotPresent) => return Ok(None),
            Err(FillError::TooLong) => {
                let len = buffer.len();
                buffer.resize(len.saturating_add(len), 0)?;
            }
        }
    }
    Err(AllocError)
}

// Takes the value of an entry, if it begins with that name and none was taken before.
fn keep(
    alloc: Global,
    value: &mut Option<Vec<u8>>,
    name: &[u8],
    entry: &[u8],
) -> Result<(), AllocError> {
    if value.is_some() {
        return Ok(());
    }
    if let Some(found) = entry.strip_prefix(name) {
        *value = Some(Vec::from_slice(alloc, found)?);
    }
    Ok(())
}

// A value as text.
fn text<'a>(name: &'static str, value: &'a Option<Vec<u8>>) -> Result<Option<&'a str>, Stop> {
    let Some(bytes) = value else {
        return Ok(None);
    };
    match from_utf8(bytes.as_slice()) {
        Ok(text) => Ok(Some(text)),
        Err(_) => Err(Stop::NotText(name)),
    }
}

// Whether a variable of the environment is set, and not empty.
fn is_set<R: Env + AllocGlobal>(rt: &R, name: &str) -> bool {
    match env::var(rt, name) {
        Ok(value) => !value.is_empty(),
        Err(VarError::NotPresent) => false,
        Err(_) => true,
    }
}

/// Whether standard output is a terminal, by what its descriptor leads to.
pub fn is_terminal<R: Files + AllocGlobal>(rt: &R) -> bool {
    match fs::read_link(rt, "/proc/self/fd/1") {
        Ok(path) => path.as_str().starts_with("/dev/pts/") || path.as_str().starts_with("/dev/tty"),
        Err(_) => false,
    }
}

// Whether `TERM` names a terminal that is dumb.
fn is_dumb<R: Env + AllocGlobal>(rt: &R) -> bool {
    match env::var(rt, "TERM") {
        Ok(term) => term.as_str() == "dumb",
        Err(_) => false,
    }
}

/// Whether standard output takes colors: it is a terminal, `TERM` does not name one that is dumb, and
/// `NO_COLOR` is not set, or is empty.
pub fn takes_colors<R: Env + Files + AllocGlobal>(rt: &R) -> bool {
    is_terminal(rt) && !is_dumb(rt) && !is_set(rt, "NO_COLOR")
}
