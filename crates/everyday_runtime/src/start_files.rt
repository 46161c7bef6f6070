//! The files that an entry names for its initialization and for its reset.
use crate::stopping::{Stop, say};
use everyday_entries::Tool;
use everyday_starting::file_named;
use everyday_tput::{Entry, StartFile};
use std::io::{self, ErrorKind};
use std::rt::Files;
use std::str::from_utf8;
use tools_disk::{read_whole, reason};

// The exit status of a file that cannot be read, to which the number of the system's error is added.
const NO_FILE: u8 = 4;

/// What reading the file gave that an entry names.
#[derive(Drop)]
pub enum StartContent {
    /// What it holds; nothing if the entry names none, or a directory.
    Bytes(Vec<u8>),
    /// It cannot be read: its path, and why.
    Failed(Vec<u8>, io::Error),
}

impl StartContent {
    /// No file was read.
    pub fn none<R: AllocGlobal>(rt: &R) -> StartContent {
        StartContent::Bytes(Vec::new(rt.alloc()))
    }

    /// Reads the file that an entry names for its initialization, or for its reset.
    ///
    /// # Errors
    /// Out of memory.
    pub fn read<R: Files + Input + AllocGlobal>(
        rt: &R,
        is_reset: bool,
        entry: &Entry<'_>,
    ) -> Result<StartContent, Stop> {
        let Some(path) = file_named(is_reset, &entry.view) else {
            return Ok(StartContent::none(rt));
        };
        match bytes_at(rt, path) {
            Ok(bytes) => Ok(StartContent::Bytes(bytes)),
            Err(error) if error.kind() == ErrorKind::OutOfMemory => Err(Stop::memory()),
            Err(error) if error.kind() == ErrorKind::IsADirectory => Ok(StartContent::none(rt)),
            Err(error) => {
                let path = Vec::from_slice(rt.alloc(), path)?;
                Ok(StartContent::Failed(path, error))
            }
        }
    }

    /// The file, as commands take it.
    pub fn file(&self) -> StartFile<'_> {
        match self {
            StartContent::Bytes(bytes) => StartFile::Bytes(bytes.as_slice()),
            StartContent::Failed(_, error) => StartFile::Failed(status_of(error)),
        }
    }

    /// Says on standard error that the file cannot be read, and why, if it cannot.
    ///
    /// # Errors
    /// Out of memory.
    pub fn say<R: Eprint + AllocGlobal>(&self, rt: &R, tool: Tool) -> Result<(), Stop> {
        if let StartContent::Failed(path, error) = self {
            let why = reason(rt.alloc(), error)?;
            say(rt, tool, &[path.as_slice(), b": ", why.as_bytes()]);
        }
        Ok(())
    }
}

// All bytes of the file at a path.
fn bytes_at<R: Files + Input + AllocGlobal>(rt: &R, path: &[u8]) -> io::Result<Vec<u8>> {
    match from_utf8(path) {
        Ok(path) => read_whole(rt, rt.alloc(), Some(path)),
        Err(_) => Err(io::Error::from(ErrorKind::NotFound)),
    }
}

// The exit status for an error of the system, by its number (errno(3)); that of ENOENT or EIO if the
// system did not give it.
fn status_of(error: &io::Error) -> u8 {
    let number = match error.raw_os_error() {
        Some(number) => u8::try_from(number).unwrap_or(u8::MAX),
        None if error.kind() == ErrorKind::NotFound => 2,
        None => 5,
    };
    NO_FILE.saturating_add(number)
}
