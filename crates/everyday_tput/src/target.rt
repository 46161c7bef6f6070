//! What commands are for: an entry, its terminal and the line to it.
use crate::entry::Entry;
use crate::sizes::Sources;

/// The file that an entry names for its initialization (`if`), or for its reset (`rf`, else `if`).
#[derive(Clone, Copy)]
pub enum StartFile<'a> {
    /// What it holds; nothing if the entry names none.
    Bytes(&'a [u8]),
    /// It cannot be read, and this is the status of the process.
    Failed(u8),
}

/// What commands are for.
#[derive(Clone, Copy)]
pub struct Target<'a> {
    /// The entry.
    pub entry: Entry<'a>,
    /// Whether its terminal is named by `-T`: the variables of the environment then say nothing of
    /// its size.
    pub is_named: bool,
    /// What is said of how many columns there are.
    pub columns: Sources<'a>,
    /// What is said of how many lines there are.
    pub lines: Sources<'a>,
    /// The speed of the line in bits per second; at 0 nothing is padded.
    pub rate: u32,
    /// The file for the initialization.
    pub init_file: StartFile<'a>,
    /// The file for the reset.
    pub reset_file: StartFile<'a>,
    /// Whether `clear` keeps what has scrolled off the screen.
    pub keeps_scrollback: bool,
}
