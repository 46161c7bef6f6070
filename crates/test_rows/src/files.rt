//! The files of rows of a directory. A line that is empty or begins with `#` is none. Each other line
//! is a call, that of a group, a dot and its name; the words that it is given; `=>`; and the words
//! that it says.
use crate::row::{NO_CALL, Row, RowResult, shown, text_of};
use crate::words::RowError::{self, Bad};
use crate::words::words_of;
use std::alloc::{AllocError, Global};
use std::fmt::Write;
use std::process::ExitCode;
use std::rt::{Env, Files};
use std::{env, fs, io, str};

/// The calls of some libraries, with what they keep from row to row of a file.
pub trait Calls: Drop {
    /// What there is at the beginning of a file.
    ///
    /// # Errors
    /// Out of memory.
    fn new(alloc: Global) -> Result<Self, AllocError>;

    /// Makes a call of a group.
    ///
    /// # Errors
    /// `Bad` if there is no such call, or it is not given what it takes.
    fn call(&mut self, group: &str, name: &str, row: &mut Row<'_>) -> RowResult;
}

// How many rows there were, and what is to be said of those that failed.
#[derive(Drop)]
struct Tally {
    rows: u64,
    failed: u64,
    said: String,
}

// What is to be said of a row, if another thing came than what was wanted.
fn fault_of<C: Calls>(alloc: Global, calls: &mut C, line: &[u8]) -> RowResult<Option<String>> {
    let words = words_of(alloc, line)?;
    let Some(arrow) = words
        .iter()
        .position(|word| word.as_slice() == b"=>".as_slice())
    else {
        return Err(Bad("a row has `=>`"));
    };
    let Some((name, given)) = words.get(..arrow).unwrap_or(&[]).split_first() else {
        return Err(Bad("a row begins with a call"));
    };
    let mut row = Row::new(alloc, given);
    match text_of(name)?.split_once('.') {
        Some((group, name)) => calls.call(group, name, &mut row)?,
        None => return Err(NO_CALL),
    }
    let wanted = shown(alloc, words.get(arrow.saturating_add(1)..).unwrap_or(&[]))?;
    let came = row.said();
    if came == wanted.as_str() {
        return Ok(None);
    }
    Ok(Some(format!(in alloc; "came {came}\n    wanted {wanted}")?))
}

impl Tally {
    // Says that something is wrong.
    fn fail(&mut self, place: &str, reason: &str) -> Result<(), AllocError> {
        self.failed = self.failed.saturating_add(1);
        writeln!(self.said, "{place}: {reason}")
    }

    // Makes the call of a row, and says what is wrong with it.
    fn check_row<C: Calls>(
        &mut self,
        alloc: Global,
        calls: &mut C,
        place: &str,
        line: &str,
    ) -> Result<(), AllocError> {
        self.rows = self.rows.saturating_add(1);
        let fault = match fault_of(alloc, calls, line.as_bytes()) {
            Ok(None) => return Ok(()),
            Ok(Some(fault)) => fault,
            Err(Bad(reason)) => String::from_str(alloc, reason)?,
            Err(RowError::Memory) => return Err(AllocError),
        };
        self.fail(place, format!(in alloc; "{line}\n    {fault}")?.as_str())
    }

    // Checks the rows of a text. One without a row fails.
    fn check_text<C: Calls>(
        &mut self,
        alloc: Global,
        file: &str,
        text: &str,
    ) -> Result<(), AllocError> {
        let mut calls = C::new(alloc)?;
        let before = self.rows;
        let mut number: usize = 0;
        for line in text.lines() {
            number = number.saturating_add(1);
            if !line.is_empty() && !line.as_bytes().starts_with(b"#") {
                let place = format!(in alloc; "{file}:{number}")?;
                self.check_row(alloc, &mut calls, place.as_str(), line)?;
            }
        }
        if self.rows == before {
            self.fail(file, "there is no row")?;
        }
        Ok(())
    }
}

// The names of the files of rows in a directory, in order.
fn row_files<R: Files + AllocGlobal + Clone + Drop>(
    rt: &R,
    directory: &str,
) -> io::Result<Vec<String>> {
    let mut names = Vec::new(rt.alloc());
    for file in fs::read_dir(rt, directory)? {
        let file = file?;
        let name = file.file_name();
        if name.ends_with(".rows") {
            names.push(String::from_str(rt.alloc(), name)?)?;
        }
    }
    names.sort()?;
    Ok(names)
}

// Checks the rows of each file of a directory. One without such files fails.
fn check_directory<C: Calls, R: Files + AllocGlobal + Clone + Drop>(
    rt: &R,
    directory: &str,
) -> io::Result<Tally> {
    let said = String::new(rt.alloc());
    let mut tally = Tally {
        rows: 0,
        failed: 0,
        said,
    };
    let names = row_files(rt, directory)?;
    if names.is_empty() {
        tally.fail(directory, "there are no files of rows")?;
    }
    for name in &names {
        let path = format!(in rt.alloc(); "{directory}/{name}")?;
        let bytes = fs::read(rt, path.as_str())?;
        match str::from_utf8(&bytes) {
            Ok(text) => tally.check_text::<C>(rt.alloc(), name.as_str(), text)?,
            Err(_) => tally.fail(name.as_str(), "it is not text")?,
        }
    }
    Ok(tally)
}

/// Makes the calls of the rows of each file `*.rows` of the directory that the program's word names,
/// and says which rows fail. The status is 1 if one does.
///
/// # Errors
/// What cannot be read or written, and out of memory.
pub fn run<C: Calls, R: Env + Files + Print + AllocGlobal + Clone + Drop>(
    rt: &R,
) -> io::Result<ExitCode> {
    let words: Vec<String> = env::args(rt)?.collect(rt.alloc())?;
    let directory = words.get(1).map_or(".", |word| word.as_str());
    let tally = check_directory::<C, R>(rt, directory)?;
    rt.print(tally.said.as_str())?;
    if tally.failed == 0 {
        println!(rt; "every row passed")?;
        return Ok(ExitCode::SUCCESS);
    }
    let (failed, rows) = (tally.failed, tally.rows);
    println!(rt; "{failed} failures, {rows} rows")?;
    Ok(ExitCode::FAILURE)
}
