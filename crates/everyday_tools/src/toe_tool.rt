//! `ti-toe`: lists the entries of directories.
use everyday_runtime::{Stop, Variables, print_bytes};
use everyday_toe::{Directory, Row, Seen, Style, see, table};
use everyday_words::ToeRequest;
use std::os::unix::fs::MetadataExt;
use std::rt::{Clock, Env, Files};
use std::{fs, io};
use tools_devices::{Tree, TreeFault};
use tools_disk::DiskTree;

// The most bytes of a file that may be an entry.
const FILE_MAX: usize = 65_536;

/// Prints the table of the entries of the directories that are asked for, or of those that are
/// searched. Returns the status of the process.
///
/// # Errors
/// Why it stopped.
pub fn run<R: Clock + Env + Files + Print + Eprint + AllocGlobal + Clone + Drop>(
    rt: &R,
    request: &ToeRequest,
) -> Result<u8, Stop> {
    let searched = searched(rt, request)?;
    let paths = if request.directories.is_empty() {
        searched.as_slice()
    } else {
        request.directories.as_slice()
    };
    let mut directories = Vec::new(rt.alloc());
    for path in paths {
        let path = String::from_str(rt.alloc(), path.as_str())?;
        let rows = rows_of(rt, path.as_str())?;
        add(&mut directories, Directory { path, rows })?;
    }
    let style = Style {
        headings: request.headings,
        sorted: request.sorted,
    };
    let text = table(rt.alloc(), style, directories.as_slice())?;
    print_bytes(rt, text.as_slice())?;
    Ok(0)
}

// The directories that are searched for entries, if none is asked for: of those that there are the
// first, or all of them.
fn searched<R: Env + Files + AllocGlobal>(
    rt: &R,
    request: &ToeRequest,
) -> Result<Vec<String>, Stop> {
    let mut found = Vec::new(rt.alloc());
    if !request.directories.is_empty() {
        return Ok(found);
    }
    let mut places = Vec::new(rt.alloc());
    for path in Variables::read(rt)?.directories(rt.alloc())? {
        let Some(place) = place_of(rt, path.as_str()) else {
            continue;
        };
        // a directory may have two paths
        if places.contains(&place) {
            continue;
        }
        add(&mut places, place)?;
        add(&mut found, path)?;
        if !request.all {
            break;
        }
    }
    Ok(found)
}

// Which directory is at a path: its device and its number there.
fn place_of<R: Files>(rt: &R, path: &str) -> Option<(u64, u64)> {
    match fs::metadata(rt, path) {
        Ok(found) if found.is_dir() => Some((found.dev(), found.ino())),
        _ => None,
    }
}

// Names a directory on standard error that is there and cannot be read.
fn say_unreadable<R: Files + Eprint + AllocGlobal>(rt: &R, path: &str) {
    if place_of(rt, path).is_some() {
        let _ = eprintln!(rt; "ti-toe: {path}: the directory cannot be read");
    }
}

// The names in a directory, in the order in which the system gives them; `None` if it cannot be read.
// A name that is not text is left out, as no terminal has it.
fn names_in<R: Files + AllocGlobal + Clone + Drop>(
    rt: &R,
    path: &str,
) -> Result<Option<Vec<String>>, Stop> {
    let listing = match fs::read_dir(rt, path) {
        Ok(listing) => listing,
        Err(error) if error.kind() == io::ErrorKind::OutOfMemory => return Err(Stop::memory()),
        Err(_) => return Ok(None),
    };
    let mut names = Vec::new(rt.alloc());
    for entry in listing {
        match entry {
            Ok(entry) => add(&mut names, String::from_str(rt.alloc(), entry.file_name())?)?,
            Err(error) if error.kind() == io::ErrorKind::OutOfMemory => return Err(Stop::memory()),
            Err(_) => {}
        }
    }
    Ok(Some(names))
}

// The rows of a directory: of the files in the directories in it. `None` if it cannot be read, which
// standard error says of one that is there.
fn rows_of<R: Clock + Files + Eprint + AllocGlobal + Clone + Drop>(
    rt: &R,
    path: &str,
) -> Result<Option<Vec<Row>>, Stop> {
    let Some(names) = names_in(rt, path)? else {
        say_unreadable(rt, path);
        return Ok(None);
    };
    let mut rows = Vec::new(rt.alloc());
    for name in &names {
        let below = format!(in rt.alloc(); "{path}/{name}")?;
        if let Some(files) = names_in(rt, below.as_str())? {
            add_rows(rt, &mut rows, below.as_str(), files.as_slice())?;
        }
    }
    Ok(Some(rows))
}

// Adds the rows of the files of these names. What is not a file is skipped, and a file that is not
// an entry is named on standard error.
fn add_rows<R: Clock + Files + Eprint + AllocGlobal>(
    rt: &R,
    rows: &mut Vec<Row>,
    directory: &str,
    names: &[String],
) -> Result<(), Stop> {
    let mut tree = DiskTree::new(rt);
    for name in names {
        let path = format!(in rt.alloc(); "{directory}/{name}")?;
        if !is_file(rt, path.as_str()) {
            continue;
        }
        let seen = match tree.read(rt.alloc(), path.as_str(), FILE_MAX) {
            Ok(Some(bytes)) => see(rt.alloc(), name.as_bytes(), bytes.as_slice())?,
            Ok(None) => continue,
            Err(TreeFault::Failed) => Seen::Damaged,
            Err(TreeFault::Memory) => return Err(Stop::memory()),
        };
        match seen {
            Seen::Entry(row) => add(rows, row)?,
            Seen::Alias => {}
            Seen::Damaged => {
                let _ = eprintln!(rt; "ti-toe: {path}: not an entry");
            }
        }
    }
    Ok(())
}

// Puts an item after others.
fn add<T: Drop>(items: &mut Vec<T>, item: T) -> Result<(), Stop> {
    match items.push(item) {
        Ok(()) => Ok(()),
        Err(_) => Err(Stop::memory()),
    }
}

// Whether there is a file at a path.
fn is_file<R: Files>(rt: &R, path: &str) -> bool {
    match fs::metadata(rt, path) {
        Ok(found) => found.is_file(),
        Err(_) => false,
    }
}
