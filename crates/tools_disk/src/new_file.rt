//! Replacing a file whole, by a new file that takes its name.
use crate::made_directories::MadeDirectories;
use std::fs::{self, File, OpenFile};
use std::io::{self, ErrorKind, Write};
use std::rt::{Clock, Files};
use std::time::Duration;

// After how many seconds a new file counts as left over from a run that was killed: a run that
// still lives takes far less for the largest entry.
const LEFT_OVER_AFTER: u64 = 3600;

/// Puts a file of these bytes at the path, in place of what is there, and makes the directories on
/// its path that are missing. A regular file that is replaced keeps its permissions, if the file
/// system has any. After a failure no new file is left.
///
/// # Errors
/// What the system returns; `OutOfMemory` if a growth of memory was refused.
pub fn replace_file<R: Files + Clock + AllocGlobal>(
    rt: &R,
    made: &mut MadeDirectories,
    path: &str,
    bytes: &[u8],
) -> io::Result<()> {
    let (new_path, file) = match create_beside(rt, path) {
        // The directory is there for most files, so it is made only if the file can't be.
        Err(error) if is_absent(&error) => {
            made.make(rt, directory_of(path))?;
            create_beside(rt, path)?
        }
        Err(error) => return Err(error),
        Ok(created) => created,
    };
    let is_new = made.has(directory_of(path));
    let replaced = match fill(rt, file, path, is_new, bytes) {
        Ok(()) => fs::rename(rt, new_path.as_str(), path),
        Err(error) => Err(error),
    };
    if replaced.is_err() {
        let _ = fs::remove_file(rt, new_path.as_str());
    }
    replaced
}

/// Whether files can be put into a directory. A new file is made there, and removed at once.
pub fn takes_files<R: Files + Clock + AllocGlobal>(rt: &R, directory: &str) -> bool {
    let Ok(path) = format!(in rt.alloc(); "{directory}/") else {
        return false;
    };
    match create_beside(rt, path.as_str()) {
        Ok((new_path, _)) => fs::remove_file(rt, new_path.as_str()).is_ok(),
        Err(_) => false,
    }
}

/// Whether a file is not there, since its name or a directory on its path is missing.
pub fn is_absent(error: &io::Error) -> bool {
    matches!(error.kind(), ErrorKind::NotFound | ErrorKind::NotADirectory)
}

// The directory of a file.
fn directory_of(path: &str) -> &str {
    match path.rsplit_once('/') {
        Some(("", _)) => "/",
        Some((directory, _)) => directory,
        None => ".",
    }
}

// A new file in the directory of the one at the path, under the first number that is free. Its name
// has a comma, as no lookup name does, so it is not a terminal's.
fn create_beside<R: Files + Clock + AllocGlobal>(
    rt: &R,
    path: &str,
) -> io::Result<(String, R::File)> {
    for number in 0..u32::MAX {
        let new_path = format!(in rt.alloc(); "{path},{number}")?;
        if let Some(file) = create(rt, new_path.as_str())? {
            return Ok((new_path, file));
        }
    }
    Err(io::Error::from(ErrorKind::AlreadyExists))
}

// A new file of this name; `None` if another run has one. One that was left over is removed.
fn create<R: Files + Clock>(rt: &R, path: &str) -> io::Result<Option<R::File>> {
    match create_new(rt, path)? {
        Some(file) => Ok(Some(file)),
        None if is_left_over(rt, path) && fs::remove_file(rt, path).is_ok() => create_new(rt, path),
        None => Ok(None),
    }
}

// A new file of this name; `None` if there is something of that name.
fn create_new<R: Files>(rt: &R, path: &str) -> io::Result<Option<R::File>> {
    match File::create_new(rt, path) {
        Ok(file) => Ok(Some(file)),
        Err(error) if error.kind() == ErrorKind::AlreadyExists => Ok(None),
        Err(error) => Err(error),
    }
}

// Whether a new file is so old that the run that made it must have been killed.
fn is_left_over<R: Files + Clock>(rt: &R, path: &str) -> bool {
    match age(rt, path) {
        Ok(age) => age.as_secs() >= LEFT_OVER_AFTER,
        Err(_) => false,
    }
}

// How long ago a file was last written.
fn age<R: Files + Clock>(rt: &R, path: &str) -> io::Result<Duration> {
    fs::symlink_metadata(rt, path)?.modified()?.elapsed(rt)
}

// Writes all of these bytes into a new file, gives it the permissions of the regular file that it
// is to replace, if there may be one, and closes it.
fn fill<R: Files>(
    rt: &R,
    mut file: R::File,
    path: &str,
    is_new: bool,
    bytes: &[u8],
) -> io::Result<()> {
    file.write_all(bytes)?;
    if is_new {
        return Ok(());
    }
    match fs::symlink_metadata(rt, path) {
        // a file system without permissions refuses them
        Ok(old) if old.is_file() => drop(file.set_permissions(old.permissions())),
        _ => {}
    }
    Ok(())
}
