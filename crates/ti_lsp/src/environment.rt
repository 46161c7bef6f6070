//! The names of the entries that are installed, by the environment.
use source_blocks::can_be_given;
use source_installed::{Installed, is_directory_of};
use std::alloc::{AllocError, Global};
use std::collections::BTreeSet;
use std::env::{self, VarError};
use std::fs;
use std::rt::{Env, Files};
use tools_directories::{Environment, entry_directories};

// What a variable of the environment is set to. One that is not text is as if it were not set.
fn variable<R: Env + AllocGlobal>(
    rt: &R,
    name: &'static str,
) -> Result<Option<String>, AllocError> {
    match env::var(rt, name) {
        Ok(value) => Ok(Some(value)),
        Err(VarError::OutOfMemory) => Err(AllocError),
        Err(VarError::NotPresent | VarError::NotUnicode) => Ok(None),
    }
}

// The directories in which entries are looked for.
fn directories<R: Env + AllocGlobal>(rt: &R) -> Result<Vec<String>, AllocError> {
    let terminfo = variable(rt, "TERMINFO")?;
    let home = variable(rt, "HOME")?;
    let dirs = variable(rt, "TERMINFO_DIRS")?;
    let environment = Environment {
        terminfo: terminfo.as_deref(),
        home: home.as_deref(),
        dirs: dirs.as_deref(),
    };
    entry_directories(rt.alloc(), &environment)
}

// Adds a name that a source can use, if its entry may be in the directory of that name.
fn add_name(
    alloc: Global,
    names: &mut BTreeSet<String>,
    directory: &str,
    name: &str,
) -> Result<(), AllocError> {
    if is_directory_of(directory, name) && can_be_given(alloc, name.as_bytes())? {
        names.insert(String::from_str(alloc, name)?)?;
    }
    Ok(())
}

// Adds the names of the files in a directory below another; none if it cannot be read.
fn add_files<R: Files + AllocGlobal + Clone + Drop>(
    rt: &R,
    names: &mut BTreeSet<String>,
    above: &str,
    directory: &str,
) -> Result<(), AllocError> {
    let path = format!(in rt.alloc(); "{above}/{directory}")?;
    let Ok(files) = fs::read_dir(rt, path.as_str()) else {
        return Ok(());
    };
    for file in files {
        if let Ok(file) = file {
            add_name(rt.alloc(), names, directory, file.file_name())?;
        }
    }
    Ok(())
}

// Adds the names of the entries below a directory; none if it cannot be read.
fn add_entries<R: Files + AllocGlobal + Clone + Drop>(
    rt: &R,
    names: &mut BTreeSet<String>,
    above: &str,
) -> Result<(), AllocError> {
    let Ok(directories) = fs::read_dir(rt, above) else {
        return Ok(());
    };
    for directory in directories {
        if let Ok(directory) = directory {
            let directory = directory.file_name();
            // The others have no entries.
            if directory.len() <= 2 {
                add_files(rt, names, above, directory)?;
            }
        }
    }
    Ok(())
}

/// The names of the entries that are installed: of the files below the directories in which `ti-tic`
/// looks for them, if a source can use them. What cannot be read is passed over.
///
/// # Errors
/// Out of memory.
pub fn installed_names<R: Env + Files + AllocGlobal + Clone + Drop>(
    rt: &R,
) -> Result<Installed, AllocError> {
    let mut names = BTreeSet::new(rt.alloc());
    for directory in &directories(rt)? {
        add_entries(rt, &mut names, directory.as_str())?;
    }
    Installed::of(rt.alloc(), names)
}
