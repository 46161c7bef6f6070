//! The directories in which a terminal's entry is looked for.
ghost use Rattle.std.specs.Prelude.{◌≡◌, ◌==◌, ◌++◌, ◌∷◌, [], IfOk, OnOk, map};
ghost use Rattle.std.specs.List.{list_any, slice_split};
ghost use Rattle.std.specs.Str.{bytes_eq};
ghost use Rattle.std.specs.String.{string_bytes};
ghost use Rattle.ti_text.specs.Ascii as ascii;
ghost use Rattle.tools_directories.specs.Directories.{directories_of, directory_of_part, each_once, home_directory_of, listed_directories, named_directories, system_directories, variables_of};

use crate::environment::Environment;
use std::alloc::{AllocError, Global};

// The directories of the system's entries, in order. Packages of Debian put entries into the last
// two, and who runs the machine puts them into the first.
pub(crate) const LOCAL_DIRECTORY: &str = "/etc/terminfo";

const ESSENTIAL_DIRECTORY: &str = "/lib/terminfo";

const SHARED_DIRECTORY: &str = "/usr/share/terminfo";

// Where a user's own entries are below the home directory.
pub(crate) const BELOW_HOME: &str = "/.terminfo";

// Adds a directory.
fn add_directory(
    alloc: Global,
    directories: &mut Vec<String>,
    directory: &str,
) -> Result<(), AllocError>
    ensures { OnOk result (map string_bytes directories.new.items ≡ map string_bytes directories.old.items ++ directory.now ∷ []) }
{
    directories.push(String::from_str(alloc, directory)?)?;
    Ok(())
}

// Adds the system's directories.
fn add_system(alloc: Global, directories: &mut Vec<String>) -> Result<(), AllocError>
    ensures { OnOk result (map string_bytes directories.new.items ≡ map string_bytes directories.old.items ++ system_directories) }
{
    add_directory(alloc, directories, LOCAL_DIRECTORY)?;
    add_directory(alloc, directories, ESSENTIAL_DIRECTORY)?;
    add_directory(alloc, directories, SHARED_DIRECTORY)?;
    Ok(())
}

// Adds the directory of a user's own entries.
fn add_home(alloc: Global, directories: &mut Vec<String>, home: &str) -> Result<(), AllocError>
    ensures { OnOk result (map string_bytes directories.new.items ≡ map string_bytes directories.old.items ++ home_directory_of home.now ∷ []) }
{
    let mut directory = String::from_str(alloc, home)?;
    directory.push_str(BELOW_HOME)?;
    directories.push(directory)?;
    Ok(())
}

// Adds the directory that a part of TERMINFO_DIRS names; an empty part names the first of the
// system's.
fn add_part(alloc: Global, directories: &mut Vec<String>, part: &str) -> Result<(), AllocError>
    ensures { OnOk result (map string_bytes directories.new.items ≡ map string_bytes directories.old.items ++ directory_of_part part.now ∷ []) }
{
    if part.is_empty() {
        return add_directory(alloc, directories, LOCAL_DIRECTORY);
    }
    add_directory(alloc, directories, part)
}

// The parts of TERMINFO_DIRS.
fn parts(alloc: Global, dirs: &str) -> Result<Vec<&str>, AllocError>
    ensures { IfOk result (λ parts. map (λ part. part.now) parts.items ≡ slice_split (λ byte. byte == ascii.colon) dirs.now) }
{
    dirs.split(':').collect(alloc)
}

// Adds the directories that TERMINFO_DIRS names.
fn add_listed(alloc: Global, directories: &mut Vec<String>, dirs: &str) -> Result<(), AllocError>
    ensures { OnOk result (map string_bytes directories.new.items ≡ map string_bytes directories.old.items ++ listed_directories dirs.now) }
{
    let parts = parts(alloc, dirs)?;
    for part in &parts {
        add_part(alloc, directories, part)?;
    }
    Ok(())
}

// All directories that are named, in order; one may be named twice.
fn named(alloc: Global, environment: &Environment<'_>) -> Result<Vec<String>, AllocError>
    ensures { IfOk result (λ named. map string_bytes named.items ≡ named_directories (variables_of environment.now)) }
{
    let mut directories = Vec::new(alloc);
    if let Some(terminfo) = environment.terminfo {
        if !terminfo.is_empty() {
            add_directory(alloc, &mut directories, terminfo)?;
        }
    }
    if let Some(home) = environment.home {
        if !home.is_empty() {
            add_home(alloc, &mut directories, home)?;
        }
    }
    if let Some(dirs) = environment.dirs {
        add_listed(alloc, &mut directories, dirs)?;
    }
    add_system(alloc, &mut directories)?;
    Ok(directories)
}

// Whether a directory is among others.
fn is_among(directories: &[String], directory: &str) -> bool
    ensures { result ≡ list_any (λ other. bytes_eq (string_bytes other) directory.now) directories.now }
{
    directories.iter().any(|other| other.as_str() == directory)
}

// Each of the directories once, at its first place.
fn each_once(alloc: Global, named: &[String]) -> Result<Vec<String>, AllocError>
    ensures { IfOk result (λ each. map string_bytes each.items ≡ each_once (map string_bytes named.now)) }
{
    let mut each = Vec::new(alloc);
    for directory in named {
        if !is_among(each.as_slice(), directory.as_str()) {
            add_directory(alloc, &mut each, directory.as_str())?;
        }
    }
    Ok(each)
}

/// The directories in which an entry is looked for, in order: `TERMINFO` if it is not empty;
/// `.terminfo` below `HOME` if that is not empty; the parts of `TERMINFO_DIRS` between colons, an
/// empty part being `/etc/terminfo`; and the system's, `/etc/terminfo`, `/lib/terminfo` and
/// `/usr/share/terminfo`. Each is there once, at the first place that names it. See term(5),
/// "Storage location".
///
/// # Errors
/// `AllocError` if memory ran out.
#[tactic(auto, unfolding(crate::specs::Directories::directories_of))]
pub fn entry_directories(
    alloc: Global,
    environment: &Environment<'_>,
) -> Result<Vec<String>, AllocError>
    ensures { IfOk result (λ directories. map string_bytes directories.items ≡ directories_of (variables_of environment.now)) }
{
    let named = named(alloc, environment)?;
    each_once(alloc, named.as_slice())
}
