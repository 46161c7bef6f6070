//! The directories in which a terminal's entry is looked for, and the one into which entries are
//! written.
ghost use Rattle.std.specs.Prelude.{◌≡◌, ◌≤◌, ◌==◌, ◌++◌, ◌∷◌, [], IfOk, OnOk, Some, None, count_by, length, map, option_map, slice_get};
ghost use Rattle.std.specs.List.{slice_split};
ghost use Rattle.std.specs.Option.{option_copied};
ghost use Rattle.std.specs.String.{string_bytes};
ghost use Rattle.ti_text.specs.Ascii as ascii;
ghost use Rattle.tools_devices.specs.Searching.{listed_directories, directory_of_part, directories_of, system_directory};

use std::alloc::{AllocError, Global};

// The directory of the system's entries.
const SYSTEM_DIRECTORY: &str = "/usr/share/terminfo";

// Adds a directory.
fn add_directory(
    alloc: Global,
    directories: &mut Vec<String>,
    directory: &str,
) -> Result<(), AllocError>
    ensures { OnOk result (map string_bytes directories.new.items ≡ map string_bytes directories.old.items ++ directory.now ∷ []) }
{
    directories.push(String::from_str(alloc, directory)?)?;
    Ok(())
}

// Adds the directory that a part of TERMINFO_DIRS names; an empty part names the system's.
fn add_part(alloc: Global, directories: &mut Vec<String>, part: &str) -> Result<(), AllocError>
    ensures { OnOk result (map string_bytes directories.new.items ≡ map string_bytes directories.old.items ++ directory_of_part part.now ∷ []) }
{
    if part.is_empty() {
        return add_directory(alloc, directories, SYSTEM_DIRECTORY);
    }
    add_directory(alloc, directories, part)
}

// The parts of TERMINFO_DIRS.
fn parts(alloc: Global, dirs: &str) -> Result<Vec<&str>, AllocError>
    ensures { IfOk result (λ parts. map (λ part. part.now) parts.items ≡ slice_split (λ byte. byte == ascii.colon) dirs.now) }
{
    dirs.split(':').collect(alloc)
}

// Adds the directories that TERMINFO_DIRS names.
fn add_listed(alloc: Global, directories: &mut Vec<String>, dirs: &str) -> Result<(), AllocError>
    ensures { OnOk result (map string_bytes directories.new.items
        ≡ map string_bytes directories.old.items ++ listed_directories (Some dirs.now)) }
{
    let parts = parts(alloc, dirs)?;
    for part in &parts {
        add_part(alloc, directories, part)?;
    }
    Ok(())
}

/// The directories in which an entry is looked for, in order: `terminfo` (the value of TERMINFO) if
/// it is not empty; the parts of `dirs` (the value of TERMINFO_DIRS) between colons, an empty part
/// being `/usr/share/terminfo`; and `/usr/share/terminfo`. See term(5), "Storage location".
///
/// # Errors
/// Out of memory.
#[tactic(auto, unfolding(crate::specs::Searching::directories_of))]
pub fn places(
    alloc: Global,
    terminfo: Option<&str>,
    dirs: Option<&str>,
) -> Result<Vec<String>, AllocError>
    ensures { IfOk result (λ directories. map string_bytes directories.items
        ≡ directories_of (option_map (λ t. t.now) terminfo.entry) (option_map (λ d. d.now) dirs.entry)) }
{
    let mut directories = Vec::new(alloc);
    if let Some(terminfo) = terminfo {
        if !terminfo.is_empty() {
            add_directory(alloc, &mut directories, terminfo)?;
        }
    }
    if let Some(dirs) = dirs {
        add_listed(alloc, &mut directories, dirs)?;
    }
    add_directory(alloc, &mut directories, SYSTEM_DIRECTORY)?;
    Ok(directories)
}

/// The directory into which entries are written: `terminfo` (the value of TERMINFO) if it is not
/// empty, else `/usr/share/terminfo`. It is the first in which an entry is looked for if
/// TERMINFO_DIRS is not set.
#[tactic(auto, unfolding(crate::specs::Searching::directories_of))]
pub fn output_directory(terminfo: Option<&str>) -> &str
    ensures { Some result.now ≡ slice_get (directories_of (option_map (λ t. t.now) terminfo.entry) None) 0 }
{
    match terminfo {
        Some(terminfo) if !terminfo.is_empty() => terminfo,
        _ => SYSTEM_DIRECTORY,
    }
}

// The part at an index of a text that colons divide.
fn part_at(dirs: &[u8], index: usize) -> Option<&[u8]>
    ensures { option_copied result ≡ slice_get (slice_split (λ byte. byte == ascii.colon) dirs.now) index }
{
    dirs.split(|byte| *byte == b':').nth(index)
}

// How many colons a text has.
fn colon_count(dirs: &[u8]) -> usize
    ensures value { result ≡ count_by (λ byte. byte == ascii.colon) dirs.now }
    ensures bound { result ≤ length dirs.now }
{
    dirs.iter().filter(|byte| **byte == b':').count()
}

// The directory that the part at an index of TERMINFO_DIRS names.
#[tactic(auto, using(crate::proofs::Listed::listed_at_index))]
fn listed_at(dirs: &[u8], index: usize) -> Option<&[u8]>
    ensures { option_copied result ≡ slice_get (listed_directories (Some dirs.now)) index }
{
    let part = part_at(dirs, index)?;
    if part.is_empty() {
        return Some(SYSTEM_DIRECTORY.as_bytes());
    }
    Some(part)
}

// How many directories TERMINFO_DIRS names, if it is set.
#[tactic(auto, using(crate::proofs::Listed::listed_length))]
fn listed_count(dirs: Option<&[u8]>) -> usize
    ensures { result ≡ length (listed_directories (option_map (λ d. d.now) dirs.entry)) }
{
    match dirs {
        Some(dirs) => colon_count(dirs) + 1,
        None => 0,
    }
}

// The directory at an index of those after that of TERMINFO.
fn later_directory(dirs: Option<&[u8]>, index: usize) -> Option<&[u8]>
    ensures { option_copied result ≡ slice_get (listed_directories (option_map (λ d. d.now) dirs.entry) ++ system_directory ∷ []) index }
{
    let listed = listed_count(dirs);
    if index == listed {
        return Some(SYSTEM_DIRECTORY.as_bytes());
    }
    listed_at(dirs?, index)
}

/// The directory at an index of those in which an entry is looked for, in their order: the item of
/// `places` there. The values of TERMINFO and TERMINFO_DIRS may be any bytes, and it takes no
/// memory.
#[tactic(auto, unfolding(crate::specs::Searching::directories_of))]
pub fn directory_at<'a>(
    terminfo: Option<&'a [u8]>,
    dirs: Option<&'a [u8]>,
    index: usize,
) -> Option<&'a [u8]>
    ensures { option_copied result ≡ slice_get (directories_of (option_map (λ t. t.now) terminfo.entry) (option_map (λ d. d.now) dirs.entry)) index }
{
    let terminfo = terminfo.unwrap_or(b"");
    if terminfo.is_empty() {
        return later_directory(dirs, index);
    }
    if index == 0 {
        return Some(terminfo);
    }
    later_directory(dirs, index - 1)
}
