//! The entries that files are.
ghost use Rattle.std.specs.Prelude.{IfErr, IfOk, false, map, true};
ghost use Rattle.everyday_infocmp.specs.Entries.{AreEntries, IsBadFile, IsEntry, IsRefusalOf, IsRefused, plain_entry};
ghost use Rattle.user_listing.specs.Entries.{extended_seen};

use everyday_entries::Failure;
use std::alloc::Global;
use ti_layout::View;
use tools_devices::{ToolError, entry};
use tools_directories::{Found, read};
use user_extension::ExtensionError;
use user_listing::ExtendedEntry;

// The refusal of a file.
fn bad_entry(alloc: Global, file: &Found, why: ExtensionError) -> Failure
    ensures { IsRefusalOf file.now why result }
{
    match String::from_str(alloc, file.path.as_str()) {
        Ok(path) => Failure::BadEntry(path, why),
        Err(_) => Failure::Stopped(ToolError::Memory),
    }
}

// The entry of a file.
fn view_of<'a>(alloc: Global, file: &'a Found) -> Result<View<'a>, Failure>
    ensures ok { IfOk result (λ view. IsEntry false file.now (plain_entry view)) }
    ensures err { IfErr result (IsRefused false file.now) }
{
    match entry(file.bytes.as_slice()) {
        Ok(view) => Ok(view),
        Err(ToolError::BadEntry(why)) => Err(bad_entry(alloc, file, ExtensionError::Entry(why))),
        Err(_) => Err(Failure::Stopped(ToolError::Memory)),
    }
}

/// The entries of these files, without user-defined capabilities.
///
/// # Errors
/// `BadEntry` at the first that is not an entry; out of memory.
pub fn plain_entries<'a>(alloc: Global, files: &'a [Found]) -> Result<Vec<View<'a>>, Failure>
    ensures ok { IfOk result (λ views. AreEntries false files.now (map (λ view. plain_entry view) views.items)) }
    ensures err { IfErr result (IsBadFile false files.now) }
{
    let mut views = Vec::new(alloc);
    for file in files {
        let view = match view_of(alloc, file) {
            Ok(view) => view,
            Err(failure) => return Err(failure),
        };
        if views.push(view).is_err() {
            return Err(Failure::Stopped(ToolError::Memory));
        }
    }
    Ok(views)
}

// The entry of a file with its user-defined capabilities.
fn extended_of<'a>(alloc: Global, file: &'a Found) -> Result<ExtendedEntry<'a>, Failure>
    ensures ok { IfOk result (λ entry. IsEntry true file.now (extended_seen entry)) }
    ensures err { IfErr result (IsRefused true file.now) }
{
    match read(file.bytes.as_slice()) {
        Ok((view, extension)) => Ok(ExtendedEntry { view, extension }),
        Err(why) => Err(bad_entry(alloc, file, why)),
    }
}

/// The entries of these files, with their user-defined capabilities.
///
/// # Errors
/// `BadEntry` at the first that is not an entry; out of memory.
pub fn extended_entries<'a>(
    alloc: Global,
    files: &'a [Found],
) -> Result<Vec<ExtendedEntry<'a>>, Failure>
    ensures ok { IfOk result (λ entries. AreEntries true files.now (map (λ entry. extended_seen entry) entries.items)) }
    ensures err { IfErr result (IsBadFile true files.now) }
{
    let mut entries = Vec::new(alloc);
    for file in files {
        let entry = match extended_of(alloc, file) {
            Ok(entry) => entry,
            Err(failure) => return Err(failure),
        };
        if entries.push(entry).is_err() {
            return Err(Failure::Stopped(ToolError::Memory));
        }
    }
    Ok(entries)
}
