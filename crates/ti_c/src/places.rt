//! The directories of entries, and the file of a name below one.
ghost use Rattle.std.specs.Prelude.{◌≡◌, ◌≢◌, ◌⊎◌, IfOk, false, is_some, slice_get, unwrap_or};
ghost use Rattle.tools_directories.specs.Directories.{system_directories};
ghost use Rattle.ti_source.specs.Header.{IsLookupName};
ghost use Rattle.ti_c.specs.Places.{directory_at, path_bytes, IsPathWritten, IsTooLong};

use crate::answers::{BAD_NAME, NO_MEMORY, NO_ROOM, OK, Outcome, Text, write_to};
use std::alloc::{AllocError, Global};
use ti_source::is_lookup_name;
use tools_devices::directory_at;

/// The directory at a place of the order in which entries are looked for: the value of TERMINFO, if
/// it is not empty; the parts of TERMINFO_DIRS between colons, if it is set, with
/// `/usr/share/terminfo` for an empty part; and `/usr/share/terminfo`. False if there are not that
/// many, and `found` is then as it was.
#[unsafe(no_mangle)]
pub extern "C" fn ti_places<'a>(
    terminfo: &'a [u8],
    dirs_set: bool,
    dirs: &'a [u8],
    index: u32,
    found: &mut Text<'a>,
) -> bool
    ensures is { result ≡ is_some (directory_at terminfo.now dirs_set dirs.now index) }
    ensures place { found.new.bytes.now ≡ unwrap_or (directory_at terminfo.now dirs_set dirs.now index) found.old.bytes.now }
    ensures kept { result ≡ false → found.new ≡ found.old }
{
    let listed = if dirs_set { Some(dirs) } else { None };
    match directory_at(Some(terminfo), listed, index as usize) {
        Some(directory) => {
            found.bytes = directory;
            true
        }
        None => false,
    }
}

// The directories of the system's entries, in order.
const SYSTEM_DIRECTORIES: [&[u8]; 3] = [b"/etc/terminfo", b"/lib/terminfo", b"/usr/share/terminfo"];

/// The system's directory at a place of the order in which entries are looked for on Debian. False
/// if there are not that many, and `found` is then as it was.
#[unsafe(no_mangle)]
pub extern "C" fn ti_system_directories(index: u32, found: &mut Text<'static>) -> bool
    ensures is { result ≡ is_some (slice_get system_directories index) }
    ensures place { found.new.bytes.now ≡ unwrap_or (slice_get system_directories index) found.old.bytes.now }
    ensures kept { result ≡ false → found.new ≡ found.old }
{
    match SYSTEM_DIRECTORIES.get(index as usize) {
        Some(directory) => {
            found.bytes = directory;
            true
        }
        None => false,
    }
}

// The path of a name's entry below a directory, with a NUL after it.
fn path(alloc: Global, dir: &[u8], name: &[u8]) -> Result<Vec<u8>, AllocError>
    ensures { IfOk result (λ path. path.items ≡ path_bytes dir.now name.now) }
{
    let mut path = Vec::from_slice(alloc, dir)?;
    path.push(b'/')?;
    if let Some(first) = name.first() {
        path.push(*first)?;
    }
    path.push(b'/')?;
    path.extend_from_slice(name)?;
    path.push(0)?;
    Ok(path)
}

/// Writes to the front of `out` the path of a name's entry below a directory, with a NUL after it.
/// The answer is `OK` with how many bytes that are; `NO_ROOM` with how many are needed; `BAD_NAME`
/// if no terminal can have the name; `NO_MEMORY`. After all but `OK`, `out` is as it was.
#[unsafe(no_mangle)]
pub extern "C" fn ti_path(alloc: Global, dir: &[u8], name: &[u8], out: &mut [u8]) -> Outcome
    ensures known { (result.status ≡ OK) ⊎ (result.status ≡ NO_MEMORY) ⊎ (result.status ≡ NO_ROOM) ⊎ (result.status ≡ BAD_NAME) }
    ensures name { result.status ≢ BAD_NAME → IsLookupName name.now }
    ensures bad_name { result.status ≡ BAD_NAME → ¬ IsLookupName name.now }
    ensures ok { result.status ≡ OK → IsPathWritten dir.now name.now out.old out.new result.size }
    ensures no_room { result.status ≡ NO_ROOM → IsTooLong dir.now name.now out.old result.size }
    ensures kept { result.status ≢ OK → out.new ≡ out.old }
{
    if !is_lookup_name(name) {
        return Outcome {
            status: BAD_NAME,
            size: 0,
        };
    }
    let Ok(path) = path(alloc, dir, name) else {
        return Outcome {
            status: NO_MEMORY,
            size: 0,
        };
    };
    let size = path.len();
    let status = if write_to(path.as_slice(), out) {
        OK
    } else {
        NO_ROOM
    };
    Outcome { status, size }
}
