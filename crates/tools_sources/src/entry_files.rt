//! The files of a compiled entry.
ghost use Rattle.std.specs.Prelude.{◌≡◌, ◌<◌, ◌++◌, ◌∷◌, [], All, OnOk, length, map};
ghost use Rattle.std.specs.Rc.{rc_slice_items};
ghost use Rattle.base_meaning.specs.OwnNames.{own_names};
ghost use Rattle.base_meaning.specs.Owner.{is_owner, readings};
ghost use Rattle.tools_devices.specs.Paths.{path_of};
ghost use Rattle.tools_devices.specs.Placing.{entries};
ghost use Rattle.tools_sources.specs.EntryFiles.{entry_files, files_for};
ghost use Rattle.tools_sources.specs.inside.Names.{IsAsciiName};

use std::alloc::{AllocError, Global};
use std::rc::RcSlice;
use ti_base::{RuledDatabase, distinct_names};
use tools_devices::{File, entry_path};

// Whether a name belongs to the block at a position.
fn owns(database: &RuledDatabase, name: &[u8], at: usize) -> bool
    ensures { result ≡ is_owner (readings database.now.texts) name.now at }
{
    match database.owner(name) {
        Some(place) => place == at,
        None => false,
    }
}

// Adds the file of a name.
fn push_file(
    alloc: Global,
    files: &mut Vec<File>,
    directory: &str,
    name: &[u8],
    image: &[u8],
) -> Result<(), AllocError>
    requires { IsAsciiName name.now }
    ensures { OnOk result (entries files.new.items ≡ entries files.old.items ++ (path_of directory.now name.now, image.now) ∷ []) }
{
    let path = entry_path(alloc, directory, name)?;
    let bytes = Vec::from_slice(alloc, image)?;
    files.push(File { path, bytes })?;
    Ok(())
}

// Adds a file of an entry for each of these names that belongs to the block at a position.
fn add_owned(
    alloc: Global,
    files: &mut Vec<File>,
    directory: &str,
    names: &[RcSlice<u8>],
    image: &[u8],
    database: &RuledDatabase,
    at: usize,
) -> Result<(), AllocError>
    requires { All IsAsciiName (map rc_slice_items names.now) }
    ensures { OnOk result (entries files.new.items ≡ entries files.old.items
        ++ files_for directory.now (own_names (readings database.now.texts) at (map rc_slice_items names.now)) image.now) }
{
    let once = distinct_names(alloc, names)?;
    for name in &once {
        let name = name.as_slice();
        if owns(database, name, at) {
            push_file(alloc, files, directory, name, image)?;
        }
    }
    Ok(())
}

/// Adds the files of an entry of the block at a position, below a directory: one for each lookup
/// name that the block owns, in the order of its names. Each file is in a directory named by the
/// first byte of the name.
///
/// # Errors
/// `AllocError` if memory ran out.
pub fn add_entry_files(
    alloc: Global,
    files: &mut Vec<File>,
    directory: &str,
    database: &RuledDatabase,
    at: usize,
    image: &[u8],
) -> Result<(), AllocError>
    requires { at < length database.now.texts }
    ensures { OnOk result (entries files.new.items ≡ entries files.old.items ++ entry_files directory.now database.now.texts at image.now) }
{
    // A law, with no code: each block is read, so its names are ASCII.
    ti_source::laws::one_reading();
    add_owned(
        alloc,
        files,
        directory,
        database.names(at),
        image,
        database,
        at,
    )
}
