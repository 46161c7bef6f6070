//! The files of a source's compiled entries.
ghost use Rattle.std.specs.Prelude.{◌≡◌, ◌<◌, ◌++◌, IfOk, OnOk, length};
ghost use Rattle.ti_tools.specs.EntryFiles.{files_at, source_files};
ghost use Rattle.tools_devices.specs.Placing.{entries};

use std::alloc::{AllocError, Global};
use ti_base::Database;
use tools_devices::File;
use tools_sources::add_entry_files;

// Adds the files of the entry of the block at `at`, if it has an entry.
fn add_block(
    alloc: Global,
    files: &mut Vec<File>,
    dir: &str,
    database: &Database,
    at: usize,
) -> Result<(), AllocError>
    requires { at < length database.now }
    ensures { OnOk result (entries files.new.items ≡ entries files.old.items ++ files_at dir.now database.now at) }
{
    let Some(image) = database.compiled(at) else {
        return Ok(());
    };
    add_entry_files(alloc, files, dir, database.as_ruled(), at, image)
}

/// The files of all compiled entries of a source, in the order of its blocks and of their names.
///
/// # Errors
/// `AllocError` if memory ran out.
pub fn entry_files(alloc: Global, database: &Database, dir: &str) -> Result<Vec<File>, AllocError>
    ensures { IfOk result (λ files. entries files.items ≡ source_files dir.now database.now) }
{
    let mut files = Vec::new(alloc);
    for at in 0..database.len() {
        add_block(alloc, &mut files, dir, database, at)?;
    }
    Ok(files)
}
