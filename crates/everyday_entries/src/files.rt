//! The file of an entry that is asked for.
ghost use Rattle.std.specs.Prelude.{◌≡◌, ◌==◌, map};
ghost use Rattle.std.specs.List.{list_any};
ghost use Rattle.std.specs.String.{string_bytes};
ghost use Rattle.ti_text.specs.Ascii as ascii;
ghost use Rattle.everyday_entries.specs.Files.{GivesFile, GivesFileAt, GivesNamedFile};

use crate::failure::Failure;
use std::alloc::Global;
use tools_devices::{ToolError, Tree, TreeFault};
use tools_directories::{Found, find};

// The most bytes of a file that may be an entry.
const FILE_MAX: usize = 65_536;

// Whether a name is the path of a file.
fn is_path(name: &str) -> bool
    ensures { result ≡ list_any (λ byte. byte == ascii.slash) name.now }
{
    name.as_bytes().iter().any(|byte| *byte == b'/')
}

// The file at a path.
fn file_at<T: Tree>(alloc: Global, tree: &mut T, path: &str) -> Result<Found, Failure>
    ensures file { GivesFileAt (T.files tree.old) path.now (T.failures tree.old) (T.failures tree.new) result }
    ensures kept { T.files tree.new ≡ T.files tree.old }
{
    match tree.read(alloc, path, FILE_MAX) {
        Ok(Some(bytes)) => {
            let path = String::from_str(alloc, path)?;
            Ok(Found { path, bytes })
        }
        Ok(None) => Err(Failure::Absent(String::from_str(alloc, path)?)),
        Err(TreeFault::Failed) => Err(Failure::Unreadable(String::from_str(alloc, path)?)),
        Err(TreeFault::Memory) => Err(Failure::Stopped(ToolError::Memory)),
    }
}

/// The file of a terminal's entry, looked for in these directories as
/// [`tools_directories::find`] does.
///
/// # Errors
/// `Unknown` if the name is not a lookup name, or there is no file; out of memory.
pub fn named_file<T: Tree>(
    alloc: Global,
    tree: &mut T,
    name: &str,
    directories: &[String],
) -> Result<Found, Failure>
    ensures file { GivesNamedFile (T.files tree.old) name.now (map string_bytes directories.now)
        (T.failures tree.old) (T.failures tree.new) result }
    ensures kept { T.files tree.new ≡ T.files tree.old }
{
    match find(alloc, tree, name, directories) {
        Ok(found) => Ok(found),
        Err(ToolError::NoTerminal) => Err(Failure::Unknown(String::from_str(alloc, name)?)),
        Err(error) => Err(Failure::Stopped(error)),
    }
}

/// The file of a name: if it has a slash, the file at that path, else that of the terminal's entry
/// in these directories. Of a file over 65,536 bytes it gives the first 65,537. The tree counts
/// each failure, and its files stay.
///
/// # Errors
/// `Absent` if there is no file at the path, and `Unreadable` if the tree fails to read it; of other
/// names `Unknown`; out of memory.
pub fn entry_file<T: Tree>(
    alloc: Global,
    tree: &mut T,
    name: &str,
    directories: &[String],
) -> Result<Found, Failure>
    ensures file { GivesFile (T.files tree.old) name.now (map string_bytes directories.now)
        (T.failures tree.old) (T.failures tree.new) result }
    ensures kept { T.files tree.new ≡ T.files tree.old }
{
    if is_path(name) {
        return file_at(alloc, tree, name);
    }
    named_file(alloc, tree, name, directories)
}
