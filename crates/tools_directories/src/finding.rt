//! The file of a terminal's entry.
ghost use Rattle.std.specs.Prelude.{◌≡◌, ◌<◌, All, IfOk, OnErr, length, map, option_map};
ghost use Rattle.std.specs.String.{string_bytes};
ghost use Rattle.ti_text.specs.Ascii as ascii;
ghost use Rattle.tools_directories.specs.Paths.{paths_of};
ghost use Rattle.tools_directories.specs.Finding.{Finds, FindsEntry, HasFailed, file_of};

use crate::paths::{hexadecimal_paths, letter_paths};
use std::alloc::{AllocError, Global};
use ti_source::is_lookup_name;
use tools_devices::{ToolError, Tree, TreeFault};

// The most bytes of a file that may be an entry.
const FILE_MAX: usize = 65_536;

/// The file of a terminal's entry: where it is, and its bytes.
#[derive(Debug, Drop)]
pub struct Found {
    /// The path of the file.
    pub path: String,
    /// Its bytes; of a file over 65,536 bytes the first 65,537.
    pub bytes: Vec<u8>,
}

// The first of the files at these paths that there is.
fn search<T: Tree>(
    alloc: Global,
    tree: &mut T,
    paths: &[String],
) -> Result<Option<Found>, AllocError>
    ensures found { IfOk result (λ found. Finds (T.files tree.old) (map string_bytes paths.now)
        (T.failures tree.old) (T.failures tree.new) (option_map file_of found)) }
    ensures kept { T.files tree.new ≡ T.files tree.old }
    ensures failed { OnErr result (HasFailed (T.failures tree.old) (T.failures tree.new)) }
{
    for path in paths {
        match tree.read(alloc, path.as_str(), FILE_MAX) {
            Ok(Some(bytes)) => {
                let path = String::from_str(alloc, path.as_str())?;
                return Ok(Some(Found { path, bytes }));
            }
            Ok(None) => {}
            Err(TreeFault::Failed) => {}
            Err(TreeFault::Memory) => return Err(AllocError),
        }
    }
    Ok(None)
}

// The first of the files of a name that there is: by its letter in all directories, and only then in
// hexadecimal.
fn search_all<T: Tree>(
    alloc: Global,
    tree: &mut T,
    name: &[u8],
    directories: &[String],
) -> Result<Option<Found>, AllocError>
    requires some { 0 < length name.now }
    requires ascii { All (λ byte. byte < ascii.size) name.now }
    ensures found { IfOk result (λ found. Finds (T.files tree.old) (paths_of name.now (map string_bytes directories.now))
        (T.failures tree.old) (T.failures tree.new) (option_map file_of found)) }
    ensures kept { T.files tree.new ≡ T.files tree.old }
    ensures failed { OnErr result (HasFailed (T.failures tree.old) (T.failures tree.new)) }
{
    let letters = letter_paths(alloc, name, directories)?;
    if let Some(found) = search(alloc, tree, letters.as_slice())? {
        return Ok(Some(found));
    }
    let others = hexadecimal_paths(alloc, name, directories)?;
    search(alloc, tree, others.as_slice())
}

/// The file of a terminal's entry: the first that there is at the paths of [`crate::letter_paths`],
/// or else at those of [`crate::hexadecimal_paths`]. A path is skipped exactly if there is no file,
/// or if the tree fails to read it, as for a directory that may not be searched. Of a file over
/// 65,536 bytes it gives the first 65,537. The tree counts each failure, and its files stay.
///
/// # Errors
/// `NoTerminal` if the name is not a lookup name, and nothing is then read, or if there is no file;
/// `Memory`.
pub fn find<T: Tree>(
    alloc: Global,
    tree: &mut T,
    name: &str,
    directories: &[String],
) -> Result<Found, ToolError>
    ensures found { FindsEntry (T.files tree.old) name.now (map string_bytes directories.now)
        (T.failures tree.old) (T.failures tree.new) result }
    ensures kept { T.files tree.new ≡ T.files tree.old }
{
    let name = name.as_bytes();
    if !is_lookup_name(name) {
        return Err(ToolError::NoTerminal);
    }
    match search_all(alloc, tree, name, directories) {
        Ok(Some(found)) => Ok(found),
        Ok(None) => Err(ToolError::NoTerminal),
        Err(_) => Err(ToolError::Memory),
    }
}
