//! The file of a terminal's entry, and the entry in it.
ghost use Rattle.std.specs.Prelude.{◌≡◌, ◌+◌, ◌^◌, ◌<◌, ◌⊎◌, All, IfErr, IfOk, map, length, option_map, suc};
ghost use Rattle.std.specs.String.{string_bytes};
ghost use Rattle.ti_text.specs.Ascii as ascii;
ghost use Rattle.tools_devices.specs.declared.tool_error.ToolError.TheVariants.{Memory, ReadFault};
ghost use Rattle.tools_devices.specs.Searching.{Finds, Locates, Opens, file_bytes_max, search_failures};

use crate::paths::entry_path;
use crate::tool_error::ToolError;
use crate::tree::{Tree, TreeFault};
use std::alloc::Global;
use ti_layout::{ReadError, View};
use ti_source::is_lookup_name;

// The most bytes of a file that may be an entry.
const FILE_MAX: usize = 65_536;

// The file of a name in the first of the directories that has it. Of a file over the limit it gives
// the first `limit + 1` bytes.
fn search<T: Tree>(
    alloc: Global,
    tree: &mut T,
    name: &[u8],
    directories: &[String],
    limit: usize,
) -> Result<Option<Vec<u8>>, ToolError>
    requires some { 0 < length name.now }
    requires ascii { All (λ byte. byte < ascii.size) name.now }
    ensures found { IfOk result (λ found. Finds (limit + 1) (T.files tree.old) name.now (map string_bytes directories.now)
        (option_map (λ bytes. bytes.items) found)) }
    ensures kept { T.files tree.new ≡ T.files tree.old }
    ensures counted { T.failures tree.new ≡ T.failures tree.old + search_failures result }
    ensures faults { IfErr result (λ e. (e ≡ ReadFault) ⊎ (e ≡ Memory)) }
{
    for directory in directories {
        let path = entry_path(alloc, directory.as_str(), name)?;
        match tree.read(alloc, path.as_str(), limit) {
            Ok(Some(bytes)) => return Ok(Some(bytes)),
            Ok(None) => {}
            Err(TreeFault::Failed) => return Err(ToolError::ReadFault),
            Err(TreeFault::Memory) => return Err(ToolError::Memory),
        }
    }
    Ok(None)
}

/// The file of a terminal's entry: `D/c/n` in the first directory `D` that has it, if `n` is the
/// name and `c` its first byte. Of a file over 65,536 bytes it gives the first 65,537. The tree
/// counts one failure at `ReadFault`, and none else.
///
/// # Errors
/// `NoTerminal` if the name is not a lookup name, or no directory has its file; `ReadFault` if the
/// tree failed; `Memory`. The last two come at the directory at which they happen.
pub fn locate<T: Tree>(
    alloc: Global,
    tree: &mut T,
    name: &str,
    directories: &[String],
) -> Result<Vec<u8>, ToolError>
    ensures located { Locates (suc file_bytes_max) (T.files tree.old) name.now (map string_bytes directories.now) result }
    ensures kept { T.files tree.new ≡ T.files tree.old }
    ensures counted { T.failures tree.new ≡ T.failures tree.old + search_failures result }
{
    let name = name.as_bytes();
    if !is_lookup_name(name) {
        return Err(ToolError::NoTerminal);
    }
    match search(alloc, tree, name, directories, FILE_MAX)? {
        Some(bytes) => Ok(bytes),
        None => Err(ToolError::NoTerminal),
    }
}

// The entry that bytes within a limit are.
fn entry_within(bytes: &[u8], limit: usize) -> Result<View<'_>, ToolError>
    requires { limit + 1 < 2 ^ 64 }
    ensures { Opens limit bytes.now result }
{
    if bytes.len() <= limit {
        return match View::read(bytes) {
            Ok(view) => Ok(view),
            Err(error) => Err(ToolError::BadEntry(error)),
        };
    }
    match View::read(&bytes[..limit + 1]) {
        Ok(_) => Err(ToolError::BadEntry(ReadError::Counts)),
        Err(error) => Err(ToolError::BadEntry(error)),
    }
}

/// The entry that a file's bytes are, read in place: it takes no memory.
///
/// # Errors
/// `BadEntry` with the refusal of the bytes. Of more than 65,536 bytes it is the refusal of the
/// first 65,537, or `Counts` if these are an entry.
pub fn entry(bytes: &[u8]) -> Result<View<'_>, ToolError>
    ensures { Opens file_bytes_max bytes.now result }
{
    entry_within(bytes, FILE_MAX)
}
