//! Writes the files that a tool made.
ghost use Rattle.std.specs.Prelude.{◌≡◌, ◌+◌, IfErr, OnErr, OnOk};
ghost use Rattle.tools_devices.specs.Placing.{entries, placed_entry};
ghost use Rattle.tools_devices.specs.Tree.{ChangesOnly, Sets, Writes, WritesUpTo, failures_by};

use crate::tree::{Tree, TreeFault};

/// A file to be written.
#[derive(Debug, PartialEq, Eq, Drop)]
pub struct File {
    /// Where the file is to be: a path with `/` between its parts.
    pub path: String,
    /// What the file is to hold.
    pub bytes: Vec<u8>,
}

// Writes one file.
fn place_one<T: Tree>(tree: &mut T, file: &File) -> Result<(), TreeFault>
    ensures written { OnOk result (Sets (placed_entry file.now) (T.files tree.old) (T.files tree.new)) }
    ensures others { OnErr result (ChangesOnly (placed_entry file.now).0 (T.files tree.old)
        (T.files tree.new)) }
    ensures steady { OnOk result (T.failures tree.new ≡ T.failures tree.old) }
    ensures counted { IfErr result (λ fault. T.failures tree.new ≡ T.failures tree.old + failures_by fault) }
{
    tree.write(file.path.as_str(), file.bytes.as_slice())
}

/// Writes the files in order, and stops at the first that is not written.
///
/// # Errors
/// How many files were written before the fault, and the fault. Of the other paths, only that of
/// the next file may have changed.
pub fn place<T: Tree>(tree: &mut T, files: &[File]) -> Result<(), (usize, TreeFault)>
    ensures all { OnOk result (Writes (entries files.now) (T.files tree.old) (T.files tree.new)) }
    ensures some { IfErr result (λ stop. WritesUpTo stop.0 (entries files.now) (T.files tree.old)
        (T.files tree.new)) }
    ensures steady { OnOk result (T.failures tree.new ≡ T.failures tree.old) }
    ensures counted { IfErr result (λ stop. T.failures tree.new ≡ T.failures tree.old + failures_by stop.1) }
{
    for (count, file) in files.iter().enumerate() {
        if let Err(fault) = place_one(tree, file) {
            return Err((count, fault));
        }
    }
    Ok(())
}
