//! The trees of files that the tools read and write.
ghost use Rattle.std.specs.Prelude.{◌≡◌, ◌+◌, ℕ, Option, None, IfOk, OnErr, OnOk, option_map};
ghost use Rattle.tools_devices.specs.Tree.{ChangesOnly, Files, FindsFile, HasAtMost, Sets, failures_in};

use std::alloc::Global;
use thiserror::Error;

/// Why a tree did not read or write a file.
#[derive(Clone, Copy, Debug, PartialEq, Eq, Error)]
pub enum TreeFault {
    /// What holds the files failed. The tree counts one failure more.
    #[error("the file could not be read or written")]
    Failed,
    /// A growth of memory was refused.
    #[error("out of memory")]
    Memory,
}

/// A tree of files. A contract sees the files that it holds, if that is known, and how often what
/// holds them has failed.
pub trait Tree {
    // the files that the tree holds, if that is known
    ghost files: { Self → Option Files } = { λ _. None };

    // how often what holds the files has failed
    ghost failures: { Self → ℕ };

    /// The bytes of the file at `path`; of a file longer than `limit` bytes, its first `limit + 1`.
    /// `None`: there is no such file.
    ///
    /// # Errors
    /// `Failed` if the file is there and could not be read, then `Memory`.
    fn read(
        &mut self,
        alloc: Global,
        path: &str,
        limit: usize,
    ) -> Result<Option<Vec<u8>>, TreeFault>
        ensures found { IfOk result (λ found. FindsFile path.now (limit + 1) (files self.old)
            (option_map (λ bytes. bytes.items) found)) }
        ensures bound { IfOk result (λ found. HasAtMost (limit + 1) (option_map (λ bytes. bytes.items) found)) }
        ensures kept { files self.new ≡ files self.old }
        ensures counted { failures self.new ≡ failures self.old + failures_in result };

    /// Writes a file of these bytes, in place of the one at `path` if there is one.
    ///
    /// # Errors
    /// `Failed` if the file could not be written, then `Memory`. The file at `path` may have
    /// changed, and no other.
    fn write(&mut self, path: &str, bytes: &[u8]) -> Result<(), TreeFault>
        ensures written { OnOk result (Sets (path.now, bytes.now) (files self.old) (files self.new)) }
        ensures others { OnErr result (ChangesOnly path.now (files self.old) (files self.new)) }
        ensures counted { failures self.new ≡ failures self.old + failures_in result };
}
