//! A tree of files that says why a call failed.
ghost use Rattle.std.specs.Prelude.{◌≡◌, ℕ, List, Option, None, Some, IfOk, codes};
ghost use Rattle.std.specs.String.{string_bytes};
ghost use Rattle.everyday_fmt.specs.Fates.{IsReason};

use std::alloc::{AllocError, Global};
use std::rt::{Clock, Files};
use tools_devices::{MemTree, Tree};
use tools_disk::{DiskTree, reason};

/// A tree of files that says why the last of its calls that failed did so.
pub trait ReasonedTree: Tree {
    // why it did, if that is known
    ghost cause: { Self → Option (List ℕ) } = { λ _. None };

    /// Why the last of the calls that failed did so, in the system's words, such as `Permission
    /// denied`.
    ///
    /// # Errors
    /// `AllocError` if memory ran out.
    fn reason(&self, alloc: Global) -> Result<String, AllocError>
        ensures { IfOk result (λ text. IsReason (cause self.now) (string_bytes text)) };
}

impl ReasonedTree for MemTree {
    ghost cause = { λ _. Some (codes "Input/output error") };

    fn reason(&self, alloc: Global) -> Result<String, AllocError> {
        String::from_str(alloc, "Input/output error")
    }
}

impl<'a, R: Files + Clock + AllocGlobal> ReasonedTree for DiskTree<'a, R> {
    fn reason(&self, alloc: Global) -> Result<String, AllocError> {
        match self.last_error() {
            Some(error) => reason(alloc, error),
            None => String::from_str(alloc, "Input/output error"),
        }
    }
}
