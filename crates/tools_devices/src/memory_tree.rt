//! A tree of files that is held in memory, and that fails at a call that is set.
ghost use Rattle.std.specs.Prelude.{◌≡◌, ◌+◌, ◌<◌, IfErr, IfOk, OnErr, OnOk, Some, option_map};
ghost use Rattle.tools_devices.specs.Tree.{FindsFile, HasAtMost, Sets};
ghost use Rattle.tools_devices.specs.declared.tree.TreeFault.TheVariants.{Failed};

use crate::tally::Tally;
use crate::tree::{Tree, TreeFault};
use std::alloc::{AllocError, Global};
use std::collections::BTreeMap;

/// A tree of files in memory. A contract sees its map from paths to bytes, how often it has failed,
/// and which call it is to fail.
#[derive(Drop)]
pub struct MemTree {
    alloc: Global,
    held: BTreeMap<String, Vec<u8>>,
    due: u64,
    failures: Tally,
}

impl MemTree {
    ghost use Rattle.tools_devices.specs.Tree.{IsBare};
    ghost use Rattle.tools_devices.specs.MemoryTree.{FailsWhereSet, SameFiles, due_of, tree_failures_of, files_of};

    /// A tree without files, no call of which is to fail. Takes no memory.
    pub fn new(alloc: Global) -> MemTree
        ensures files { IsBare (files_of result) }
        ensures due { due_of result ≡ 0 }
        ensures failures { tree_failures_of result ≡ 0 }
    {
        MemTree {
            alloc,
            held: BTreeMap::new(alloc),
            due: 0,
            failures: Tally::zero(),
        }
    }

    /// The bytes of the file at `path`, or `None` if there is no such file. Takes no memory, and is
    /// not a call that may fail.
    pub fn file(&self, path: &str) -> Option<&[u8]>
        ensures { option_map (λ bytes. bytes.now) result ≡ files_of self.now path.now }
    {
        self.held.get(path).map(|bytes| bytes.as_slice())
    }

    /// Has the `n`th call of `read` and `write` from now, counted from 1, return `Failed` once.
    /// That call changes no file. An earlier setting for a call that is still to come no longer
    /// holds.
    pub fn fail_at(&mut self, n: u64)
        requires { 0 < n }
        ensures due { due_of self.new ≡ n }
        ensures files { files_of self.new ≡ files_of self.old }
        ensures failures { tree_failures_of self.new ≡ tree_failures_of self.old }
    {
        self.due = n;
    }

    // Counts one call, which fails if it was to.
    fn count_call(&mut self) -> Result<(), TreeFault>
        ensures failing { FailsWhereSet self.old self.new result }
        ensures failed { IfErr result (λ fault. fault ≡ Failed) }
        ensures held { self.new.held ≡ self.old.held }
    {
        let due = self.due == 1;
        self.due = self.due.saturating_sub(1);
        if due {
            self.failures = self.failures.plus_one();
            return Err(TreeFault::Failed);
        }
        Ok(())
    }

    // A copy of the front of the file at `path`.
    fn front(&self, alloc: Global, path: &str, limit: usize) -> Result<Option<Vec<u8>>, AllocError>
        ensures found { IfOk result (λ found. FindsFile path.now (limit + 1) (Some (files_of self.now))
            (option_map (λ bytes. bytes.items) found)) }
        ensures bound { IfOk result (λ found. HasAtMost (limit + 1) (option_map (λ bytes. bytes.items) found)) }
    {
        let Some(bytes) = self.file(path) else {
            return Ok(None);
        };
        let front = if limit < bytes.len() {
            &bytes[..limit + 1]
        } else {
            bytes
        };
        let copy = Vec::from_slice(alloc, front)?;
        Ok(Some(copy))
    }

    // Puts a file at `path`.
    fn insert(&mut self, path: &str, bytes: &[u8]) -> Result<(), AllocError>
        ensures written { OnOk result (Sets (path.now, bytes.now) (Some (files_of self.old))
            (Some (files_of self.new))) }
        ensures refused { OnErr result (SameFiles self.old self.new) }
        ensures due { due_of self.new ≡ due_of self.old }
        ensures failures { tree_failures_of self.new ≡ tree_failures_of self.old }
    {
        let path = String::from_str(self.alloc, path)?;
        let bytes = Vec::from_slice(self.alloc, bytes)?;
        self.held.insert(path, bytes)?;
        Ok(())
    }
}

impl Tree for MemTree {
    ghost use Rattle.tools_devices.specs.MemoryTree.{FailsWhereSet, SameFiles, tree_failures_of, files_of};

    ghost files = { λ tree. Some (files_of tree) };

    ghost failures = { λ tree. tree_failures_of tree };

    fn read(
        &mut self,
        alloc: Global,
        path: &str,
        limit: usize,
    ) -> Result<Option<Vec<u8>>, TreeFault>
        ensures found { IfOk result (λ found. FindsFile path.now (limit + 1) (Some (files_of self.old))
            (option_map (λ bytes. bytes.items) found)) }
        ensures bound { IfOk result (λ found. HasAtMost (limit + 1) (option_map (λ bytes. bytes.items) found)) }
        ensures kept { files_of self.new ≡ files_of self.old }
        ensures failing { FailsWhereSet self.old self.new result }
    {
        self.count_call()?;
        match self.front(alloc, path, limit) {
            Ok(found) => Ok(found),
            Err(_) => Err(TreeFault::Memory),
        }
    }

    fn write(&mut self, path: &str, bytes: &[u8]) -> Result<(), TreeFault>
        ensures written { OnOk result (Sets (path.now, bytes.now) (Some (files_of self.old))
            (Some (files_of self.new))) }
        ensures refused { OnErr result (SameFiles self.old self.new) }
        ensures failing { FailsWhereSet self.old self.new result }
    {
        self.count_call()?;
        match self.insert(path, bytes) {
            Ok(()) => Ok(()),
            Err(_) => Err(TreeFault::Memory),
        }
    }
}
