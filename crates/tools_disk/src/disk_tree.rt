//! The files of the system, as a tree.
ghost use Rattle.std.specs.Prelude.{◌≡◌, ◌+◌, IfOk, option_map};
ghost use Rattle.tools_devices.specs.Tree.{HasAtMost, failures_by};

use crate::made_directories::MadeDirectories;
use crate::new_file::{is_absent, replace_file};
use crate::whole::read_up_to;
use std::alloc::Global;
use std::fs;
use std::io::{self, ErrorKind};
use std::rt::{Clock, Files};
use tools_devices::{Tally, Tree, TreeFault};

// How many bytes of a file are asked for at a time. Most entries have at most twice as many, and
// to make room for more would take longer than to read them.
const PIECE: usize = 2048;

/// The files of the system. What they hold is not known, so a contract sees only the failures.
///
/// Only a regular file is read. A file is replaced whole: its bytes go into a new file in the same
/// directory, which then takes its name. So a failed write leaves the old file, a link at the path
/// is replaced and not followed, and another name of the old file still has the old bytes.
#[derive(Drop)]
pub struct DiskTree<'a, R: Files + Clock + AllocGlobal> {
    rt: &'a R,
    failures: Tally,
    made: MadeDirectories,
    last: Option<io::Error>,
}

impl<'a, R: Files + Clock + AllocGlobal> DiskTree<'a, R> {
    /// The files that `rt` reaches. A path that does not begin with `/` starts at the current
    /// directory.
    pub fn new(rt: &'a R) -> DiskTree<'a, R> {
        DiskTree {
            rt,
            failures: Tally::zero(),
            made: MadeDirectories::new(rt),
            last: None,
        }
    }

    /// Why the last of the calls that failed did so, if one did.
    pub fn last_error(&self) -> Option<&io::Error> {
        self.last.as_ref()
    }

    // What a failure of the system is to the tools.
    fn fault(&mut self, error: io::Error) -> TreeFault
        ensures { self.new.failures.count ≡ self.old.failures.count + failures_by result }
    {
        if error.kind() == ErrorKind::OutOfMemory {
            return TreeFault::Memory;
        }
        self.failures = self.failures.plus_one();
        self.last = Some(error);
        TreeFault::Failed
    }
}

impl<'a, R: Files + Clock + AllocGlobal> Tree for DiskTree<'a, R> {
    ghost failures = { λ tree. tree.failures.count };

    fn read(
        &mut self,
        alloc: Global,
        path: &str,
        limit: usize,
    ) -> Result<Option<Vec<u8>>, TreeFault> {
        match read_file(self.rt, alloc, path, limit) {
            Ok(found) => Ok(found),
            Err(error) => Err(self.fault(error)),
        }
    }

    fn write(&mut self, path: &str, bytes: &[u8]) -> Result<(), TreeFault> {
        match replace_file(self.rt, &mut self.made, path, bytes) {
            Ok(()) => Ok(()),
            Err(error) => Err(self.fault(error)),
        }
    }
}

// The first `limit + 1` bytes of a file, or all if it has fewer; `None` if it is not there. A path
// that is not a regular file is an error: to open a FIFO would wait for a writer.
fn read_file<R: Files>(
    rt: &R,
    alloc: Global,
    path: &str,
    limit: usize,
) -> io::Result<Option<Vec<u8>>>
    ensures { IfOk result (λ found. HasAtMost (limit + 1) (option_map (λ bytes. bytes.items) found)) }
{
    match open_regular(rt, path) {
        Ok(mut file) => {
            let mut piece = [0u8; PIECE];
            Ok(Some(read_up_to(alloc, &mut file, &mut piece, limit)?))
        }
        Err(error) if is_absent(&error) => Ok(None),
        Err(error) => Err(error),
    }
}

// Opens a regular file.
fn open_regular<R: Files>(rt: &R, path: &str) -> io::Result<R::File> {
    let found = fs::metadata(rt, path)?;
    if found.is_file() {
        return fs::open(rt, path);
    }
    if found.is_dir() {
        return Err(io::Error::from(ErrorKind::IsADirectory));
    }
    Err(io::Error::from(ErrorKind::InvalidInput))
}
