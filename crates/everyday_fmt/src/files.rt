//! What becomes of a file, and of files in turn.
ghost use Rattle.std.specs.Prelude.{◌≡◌, IfOk, OnErr, OnOk, map};
ghost use Rattle.std.specs.String.{string_bytes};
ghost use Rattle.everyday_fmt.specs.Fates.{FormatsFile, FormatsFiles, StopsAmong, Stays, TellsFailure, held};

use crate::changes::changed_text;
use crate::options::FmtOptions;
use crate::reasons::ReasonedTree;
use std::alloc::{AllocError, Global};
use tools_devices::TreeFault;

/// What becomes of a file.
#[derive(Debug, PartialEq, Eq, Drop)]
pub enum Fate {
    /// It has its layout.
    Same,
    /// It had another layout, and has its own now, unless it is only checked.
    Changed,
    /// It is not there.
    Absent,
    /// It could not be read or written, and what the system says of that.
    Failed(String),
}

/// A file, and what became of it.
#[derive(Debug, PartialEq, Eq, Drop)]
pub struct Done {
    /// Its path.
    pub path: String,
    /// What became of it.
    pub fate: Fate,
}

// That a call has just failed.
fn failure<T: ReasonedTree>(alloc: Global, tree: &T) -> Result<Fate, AllocError>
    ensures { IfOk result (TellsFailure (T.cause tree.now)) }
{
    Ok(Fate::Failed(tree.reason(alloc)?))
}

// Gives a file its layout, or finds out whether it has it.
fn format_file<T: ReasonedTree>(
    alloc: Global,
    tree: &mut T,
    options: FmtOptions,
    path: &str,
) -> Result<Fate, AllocError>
    ensures done { IfOk result (FormatsFile options path.now (held T.files T.failures T.cause tree.old) (held T.files T.failures T.cause tree.new)) }
    ensures refused { OnErr result (Stays options path.now (T.files tree.old) (T.files tree.new)) }
{
    let source = match tree.read(alloc, path, usize::MAX) {
        Ok(Some(source)) => source,
        Ok(None) => return Ok(Fate::Absent),
        Err(TreeFault::Failed) => return failure(alloc, tree),
        Err(TreeFault::Memory) => return Err(AllocError),
    };
    let Some(text) = changed_text(alloc, options, source.as_slice())? else {
        return Ok(Fate::Same);
    };
    if options.check {
        return Ok(Fate::Changed);
    }
    match tree.write(path, text.as_slice()) {
        Ok(()) => Ok(Fate::Changed),
        Err(TreeFault::Failed) => failure(alloc, tree),
        Err(TreeFault::Memory) => Err(AllocError),
    }
}

/// Gives each of these files its layout, in order, or finds out whether it has it. `done`, which is
/// empty, then has what became of them.
///
/// # Errors
/// Out of memory: the files up to some have their layouts, and of the others at most the next one
/// has changed.
pub(crate) fn format_each<T: ReasonedTree>(
    alloc: Global,
    tree: &mut T,
    options: FmtOptions,
    paths: &[String],
) -> Result<Vec<Done>, AllocError>
    ensures done { IfOk result (λ done. FormatsFiles options (map string_bytes paths.now) (held T.files T.failures T.cause tree.old) (held T.files T.failures T.cause tree.new) done.items) }
    ensures refused { OnErr result (StopsAmong options (map string_bytes paths.now) (held T.files T.failures T.cause tree.old) (T.files tree.new)) }
{
    let mut done = Vec::with_capacity(alloc, paths.len())?;
    for path in paths {
        let copy = String::from_str(alloc, path.as_str())?;
        let fate = format_file(alloc, tree, options, path.as_str())?;
        done.push(Done { path: copy, fate })?;
    }
    Ok(done)
}
