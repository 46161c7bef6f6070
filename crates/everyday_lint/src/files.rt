//! What becomes of a file, and of files in turn.
ghost use Rattle.std.specs.Prelude.{◌≡◌, IfOk, OnErr, map};
ghost use Rattle.std.specs.String.{string_bytes};
ghost use Rattle.source_plain.specs.Reading.{plain_source};
ghost use Rattle.everyday_fmt.specs.Fates.{held};
ghost use Rattle.tools_devices.specs.Tree.{ChangesOnly};
ghost use Rattle.source_settings.specs.Settings.{settings_seen};
ghost use Rattle.everyday_lint.specs.Fates.{Finds, LintsFile, LintsFiles, LintsSource, Fixes, IsUnread, StopsAmong, Stays, TellsFailure};
ghost use Rattle.everyday_lint.specs.Checking.{made_in};
ghost use Rattle.everyday_lint.specs.Offers.{made_seen};

use crate::checking::{Linted, check_source, document_of, offers_in};
use crate::fixing::{fix_lines, fixed_text, made};
use crate::offers::Offer;
use crate::options::LintOptions;
use everyday_fmt::ReasonedTree;
use source_document::Document;
use source_plain::{marked_like, without_mark};
use source_settings::{Settings, Settled, settle};
use std::alloc::{AllocError, Global};
use tools_devices::TreeFault;

/// What becomes of a file.
#[derive(Debug, PartialEq, Eq, Drop)]
pub enum Fate {
    /// It was checked, and was written if fixes were made.
    Checked(Linted),
    /// It is not there.
    Absent,
    /// It could not be read or written, and what the system says of that.
    Failed(String),
    /// It was not checked, for what is settled for it is not known: the path of the file of settings, and
    /// what is wrong with it.
    Unsettled(String),
}

/// A file, and what became of it.
#[derive(Debug, PartialEq, Eq, Drop)]
pub struct Done {
    /// Its path.
    pub path: String,
    /// What became of it.
    pub fate: Fate,
}

// That a call has just failed.
fn failure<T: ReasonedTree>(alloc: Global, tree: &T) -> Result<Fate, AllocError>
    ensures { IfOk result (TellsFailure (T.cause tree.now)) }
{
    Ok(Fate::Failed(tree.reason(alloc)?))
}

// Writes a source with fixes made, and finds out about it.
fn fix_file<T: ReasonedTree>(
    alloc: Global,
    tree: &mut T,
    options: LintOptions,
    settings: &Settings,
    path: &str,
    source: &[u8],
    offers: &[&Offer],
) -> Result<Fate, AllocError>
    ensures done { IfOk result (Fixes options (settings_seen settings.now) path.now source.now (map made_seen offers.now)
        (held T.files T.failures T.cause tree.old) (held T.files T.failures T.cause tree.new)) }
    ensures refused { OnErr result (ChangesOnly path.now (T.files tree.old) (T.files tree.new)) }
{
    let text = without_mark(source);
    let fixes = fix_lines(alloc, path, text, offers)?;
    let fixed_text = marked_like(alloc, source, fixed_text(alloc, text, offers)?)?;
    let mut document = document_of(alloc, &fixed_text)?;
    let linted = check_source(
        alloc,
        options,
        settings,
        path,
        &fixed_text,
        &mut document,
        fixes,
    )?;
    match tree.write(path, &fixed_text) {
        Ok(()) => Ok(Fate::Checked(linted)),
        Err(TreeFault::Failed) => failure(alloc, tree),
        Err(TreeFault::Memory) => Err(AllocError),
    }
}

// Finds out about a source of a file, in which these fixes are made. The document is of its text.
fn lint_made<T: ReasonedTree>(
    alloc: Global,
    tree: &mut T,
    options: LintOptions,
    settings: &Settings,
    path: &str,
    source: &[u8],
    document: &mut Document,
    offers: &[&Offer],
) -> Result<Fate, AllocError>
    requires text { document.old ≡ plain_source source.now }
    requires offers { map made_seen offers.now ≡ made_in options source.now }
    ensures done { IfOk result (Finds options (settings_seen settings.now) path.now source.now (held T.files T.failures T.cause tree.old) (held T.files T.failures T.cause tree.new)) }
    ensures refused { OnErr result (Stays options path.now (T.files tree.old) (T.files tree.new)) }
{
    if offers.is_empty() {
        let fixes = Vec::new(alloc);
        let linted = check_source(alloc, options, settings, path, source, document, fixes)?;
        return Ok(Fate::Checked(linted));
    }
    fix_file(alloc, tree, options, settings, path, source, offers)
}

// Finds out about a source of a file for which this is settled, and makes the fixes that are certain, if
// fixes are made.
fn lint_settled<T: ReasonedTree>(
    alloc: Global,
    tree: &mut T,
    options: LintOptions,
    settings: &Settings,
    path: &str,
    source: Vec<u8>,
) -> Result<Fate, AllocError>
    ensures done { IfOk result (Finds options (settings_seen settings.now) path.now source.items (held T.files T.failures T.cause tree.old) (held T.files T.failures T.cause tree.new)) }
    ensures refused { OnErr result (Stays options path.now (T.files tree.old) (T.files tree.new)) }
{
    let mut document = document_of(alloc, &source)?;
    let offers = offers_in(alloc, options, &mut document)?;
    let made = made(alloc, without_mark(&source), &offers)?;
    lint_made(
        alloc,
        tree,
        options,
        settings,
        path,
        &source,
        &mut document,
        &made,
    )
}

/// That the file of settings at a path has just failed to be read.
///
/// # Errors
/// Out of memory.
pub(crate) fn unread<T: ReasonedTree>(
    alloc: Global,
    tree: &T,
    path: &str,
) -> Result<Fate, AllocError>
    ensures { IfOk result (IsUnread (T.cause tree.now) path.now) }
{
    let mut text = String::from_str(alloc, path)?;
    text.push_str(": ")?;
    text.push_str(tree.reason(alloc)?.as_str())?;
    Ok(Fate::Unsettled(text))
}

// Finds out about a source of a file, by what is settled for it, and makes the fixes that are certain,
// if fixes are made.
fn lint_source<T: ReasonedTree>(
    alloc: Global,
    tree: &mut T,
    options: LintOptions,
    path: &str,
    source: Vec<u8>,
) -> Result<Fate, AllocError>
    ensures done { IfOk result (LintsSource options path.now source.items (held T.files T.failures T.cause tree.old) (held T.files T.failures T.cause tree.new)) }
    ensures refused { OnErr result (Stays options path.now (T.files tree.old) (T.files tree.new)) }
{
    match settle(alloc, tree, path)? {
        Settled::By(settings) => lint_settled(alloc, tree, options, &settings, path, source),
        Settled::Wrong(text) => Ok(Fate::Unsettled(text)),
        Settled::Unread(file) => unread(alloc, tree, file.as_str()),
    }
}

// Finds out about a file, and makes the fixes that are certain, if fixes are made.
fn lint_file<T: ReasonedTree>(
    alloc: Global,
    tree: &mut T,
    options: LintOptions,
    path: &str,
) -> Result<Fate, AllocError>
    ensures done { IfOk result (LintsFile options path.now (held T.files T.failures T.cause tree.old) (held T.files T.failures T.cause tree.new)) }
    ensures refused { OnErr result (Stays options path.now (T.files tree.old) (T.files tree.new)) }
{
    match tree.read(alloc, path, usize::MAX) {
        Ok(Some(source)) => lint_source(alloc, tree, options, path, source),
        Ok(None) => Ok(Fate::Absent),
        Err(TreeFault::Failed) => failure(alloc, tree),
        Err(TreeFault::Memory) => Err(AllocError),
    }
}

/// Finds out about each of these files, in order, and makes the fixes that are certain, if fixes are
/// made.
///
/// # Errors
/// Out of memory: the files up to some are done, and of the others at most the next one has changed.
pub(crate) fn lint_each<T: ReasonedTree>(
    alloc: Global,
    tree: &mut T,
    options: LintOptions,
    paths: &[String],
) -> Result<Vec<Done>, AllocError>
    ensures done { IfOk result (λ done. LintsFiles options (map string_bytes paths.now) (held T.files T.failures T.cause tree.old) (held T.files T.failures T.cause tree.new) done.items) }
    ensures refused { OnErr result (StopsAmong options (map string_bytes paths.now) (held T.files T.failures T.cause tree.old) (T.files tree.new)) }
{
    let mut done = Vec::with_capacity(alloc, paths.len())?;
    for path in paths {
        let copy = String::from_str(alloc, path.as_str())?;
        let fate = lint_file(alloc, tree, options, path.as_str())?;
        done.push(Done { path: copy, fate })?;
    }
    Ok(done)
}
