//! What comes of files, and of standard input.
ghost use Rattle.std.specs.Prelude.{◌≡◌, IfOk, OnErr, map};
ghost use Rattle.std.specs.String.{string_bytes};
ghost use Rattle.everyday_fmt.specs.Fates.{held};
ghost use Rattle.everyday_lint.specs.Fates.{StopsAmong};
ghost use Rattle.everyday_lint.specs.Tool.{ChecksInput, ComesOfFiles, ComesOfInput, IsOutcomeOf};
ghost use Rattle.everyday_lint.specs.Telling.{hint_lines};

use crate::checking::{check_source, document_of};
use crate::files::{Done, Fate, lint_each, unread};
use crate::options::{LintOptions, LintOutcome};
use crate::report::{count_of, lines_of_files, severities_of_files, status_of, told_of_files};
use crate::telling::told_of_all;
use everyday_fmt::ReasonedTree;
use everyday_forms::{Form, push_summary, whole};
use source_document::Capabilities;
use source_remarks::{remarks_of, source_hints_in};
use source_settings::{Settled, as_they_are, settle};
use std::alloc::{AllocError, Global};

// What standard input is called.
const STANDARD_INPUT: &str = "<stdin>";

// What is printed of files, and the status.
fn outcome_of(alloc: Global, options: LintOptions, done: &[Done]) -> Result<LintOutcome, AllocError>
    ensures { IfOk result (IsOutcomeOf options done.now) }
{
    let told = told_of_files(alloc, done)?;
    let severities = severities_of_files(alloc, done)?;
    let mut errors = lines_of_files(alloc, done)?;
    push_summary(alloc, &mut errors, &severities, count_of(done))?;
    Ok(LintOutcome {
        output: whole(alloc, options.form, told)?,
        errors,
        status: status_of(options.strict, &severities, done),
    })
}

/// Finds out what is wrong with each of these files, in order, and makes the fixes that are
/// certain, if fixes are made. A file is read whole before anything is written, and is not written
/// if there is no such fix. A byte order mark and line ends stay. A file that cannot be read or
/// written is reported, and the others are still done.
///
/// What is printed are the remarks of `source_remarks` on the source once the fixes are made, as
/// `source_settings` publishes them by what is settled for the file. A file for which that is not known
/// is not checked. Each fix is a line on standard error, and so is each file that failed; the line that counts comes last.
/// The status is 1 if a remark is bad, or a file was not checked, else 0.
///
/// # Errors
/// Out of memory: the files up to some are done, and of the others at most the next one has changed.
pub fn lint_files<T: ReasonedTree>(
    alloc: Global,
    tree: &mut T,
    options: LintOptions,
    paths: &[String],
) -> Result<LintOutcome, AllocError>
    ensures done { IfOk result (ComesOfFiles options (map string_bytes paths.now) (held T.files T.failures T.cause tree.old) (held T.files T.failures T.cause tree.new)) }
    ensures refused { OnErr result (StopsAmong options (map string_bytes paths.now) (held T.files T.failures T.cause tree.old) (T.files tree.new)) }
{
    let done = lint_each(alloc, tree, options, paths)?;
    outcome_of(alloc, options, &done)
}

// What becomes of standard input, by what is settled in the current directory.
fn check_input<T: ReasonedTree>(
    alloc: Global,
    tree: &mut T,
    options: LintOptions,
    source: &[u8],
) -> Result<Fate, AllocError>
    ensures { IfOk result (ChecksInput options source.now (held T.files T.failures T.cause tree.old) (held T.files T.failures T.cause tree.new)) }
{
    match settle(alloc, tree, "")? {
        Settled::By(settings) => {
            let mut document = document_of(alloc, source)?;
            let fixes = Vec::new(alloc);
            let linted = check_source(
                alloc,
                options,
                &settings,
                STANDARD_INPUT,
                source,
                &mut document,
                fixes,
            )?;
            Ok(Fate::Checked(linted))
        }
        Settled::Wrong(text) => Ok(Fate::Unsettled(text)),
        Settled::Unread(file) => unread(alloc, tree, file.as_str()),
    }
}

/// Finds out what is wrong with standard input, by what is settled in the current directory. No fix is
/// made.
///
/// # Errors
/// Out of memory.
pub fn lint_input<T: ReasonedTree>(
    alloc: Global,
    tree: &mut T,
    options: LintOptions,
    source: &[u8],
) -> Result<LintOutcome, AllocError>
    ensures { IfOk result (ComesOfInput options source.now (held T.files T.failures T.cause tree.old) (held T.files T.failures T.cause tree.new)) }
{
    let path = String::from_str(alloc, STANDARD_INPUT)?;
    let fate = check_input(alloc, tree, options, source)?;
    outcome_of(alloc, options, &[Done { path, fate }])
}

/// The hints on a source, by which capabilities it may have, each as a line of compilers:
/// `FILE:LINE:COLUMN: note: SENTENCE [N3 SaidTwice]`.
///
/// # Errors
/// Out of memory.
pub fn hint_lines(
    alloc: Global,
    capabilities: Capabilities,
    file: &str,
    source: Vec<u8>,
) -> Result<Vec<u8>, AllocError>
    ensures { IfOk result (λ lines. lines.items ≡ hint_lines capabilities file.now source.items) }
{
    let document = document_of(alloc, &source)?;
    let kept = &mut Vec::new(alloc);
    let hints = source_hints_in(alloc, capabilities, &source, &document, kept)?;
    let remarks = remarks_of(alloc, &[], &hints)?;
    let all = as_they_are(alloc, &remarks)?;
    told_of_all(alloc, Form::Lines, file, document.text(), &all)
}
