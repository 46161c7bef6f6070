//! What comes of files, and of standard input.
ghost use Rattle.std.specs.Prelude.{◌≡◌, IfOk, OnErr, false, map, true};
ghost use Rattle.std.specs.String.{string_bytes};
ghost use Rattle.everyday_fmt.specs.Fates.{StopsAmong, held};
ghost use Rattle.everyday_fmt.specs.Laws.{HoldLaidOut};
ghost use Rattle.everyday_fmt.specs.Layouts as layouts;
ghost use Rattle.everyday_fmt.specs.Tool.{ComesOfFiles, IsOutcomeOfInput, PrintsInput};

use crate::changes::{changed_text, laid};
use crate::files::format_each;
use crate::laws;
use crate::options::{FmtOptions, FmtOutcome};
use crate::reasons::ReasonedTree;
use crate::report::{error_lines, name_lines, status_of};
use std::alloc::{AllocError, Global};

/// Gives each of these files its layout, in order, or, with `check`, finds out whether it has it. A
/// file is read whole before anything is written, and is not written if it has its layout. A file
/// that cannot be read or written is reported, and the others are still done. Standard output has
/// the name of each file that would change, with `check`; standard error a line for each file that
/// failed, with its reason. The status is 1 if there is one of either, else 0.
///
/// # Errors
/// Out of memory: the files up to some have their layouts, and of the others at most the next one
/// has changed.
pub fn format_files<T: ReasonedTree>(
    alloc: Global,
    tree: &mut T,
    options: FmtOptions,
    paths: &[String],
) -> Result<FmtOutcome, AllocError>
    ensures done { IfOk result (ComesOfFiles options (map string_bytes paths.now) (held T.files T.failures T.cause tree.old) (held T.files T.failures T.cause tree.new)) }
    ensures laid_out { IfOk result (λ outcome. options.check ≡ false → outcome.status ≡ 0 → HoldLaidOut options (map string_bytes paths.now) (held T.files T.failures T.cause tree.old) (held T.files T.failures T.cause tree.new)) }
    ensures refused { OnErr result (StopsAmong options (map string_bytes paths.now) (held T.files T.failures T.cause tree.old) (T.files tree.new)) }
{
    // A law, with no code: it gives the clause `laid_out` of what is computed.
    laws::sources_are_laid_out();
    let done = format_each(alloc, tree, options, paths)?;
    Ok(FmtOutcome {
        output: name_lines(alloc, options.check, done.as_slice())?,
        errors: error_lines(alloc, done.as_slice())?,
        status: status_of(options.check, done.as_slice()),
    })
}

// What comes of standard input that is only checked.
fn checked_input(
    alloc: Global,
    options: FmtOptions,
    source: &[u8],
) -> Result<FmtOutcome, AllocError>
    ensures { IfOk result (PrintsInput true (layouts.laid options source.now) source.now) }
{
    let mut output = Vec::new(alloc);
    let mut status = 0;
    if changed_text(alloc, options, source)?.is_some() {
        output.extend_from_slice(b"<stdin>\n")?;
        status = 1;
    }
    Ok(FmtOutcome {
        output,
        errors: Vec::new(alloc),
        status,
    })
}

/// What comes of standard input: the source in its layout, or, with `check`, the name `<stdin>` if
/// it has another layout. The status is then 1.
///
/// # Errors
/// Out of memory.
pub fn format_input(
    alloc: Global,
    options: FmtOptions,
    source: &[u8],
) -> Result<FmtOutcome, AllocError>
    ensures outcome { IfOk result (IsOutcomeOfInput options source.now) }
    ensures laid_out { IfOk result (λ outcome. options.check ≡ false → layouts.IsLaid options source.now outcome.output.items) }
{
    // A law, with no code: it gives the clause `laid_out` of what is computed.
    laws::sources_are_laid_out();
    if options.check {
        return checked_input(alloc, options, source);
    }
    Ok(FmtOutcome {
        output: laid(alloc, options, source)?,
        errors: Vec::new(alloc),
        status: 0,
    })
}
