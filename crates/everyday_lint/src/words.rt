//! The words of a fault or a hint in each form.
ghost use Rattle.std.specs.Prelude.{◌≡◌, IfOk};
ghost use Rattle.std.specs.String.{string_bytes};
ghost use Rattle.ti_source.specs.Code.{code_text};
ghost use Rattle.source_remarks.specs.Remarks.{remark_seen};
ghost use Rattle.everyday_lint.specs.Words as spec;
ghost use Rattle.everyday_lint.specs.Words.{skipped};

use source_block_hints::HintKind;
use source_document::Problem;
use source_remarks::Remark;
use std::alloc::{AllocError, Global};
use ti_source::Code;

// The code of a fault with its name.
fn code_title(alloc: Global, code: Code) -> Result<String, AllocError>
    ensures { IfOk result (λ title. string_bytes title ≡ code_text code) }
{
    let mut title = String::from_str(alloc, code.label())?;
    title.push(' ')?;
    title.push_str(code.name())?;
    Ok(title)
}

/// The code of a problem with its name.
///
/// # Errors
/// Out of memory.
pub(crate) fn problem_title(alloc: Global, problem: Problem) -> Result<String, AllocError>
    ensures { IfOk result (λ title. string_bytes title ≡ spec.problem_title problem) }
{
    match problem {
        Problem::Fault(code) => code_title(alloc, code),
        Problem::BadUserDefined => String::from_str(alloc, "W5 BadUserDefined"),
        Problem::BlockTooLong => String::from_str(alloc, "BlockTooLong"),
        Problem::TooManyBlocks => String::from_str(alloc, "TooManyBlocks"),
    }
}

// The code of a hint with its name.
fn hint_title(alloc: Global, kind: HintKind) -> Result<String, AllocError>
    ensures { IfOk result (λ title. string_bytes title ≡ spec.hint_title kind) }
{
    let mut title = String::from_str(alloc, kind.label())?;
    title.push(' ')?;
    title.push_str(kind.name())?;
    Ok(title)
}

/// The code of a fault or a hint with its name.
///
/// # Errors
/// Out of memory.
pub(crate) fn title_of(alloc: Global, remark: Remark<'_>) -> Result<String, AllocError>
    ensures { IfOk result (λ title. string_bytes title ≡ spec.title_of (remark_seen remark.entry)) }
{
    match remark {
        Remark::Fault(fault) => problem_title(alloc, fault.problem),
        Remark::Hint(hint) => hint_title(alloc, hint.kind),
    }
}

// The name with which the message of a problem begins.
fn problem_name(problem: Problem) -> &'static str
    ensures { result.now ≡ spec.problem_name problem }
{
    match problem {
        Problem::Fault(code) => code.name(),
        Problem::BadUserDefined => "BadUserDefined",
        Problem::BlockTooLong | Problem::TooManyBlocks => "",
    }
}

// The name with which the message of a fault or a hint begins.
fn name_of(remark: Remark<'_>) -> &'static str
    ensures { result.now ≡ spec.name_of (remark_seen remark.entry) }
{
    match remark {
        Remark::Fault(fault) => problem_name(fault.problem),
        Remark::Hint(hint) => hint.kind.name(),
    }
}

// What is after a part with which a text may begin.
fn skipped<'a>(part: &[u8], text: &'a [u8]) -> &'a [u8]
    ensures { result.now ≡ skipped part.now text.now }
{
    match text.strip_prefix(part) {
        Some(rest) => rest,
        None => text,
    }
}

/// What a message says beside the title: without the name.
pub(crate) fn sentence_of<'a>(remark: Remark<'_>, message: &'a str) -> &'a [u8]
    ensures { result.now ≡ spec.sentence_of (remark_seen remark.entry) message.now }
{
    let rest = skipped(name_of(remark).as_bytes(), message.as_bytes());
    skipped(b" ", skipped(b": ", rest))
}

/// A law, with no code: what is said of a fault beside its title is what it is about, as a report
/// shows it, and its sentence.
pub fn sentences_are_of_faults()
    ensures { spec.SentencesAreOfFaults }
{}
