//! Which installed names a source uses that no block of it has.
ghost use Rattle.std.specs.Prelude.{◌≡◌, ◌++◌, IfOk, OnOk, map};
ghost use Rattle.std.specs.List.{flat_map, list_any};
ghost use Rattle.std.specs.String.{string_bytes};
ghost use Rattle.source_document.specs.Diagnostics.{diagnostic_seen};
ghost use Rattle.source_installed.specs.Missed as spec;
ghost use Rattle.source_installed.specs.Missed.{if_missed, if_said, is_missed_by, is_missing, missing_message, misses, misses_one};

use crate::names::Installed;
use source_diagnostics::sentence_by;
use source_document::{Capabilities, Diagnostic, Problem, shown_detail};
use source_types::Range;
use std::alloc::{AllocError, Global};
use ti_source::Code;

// Whether a problem is that no block has a name that is used.
fn is_missing(problem: Problem) -> bool
    ensures { result ≡ is_missing problem }
{
    matches!(problem, Problem::Fault(Code::MissingUse))
}

// What is said where a name is used that no block has.
fn missing_message(alloc: Global, name: &str) -> Result<String, AllocError>
    ensures { IfOk result (λ message. string_bytes message ≡ missing_message name.now) }
{
    let shown = shown_detail(alloc, name.as_bytes())?;
    let mut message = String::new(alloc);
    message.push_str(Code::MissingUse.name())?;
    message.push(' ')?;
    message.push_str(&shown)?;
    message.push_str(": ")?;
    message.push_str(sentence_by(Capabilities::UserDefined, Code::MissingUse))?;
    Ok(message)
}

// Whether a diagnostic is of a use for which that is said.
fn misses(message: &str, shown: &Diagnostic) -> bool
    ensures { result ≡ misses message.now (diagnostic_seen shown.now) }
{
    is_missing(shown.problem) && shown.message.as_str() == message
}

// Whether one of diagnostics is of such a use.
fn is_said(message: &str, all: &[Diagnostic]) -> bool
    ensures { result ≡ list_any (misses message.now) (map diagnostic_seen all.now) }
{
    all.iter().any(|shown| misses(message, shown))
}

// Whether one of diagnostics is of a use of a name that no block has.
fn is_any_missing(all: &[Diagnostic]) -> bool
    ensures { result ≡ list_any (λ shown. is_missing shown.problem) (map diagnostic_seen all.now) }
{
    all.iter().any(|shown| is_missing(shown.problem))
}

// Whether one of diagnostics is of a use of that name, which no block has.
fn is_missed(alloc: Global, name: &str, all: &[Diagnostic]) -> Result<bool, AllocError>
    ensures { IfOk result (λ is. is ≡ is_missed_by (map diagnostic_seen all.now) name.now) }
{
    let message = missing_message(alloc, name)?;
    Ok(is_said(message.as_str(), all))
}

// Adds a name, if one of diagnostics is of a use of it, which no block has.
fn push_if_missed(
    alloc: Global,
    names: &mut Vec<String>,
    name: &str,
    all: &[Diagnostic],
) -> Result<(), AllocError>
    ensures { OnOk result (map string_bytes names.new.items ≡ map string_bytes names.old.items ++ if_missed (map diagnostic_seen all.now) name.now) }
{
    if is_missed(alloc, name, all)? {
        names.push(String::from_str(alloc, name)?)?;
    }
    Ok(())
}

// Those of some names that one of diagnostics is of.
fn names_said(
    alloc: Global,
    names: &[String],
    all: &[Diagnostic],
) -> Result<Vec<String>, AllocError>
    ensures { IfOk result (λ missed. map string_bytes missed.items ≡ flat_map (if_missed (map diagnostic_seen all.now)) (map string_bytes names.now)) }
{
    let mut missed = Vec::new(alloc);
    for name in names {
        push_if_missed(alloc, &mut missed, name.as_str(), all)?;
    }
    Ok(missed)
}

/// The installed names that a source with these diagnostics uses, and that no block of it has.
///
/// # Errors
/// Out of memory.
pub(crate) fn missed_names(
    alloc: Global,
    installed: &Installed,
    all: &[Diagnostic],
) -> Result<Vec<String>, AllocError>
    ensures { IfOk result (λ names. map string_bytes names.items ≡ spec.missed_names installed.now (map diagnostic_seen all.now)) }
{
    if is_any_missing(all) {
        names_said(alloc, installed.names(), all)
    } else {
        Ok(Vec::new(alloc))
    }
}

// What is said where the names are used, if no block has them.
fn messages_of(alloc: Global, names: &[String]) -> Result<Vec<String>, AllocError>
    ensures { IfOk result (λ messages. map string_bytes messages.items ≡ map missing_message (map string_bytes names.now)) }
{
    let mut messages = Vec::new(alloc);
    for name in names {
        messages.push(missing_message(alloc, name.as_str())?)?;
    }
    Ok(messages)
}

// Whether a diagnostic is of a use for which one of these is said.
fn misses_one(messages: &[String], shown: &Diagnostic) -> bool
    ensures { result ≡ misses_one (map string_bytes messages.now) (diagnostic_seen shown.now) }
{
    messages
        .iter()
        .any(|message| misses(message.as_str(), shown))
}

// Adds where a diagnostic is shown, if it is of a use for which one of these is said.
fn push_if_said(
    ranges: &mut Vec<Range>,
    messages: &[String],
    shown: &Diagnostic,
) -> Result<(), AllocError>
    ensures { OnOk result (ranges.new.items ≡ ranges.old.items ++ if_said (map string_bytes messages.now) (diagnostic_seen shown.now)) }
{
    if misses_one(messages, shown) {
        ranges.push(shown.range)?;
    }
    Ok(())
}

// Where uses are for which one of these is said, by the diagnostics of their source.
fn ranges_said(
    alloc: Global,
    messages: &[String],
    all: &[Diagnostic],
) -> Result<Vec<Range>, AllocError>
    ensures { IfOk result (λ ranges. ranges.items ≡ flat_map (if_said (map string_bytes messages.now)) (map diagnostic_seen all.now)) }
{
    let mut ranges = Vec::new(alloc);
    for shown in all {
        push_if_said(&mut ranges, messages, shown)?;
    }
    Ok(ranges)
}

/// Where a source with these diagnostics uses these names, if no block of it has them.
///
/// # Errors
/// Out of memory.
pub(crate) fn missed_uses(
    alloc: Global,
    names: &[String],
    all: &[Diagnostic],
) -> Result<Vec<Range>, AllocError>
    ensures { IfOk result (λ ranges. ranges.items ≡ spec.missed_uses (map string_bytes names.now) (map diagnostic_seen all.now)) }
{
    let messages = messages_of(alloc, names)?;
    ranges_said(alloc, &messages, all)
}
