//! What is remarked on a source, in its order: its faults, and between them the hints.
ghost use Rattle.std.specs.Prelude.{◌≡◌, ◌++◌, ◌≤◌, IfOk, OnOk, drop, length, map};
ghost use Rattle.source_diagnostics.specs.Diagnostics.{diagnostic_seen};
ghost use Rattle.source_remarks.specs.Hints.{hint_seen, hints_seen};
ghost use Rattle.source_remarks.specs.Remarks as spec;
ghost use Rattle.source_remarks.specs.Remarks.{following, leading, remark_seen, remarks_by, seen_fault, seen_hint, with_hints};

use crate::shown::ShownHint;
use crate::sources::SourceHints;
use source_diagnostics::Diagnostic;
use source_types::{Position, Range, Severity};
use std::alloc::{AllocError, Global};

/// What is remarked on a source.
#[derive(Clone, Copy, Debug)]
pub enum Remark<'a> {
    /// A fault of its report, or why it is refused.
    Fault(&'a Diagnostic),
    /// A hint.
    Hint(&'a ShownHint),
}

impl<'a> Remark<'a> {
    /// What of the source it is on.
    pub fn range(self) -> Range
        ensures { result ≡ spec.range_of (remark_seen self.entry) }
    {
        match self {
            Remark::Fault(fault) => fault.range,
            Remark::Hint(hint) => hint.range,
        }
    }

    /// How grave it is.
    pub fn severity(self) -> Severity
        ensures { result ≡ spec.severity_of (remark_seen self.entry) }
    {
        match self {
            Remark::Fault(fault) => fault.problem.severity(),
            Remark::Hint(hint) => hint.kind.severity(),
        }
    }

    /// Its code, such as `E3` or `N8`.
    pub fn label(self) -> &'static str
        ensures { result.now ≡ spec.label_of_remark (remark_seen self.entry) }
    {
        match self {
            Remark::Fault(fault) => fault.problem.label(),
            Remark::Hint(hint) => hint.kind.label(),
        }
    }

    /// What it is about, what it means, and what helps, in ASCII.
    pub fn message(self) -> &'a str
        ensures { result.now ≡ spec.message_of (remark_seen self.entry) }
    {
        match self {
            Remark::Fault(fault) => fault.message.as_str(),
            Remark::Hint(hint) => hint.message.as_str(),
        }
    }
}

// Whether a place is before another.
fn is_before(one: Position, other: Position) -> bool
    ensures { result ≡ spec.is_before one other }
{
    if one.line == other.line {
        one.column < other.column
    } else {
        one.line < other.line
    }
}

// Adds the hints that begin before a place, of those from a place in their list on, and gives that
// of the next one.
fn push_leading<'a>(
    all: &mut Vec<Remark<'a>>,
    hints: &'a [ShownHint],
    from: usize,
    place: Position,
) -> Result<usize, AllocError>
    requires { from ≤ length hints.now }
    ensures pushed { OnOk result (map remark_seen all.new.items
        ≡ map remark_seen all.old.items ++ map seen_hint (leading place (map hint_seen (drop from hints.now)))) }
    ensures next { IfOk result (λ next. map hint_seen (drop next hints.now) ≡ following place (map hint_seen (drop from hints.now))) }
    ensures within { IfOk result (λ next. next ≤ length hints.now) }
{
    for at in from..hints.len() {
        let hint = &hints[at];
        if !is_before(hint.range.start, place) {
            return Ok(at);
        }
        all.push(Remark::Hint(hint))?;
    }
    Ok(hints.len())
}

// Adds all hints from a place in their list on.
fn push_hints<'a>(
    all: &mut Vec<Remark<'a>>,
    hints: &'a [ShownHint],
    from: usize,
) -> Result<(), AllocError>
    requires { from ≤ length hints.now }
    ensures { OnOk result (map remark_seen all.new.items ≡ map remark_seen all.old.items ++ map seen_hint (map hint_seen (drop from hints.now))) }
{
    for at in from..hints.len() {
        all.push(Remark::Hint(&hints[at]))?;
    }
    Ok(())
}

// Remarks with hints among them: each remark after the hints that begin before it.
fn with_hints<'a>(
    alloc: Global,
    remarks: &[Remark<'a>],
    hints: &'a [ShownHint],
) -> Result<Vec<Remark<'a>>, AllocError>
    ensures { IfOk result (λ all. map remark_seen all.items ≡ with_hints (map remark_seen remarks.now) (map hint_seen hints.now)) }
{
    let mut all = Vec::with_capacity(alloc, remarks.len())?;
    let mut from = 0;
    for at in 0..remarks.len() {
        let remark = remarks[at];
        from = push_leading(&mut all, hints, from, remark.range().start)?;
        all.push(remark)?;
    }
    push_hints(&mut all, hints, from)?;
    Ok(all)
}

// Faults as remarks.
fn faults_of<'a>(alloc: Global, faults: &'a [Diagnostic]) -> Result<Vec<Remark<'a>>, AllocError>
    ensures { IfOk result (λ all. map remark_seen all.items ≡ map seen_fault (map diagnostic_seen faults.now)) }
{
    let mut all = Vec::with_capacity(alloc, faults.len())?;
    for fault in faults {
        all.push(Remark::Fault(fault))?;
    }
    Ok(all)
}

/// Faults of a source with the hints on it among them: the faults in their order, each after the
/// hints that begin before it.
///
/// # Errors
/// Out of memory.
pub fn remarks_of<'a>(
    alloc: Global,
    faults: &'a [Diagnostic],
    hints: &'a SourceHints,
) -> Result<Vec<Remark<'a>>, AllocError>
    ensures { IfOk result (λ all. map remark_seen all.items ≡ remarks_by (map diagnostic_seen faults.now) (hints_seen hints.now)) }
{
    let faults = faults_of(alloc, faults)?;
    let remarks = with_hints(alloc, &faults, &hints.blocks)?;
    with_hints(alloc, &remarks, &hints.file)
}
