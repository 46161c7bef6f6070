//! Diagnostics and hints as values of the protocol.
ghost use Rattle.std.specs.Prelude.{◌≡◌, ◌++◌, IfOk, OnOk, map};
ghost use Rattle.serde_json.specs.View.{view};
ghost use Rattle.source_document.specs.Diagnostics.{diagnostic_seen};
ghost use Rattle.source_installed.specs.Findings.{findings_seen};
ghost use Rattle.source_remarks.specs.Hints.{hints_seen};
ghost use Rattle.source_remarks.specs.Remarks.{remark_seen, remarks_by};
ghost use Rattle.server_answers.specs.Shown as spec;
ghost use Rattle.server_answers.specs.Shown.{hinted_data, remark_data, shown_data, use_data};

use lsp_values::writing::diagnostic_value;
use serde_json::Value;
use source_document::{Capabilities, Diagnostic, Document};
use source_installed::{Findings, Installed, source_findings};
use source_remarks::{Remark, SourceHints, remarks_of};
use source_types::{Range, Severity};
use std::alloc::{AllocError, Global};

// What is said of a use of an installed name.
const INSTALLED: &str = "No block of this file has the name; `ti-tic` takes the installed entry.";

/// A diagnostic as a value of the protocol.
///
/// # Errors
/// Out of memory.
pub fn value_of(alloc: Global, shown: &Diagnostic) -> Result<Value, AllocError>
    ensures { IfOk result (λ v. view v ≡ shown_data (diagnostic_seen shown.now)) }
{
    let severity = shown.problem.severity();
    let label = shown.problem.label();
    diagnostic_value(alloc, shown.range, severity, label, shown.message.as_str())
}

/// Diagnostics as values of the protocol.
///
/// # Errors
/// Out of memory.
pub fn values_of(alloc: Global, all: &[Diagnostic]) -> Result<Vec<Value>, AllocError>
    ensures { IfOk result (λ values. map view values.items ≡ map (λ d. shown_data (diagnostic_seen d)) all.now) }
{
    let mut values = Vec::new(alloc);
    for shown in all {
        values.push(value_of(alloc, shown)?)?;
    }
    Ok(values)
}

// A fault or a hint as a value of the protocol.
fn remark_value(alloc: Global, remark: Remark<'_>) -> Result<Value, AllocError>
    ensures { IfOk result (λ v. view v ≡ remark_data (remark_seen remark.entry)) }
{
    let range = remark.range();
    diagnostic_value(
        alloc,
        range,
        remark.severity(),
        remark.label(),
        remark.message(),
    )
}

// Faults and hints as values of the protocol.
fn remark_values(alloc: Global, all: &[Remark<'_>]) -> Result<Vec<Value>, AllocError>
    ensures { IfOk result (λ values. map view values.items ≡ map (λ r. remark_data (remark_seen r)) all.now) }
{
    let mut values = Vec::with_capacity(alloc, all.len())?;
    for remark in all {
        values.push(remark_value(alloc, *remark)?)?;
    }
    Ok(values)
}

// Faults with hints among them as values of the protocol.
fn hinted_values_of(
    alloc: Global,
    faults: &[Diagnostic],
    hints: &SourceHints,
) -> Result<Vec<Value>, AllocError>
    ensures { IfOk result (λ values. map view values.items ≡ map remark_data (remarks_by (map diagnostic_seen faults.now) (hints_seen hints.now))) }
{
    let remarks = remarks_of(alloc, faults, hints)?;
    remark_values(alloc, &remarks)
}

// A use of an installed name, as a hint.
fn use_value(alloc: Global, range: Range) -> Result<Value, AllocError>
    ensures { IfOk result (λ v. view v ≡ use_data range) }
{
    diagnostic_value(alloc, range, Severity::Hint, "installed", INSTALLED)
}

// Adds the hints of uses.
fn push_uses(alloc: Global, values: &mut Vec<Value>, uses: &[Range]) -> Result<(), AllocError>
    ensures { OnOk result (map view values.new.items ≡ map view values.old.items ++ map use_data uses.now) }
{
    for range in uses {
        values.push(use_value(alloc, *range)?)?;
    }
    Ok(())
}

/// What was found in a source, with hints among the faults, as values of the protocol.
///
/// # Errors
/// Out of memory.
pub fn found_values(
    alloc: Global,
    found: &Findings,
    hints: &SourceHints,
) -> Result<Vec<Value>, AllocError>
    ensures { IfOk result (λ values. map view values.items ≡ hinted_data (findings_seen found.now) (hints_seen hints.now)) }
{
    let mut values = hinted_values_of(alloc, &found.faults, hints)?;
    push_uses(alloc, &mut values, &found.uses)?;
    Ok(values)
}

/// What is wrong with a source that may have these capabilities, and, if these are user-defined ones,
/// where it uses names that are installed. `completed` is kept for the next time.
///
/// # Errors
/// Out of memory.
pub fn found_by(
    alloc: Global,
    capabilities: Capabilities,
    installed: &Installed,
    document: &mut Document,
    completed: &mut Document,
) -> Result<Findings, AllocError>
    ensures found { IfOk result (λ found. findings_seen found ≡ spec.found_by capabilities installed.now document.old) }
    ensures text { OnOk result (document.new ≡ document.old) }
{
    match capabilities {
        Capabilities::Profile => {
            let faults = document.diagnostics_by(alloc, capabilities)?;
            Ok(Findings {
                faults,
                uses: Vec::new(alloc),
            })
        }
        Capabilities::UserDefined => source_findings(alloc, installed, document, completed),
    }
}
