//! The fixes that are certain.
ghost use Rattle.std.specs.Prelude.{◌≡◌, ◌++◌, IfOk, OnOk, filter, map};
ghost use Rattle.source_document.specs.Diagnostics.{diagnostic_seen};
ghost use Rattle.source_fixes.specs.Fixes.{fix_seen};
ghost use Rattle.source_fixes.specs.Fixes as offered;
ghost use Rattle.everyday_lint.specs.Offers as spec;
ghost use Rattle.everyday_lint.specs.Offers.{is_fixable, offer_seen, offers_for};

use source_document::{Capabilities, Diagnostic, Document, Problem};
use source_fixes::{Fix, fixes_of};
use std::alloc::{AllocError, Global};
use ti_source::Code;

/// A fix that is certain, and what it is for.
#[derive(Debug, Drop)]
pub(crate) struct Offer {
    /// What is wrong.
    pub problem: Problem,
    /// The fix.
    pub fix: Fix,
}

// Whether a problem can have a fix that is certain.
fn is_fixable(problem: Problem) -> bool
    ensures { result ≡ is_fixable problem }
{
    match problem {
        Problem::Fault(code) => matches!(code, Code::WrongKind | Code::BadString),
        _ => false,
    }
}

// Adds those fixes of a problem that are certain.
fn push_certain(
    offers: &mut Vec<Offer>,
    problem: Problem,
    fixes: Vec<Fix>,
) -> Result<(), AllocError>
    ensures { OnOk result (map offer_seen offers.new.items
        ≡ map offer_seen offers.old.items ++ spec.certain problem (map fix_seen fixes.items)) }
{
    for fix in fixes {
        if fix.advice.is_certain() {
            offers.push(Offer { problem, fix })?;
        }
    }
    Ok(())
}

// Adds the fixes of a diagnostic that are certain.
fn push_offers(
    alloc: Global,
    offers: &mut Vec<Offer>,
    capabilities: Capabilities,
    document: &Document,
    diagnostic: &Diagnostic,
) -> Result<(), AllocError>
    ensures { OnOk result (map offer_seen offers.new.items
        ≡ map offer_seen offers.old.items ++ offers_for capabilities document.now (diagnostic_seen diagnostic.now)) }
{
    let problem = diagnostic.problem;
    if !is_fixable(problem) {
        return Ok(());
    }
    let fixes = fixes_of(alloc, capabilities, document, diagnostic.range)?;
    push_certain(offers, problem, fixes)
}

/// The fixes of diagnostics that are certain.
///
/// # Errors
/// Out of memory.
pub(crate) fn offers_of(
    alloc: Global,
    capabilities: Capabilities,
    document: &Document,
    diagnostics: &[Diagnostic],
) -> Result<Vec<Offer>, AllocError>
    ensures { IfOk result (λ offers. map offer_seen offers.items
        ≡ spec.offers_of capabilities document.now (map diagnostic_seen diagnostics.now)) }
{
    let mut offers = Vec::new(alloc);
    for diagnostic in diagnostics {
        push_offers(alloc, &mut offers, capabilities, document, diagnostic)?;
    }
    Ok(offers)
}
