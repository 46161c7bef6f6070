//! What is found out about a source.
ghost use Rattle.source_plain.specs.Reading.{plain_source};
ghost use Rattle.std.specs.Prelude.{◌≡◌, IfOk, map};
ghost use Rattle.source_settings.specs.Settings.{settings_seen};
ghost use Rattle.everyday_lint.specs.Checking.{IsLintedSource, offers_in};
ghost use Rattle.everyday_lint.specs.Offers.{offer_seen};

use crate::offers::{Offer, offers_of};
use crate::options::LintOptions;
use crate::telling::{severities_of, told_of_all};
use source_document::Document;
use source_plain::plain;
use source_remarks::{remarks_of, source_hints_in};
use source_settings::{Allowances, Settings, published_of};
use source_types::Severity;
use std::alloc::{AllocError, Global};

/// What is found out about a source.
#[derive(Debug, PartialEq, Eq, Drop)]
pub struct Linted {
    /// What is told of the fixes that were made.
    pub fixes: Vec<u8>,
    /// What is told of the source, once they are made.
    pub told: Vec<u8>,
    /// How bad each thing is that is told.
    pub severities: Vec<Severity>,
}

/// A document of the text that is read of a source.
///
/// # Errors
/// Out of memory.
pub(crate) fn document_of(alloc: Global, source: &[u8]) -> Result<Document, AllocError>
    ensures { IfOk result (λ document. document ≡ plain_source source.now) }
{
    let text = match plain(alloc, source)? {
        Some(text) => text,
        None => Vec::from_slice(alloc, source)?,
    };
    Document::open(alloc, text)
}

/// What is found out about a source, of which this was told before, by what is settled for it.
///
/// # Errors
/// Out of memory.
pub(crate) fn check_source(
    alloc: Global,
    options: LintOptions,
    settings: &Settings,
    file: &str,
    source: &[u8],
    document: &mut Document,
    fixes: Vec<u8>,
) -> Result<Linted, AllocError>
    requires { document.old ≡ plain_source source.now }
    ensures linted { IfOk result (IsLintedSource options (settings_seen settings.now) file.now source.now fixes.items) }
    ensures text { document.new ≡ document.old }
{
    let faults = document.diagnostics_by(alloc, options.capabilities)?;
    let kept = &mut Vec::new(alloc);
    let hints = source_hints_in(alloc, options.capabilities, source, document, kept)?;
    let remarks = remarks_of(alloc, &faults, &hints)?;
    let allowances = Allowances::of(alloc, document.text())?;
    let all = published_of(alloc, settings, &allowances, &remarks)?;
    Ok(Linted {
        fixes,
        told: told_of_all(alloc, options.form, file, document.text(), &all)?,
        severities: severities_of(alloc, &all)?,
    })
}

/// The fixes of the text of a document that are certain, if fixes are made.
///
/// # Errors
/// Out of memory.
pub(crate) fn offers_in(
    alloc: Global,
    options: LintOptions,
    document: &mut Document,
) -> Result<Vec<Offer>, AllocError>
    ensures offers { IfOk result (λ offers. map offer_seen offers.items ≡ offers_in options document.old) }
    ensures text { document.new ≡ document.old }
{
    if !options.fix {
        return Ok(Vec::new(alloc));
    }
    let all = document.diagnostics_by(alloc, options.capabilities)?;
    offers_of(alloc, options.capabilities, document, &all)
}
