//! What is offered against faults and hints, as values of the protocol.
ghost use Rattle.std.specs.Prelude.{◌≡◌, ◌++◌, IfOk, OnOk, map};
ghost use Rattle.std.specs.String.{string_bytes};
ghost use Rattle.serde_json.specs.View.{view};
ghost use Rattle.source_document.specs.Diagnostics.{diagnostic_seen, diagnostics_by};
ghost use Rattle.source_edits.specs.Edits.{advice_seen};
ghost use Rattle.source_fixes.specs.Fixes as offered;
ghost use Rattle.source_fixes.specs.Fixes.{fix_seen};
ghost use Rattle.source_fixes.specs.Resolving as resolving;
ghost use Rattle.server_answers.specs.Fixes.{advice_title, all_fixes_shown, fix_shown, fixes_data, fixes_shown, hint_fix_shown, hint_title, if_offered};
ghost use Rattle.server_answers.specs.Fixes.{hint_fixes_if, is_offered, sign_title};
ghost use Rattle.server_answers.specs.Shown.{shown_data};

use crate::showing::value_of;
use lsp_values::answers::action_value;
use serde_json::Value;
use source_block_hints::HintKind;
use source_document::{Capabilities, Diagnostic, Document};
use source_edits::Advice;
use source_fixes::{Fix, HintFix, fixes_of, hint_fixes_of, resolved_by};
use source_installed::Installed;
use source_types::Range;
use std::alloc::{AllocError, Global};
use ti_caps::Kind;

// The title of a fix that writes the sign of a kind.
fn sign_title(kind: Kind) -> &'static str
    ensures { result.now ≡ sign_title kind }
{
    match kind {
        Kind::Flag => "Remove the sign",
        Kind::Number => "Write `#` before the number",
        Kind::Text => "Write `=` before the string",
    }
}

// The title of a fix, by which a text is written.
fn advice_title(alloc: Global, advice: &Advice, text: &str) -> Result<String, AllocError>
    ensures { IfOk result (λ title. string_bytes title ≡ advice_title (advice_seen advice.now) text.now) }
{
    match advice {
        Advice::Name { name, other } => {
            let name = name.as_str();
            let other = other.as_str();
            format!(in alloc; "Replace `{name}` with `{other}`")
        }
        Advice::Sign(kind) => String::from_str(alloc, sign_title(*kind)),
        Advice::Spelling => String::from_str(alloc, "Rewrite the string as it is read"),
        Advice::Caret => format!(in alloc; "Write `{text}` at the end"),
    }
}

// Whether a fix is offered in a source that may have these capabilities: not in place of a name that
// is installed.
fn is_offered(capabilities: Capabilities, installed: &Installed, advice: &Advice) -> bool
    ensures { result ≡ is_offered capabilities installed.now (advice_seen advice.now) }
{
    match (capabilities, advice) {
        (Capabilities::UserDefined, Advice::Name { name, .. }) => !installed.has(name.as_str()),
        _ => true,
    }
}

// Those of some diagnostics that are resolved, as values of the protocol.
fn resolved_values(alloc: Global, all: &[&Diagnostic]) -> Result<Vec<Value>, AllocError>
    ensures { IfOk result (λ values. map view values.items ≡ map shown_data (map (λ d. diagnostic_seen d.now) all.now)) }
{
    let mut values = Vec::new(alloc);
    for shown in all {
        values.push(value_of(alloc, shown)?)?;
    }
    Ok(values)
}

// Those of some diagnostics that a fix of a source resolves, as values of the protocol.
fn resolved(
    alloc: Global,
    document: &Document,
    fix: &Fix,
    all: &[Diagnostic],
) -> Result<Vec<Value>, AllocError>
    ensures { IfOk result (λ values. map view values.items
        ≡ map shown_data (resolving.resolved_by document.now (fix_seen fix.now) (map diagnostic_seen all.now))) }
{
    let found = resolved_by(alloc, document, fix, all)?;
    let values = resolved_values(alloc, &found)?;
    Ok(values)
}

// A fix of the document of that URI, which has these diagnostics.
fn fix_value(
    alloc: Global,
    document: &Document,
    uri: &str,
    all: &[Diagnostic],
    fix: &Fix,
) -> Result<Value, AllocError>
    ensures { IfOk result (λ v. view v ≡ fix_shown document.now uri.now (map diagnostic_seen all.now) (fix_seen fix.now)) }
{
    let text = fix.text.as_str();
    let title = advice_title(alloc, &fix.advice, text)?;
    let title = title.as_str();
    let is_preferred = fix.advice.is_certain();
    let diagnostics = resolved(alloc, document, fix, all)?;
    action_value(
        alloc,
        uri,
        title,
        fix.range,
        text,
        is_preferred,
        diagnostics,
    )
}

// Adds a fix of the document of that URI, which has these diagnostics, if it is offered.
fn push_if_offered(
    alloc: Global,
    values: &mut Vec<Value>,
    capabilities: Capabilities,
    installed: &Installed,
    document: &Document,
    uri: &str,
    all: &[Diagnostic],
    fix: &Fix,
) -> Result<(), AllocError>
    ensures { OnOk result (map view values.new.items ≡ map view values.old.items
        ++ if_offered capabilities installed.now document.now uri.now (map diagnostic_seen all.now) (fix_seen fix.now)) }
{
    if is_offered(capabilities, installed, &fix.advice) {
        values.push(fix_value(alloc, document, uri, all, fix)?)?;
    }
    Ok(())
}

// Those of fixes that are offered, of the document of that URI, which has these diagnostics.
fn fix_values(
    alloc: Global,
    capabilities: Capabilities,
    installed: &Installed,
    document: &Document,
    uri: &str,
    all: &[Diagnostic],
    fixes: &[Fix],
) -> Result<Vec<Value>, AllocError>
    ensures { IfOk result (λ values. map view values.items
        ≡ fixes_shown capabilities installed.now document.now uri.now (map diagnostic_seen all.now) (map fix_seen fixes.now)) }
{
    let mut values = Vec::new(alloc);
    for fix in fixes {
        push_if_offered(
            alloc,
            &mut values,
            capabilities,
            installed,
            document,
            uri,
            all,
            fix,
        )?;
    }
    Ok(values)
}

// What is offered against the faults of a part of a source. Its diagnostics are found only if something
// is.
fn fault_fixes_in(
    alloc: Global,
    capabilities: Capabilities,
    installed: &Installed,
    document: &mut Document,
    uri: &str,
    range: Range,
) -> Result<Vec<Value>, AllocError>
    ensures values { IfOk result (λ values. map view values.items
        ≡ fixes_shown capabilities installed.now document.old uri.now (diagnostics_by capabilities document.old)
        (offered.fixes_of capabilities document.old range)) }
    ensures text { OnOk result (document.new ≡ document.old) }
{
    let fixes = fixes_of(alloc, capabilities, document, range)?;
    if fixes.is_empty() {
        return Ok(Vec::new(alloc));
    }
    let all = document.diagnostics_by(alloc, capabilities)?;
    let values = fix_values(alloc, capabilities, installed, document, uri, &all, &fixes)?;
    Ok(values)
}

// The title of a fix against a hint of that kind.
fn hint_title(kind: HintKind) -> &'static str
    ensures { result.now ≡ hint_title kind }
{
    match kind {
        HintKind::ItemsInHead => "End the head with a comma",
        _ => "Insert the missing comma",
    }
}

// A fix against a hint on the document of that URI.
fn hint_fix_value(alloc: Global, uri: &str, fix: HintFix) -> Result<Value, AllocError>
    ensures { IfOk result (λ v. view v ≡ hint_fix_shown uri.now fix) }
{
    let title = hint_title(fix.kind);
    action_value(alloc, uri, title, fix.range, ",", false, Vec::new(alloc))
}

// Adds fixes against hints on the document of that URI.
fn push_hint_fixes(
    alloc: Global,
    values: &mut Vec<Value>,
    uri: &str,
    fixes: &[HintFix],
) -> Result<(), AllocError>
    ensures { OnOk result (map view values.new.items ≡ map view values.old.items ++ map (hint_fix_shown uri.now) fixes.now) }
{
    for fix in fixes {
        values.push(hint_fix_value(alloc, uri, *fix)?)?;
    }
    Ok(())
}

// What is offered against the hints on a part of a source, if the client wants hints.
fn hint_fixes_if(
    alloc: Global,
    hints: bool,
    document: &Document,
    range: Range,
) -> Result<Vec<HintFix>, AllocError>
    ensures { IfOk result (λ fixes. fixes.items ≡ hint_fixes_if hints document.now range) }
{
    if hints {
        hint_fixes_of(alloc, document, range)
    } else {
        Ok(Vec::new(alloc))
    }
}

// What is offered against the faults of a part of a source, and against the hints on it if the client
// wants hints.
fn fixes_in(
    alloc: Global,
    capabilities: Capabilities,
    hints: bool,
    installed: &Installed,
    document: &mut Document,
    uri: &str,
    range: Range,
) -> Result<Vec<Value>, AllocError>
    ensures values { IfOk result (λ values. map view values.items
        ≡ all_fixes_shown capabilities hints installed.now document.old uri.now range) }
    ensures text { OnOk result (document.new ≡ document.old) }
{
    let found = hint_fixes_if(alloc, hints, document, range)?;
    let mut values = fault_fixes_in(alloc, capabilities, installed, document, uri, range)?;
    push_hint_fixes(alloc, &mut values, uri, &found)?;
    Ok(values)
}

/// What is offered against the faults of a part of a source, which may have these capabilities, where
/// these names are installed, and against the hints on it if the client wants hints; all this if quick
/// fixes are asked for.
///
/// # Errors
/// Out of memory.
pub fn fixes(
    alloc: Global,
    capabilities: Capabilities,
    hints: bool,
    installed: &Installed,
    document: &mut Document,
    uri: &str,
    range: Range,
    wanted: bool,
) -> Result<Value, AllocError>
    ensures value { IfOk result (λ v. view v ≡ fixes_data capabilities hints installed.now document.old uri.now range wanted) }
    ensures text { OnOk result (document.new ≡ document.old) }
{
    if !wanted {
        return Ok(Value::Array(Vec::new(alloc)));
    }
    let values = fixes_in(alloc, capabilities, hints, installed, document, uri, range)?;
    Ok(Value::Array(values))
}
