//! The layout of a source, and what may be folded of it, as values of the protocol.
ghost use Rattle.std.specs.Prelude.{◌≡◌, IfOk, map, option_map};
ghost use Rattle.serde_json.specs.View.{view};
ghost use Rattle.source_features.specs.Formatting.{layout_of, layout_seen};
ghost use Rattle.source_features.specs.RangeFormatting.{layout_in};
ghost use Rattle.source_format.specs.Folds.{folds_of};
ghost use Rattle.server_answers.specs.Laying.{edits_of, fold_data, folds_data, layout_data};

use lsp_values::answers::{folding_value, text_edit_value};
use serde_json::Value;
use source_document::Document;
use source_features::{LayoutEdit, layout_in, layout_of};
use source_format::{Fold, folds_of};
use source_types::Range;
use std::alloc::{AllocError, Global};

// The edits that lay out a source: the one that there is, or none.
fn edits_of(alloc: Global, edit: Option<LayoutEdit>) -> Result<Vec<Value>, AllocError>
    ensures { IfOk result (λ values. map view values.items ≡ edits_of (option_map layout_seen edit)) }
{
    let mut values = Vec::new(alloc);
    if let Some(edit) = edit {
        values.push(text_edit_value(alloc, edit.text.as_str(), edit.range)?)?;
    }
    Ok(values)
}

// The edits that lay out a source.
fn layout_edits(alloc: Global, document: &Document) -> Result<Vec<Value>, AllocError>
    ensures { IfOk result (λ values. map view values.items ≡ edits_of (layout_of document.now)) }
{
    let edit = layout_of(alloc, document)?;
    edits_of(alloc, edit)
}

/// The edits that give a source the layout of `ti-fmt`: one, or none if it has that layout.
///
/// # Errors
/// Out of memory.
pub fn layout(alloc: Global, document: &Document) -> Result<Value, AllocError>
    ensures { IfOk result (λ v. view v ≡ layout_data (layout_of document.now)) }
{
    let edits = layout_edits(alloc, document)?;
    Ok(Value::Array(edits))
}

// The edits that lay out the blocks that a range of a source touches.
fn part_edits(alloc: Global, document: &Document, range: Range) -> Result<Vec<Value>, AllocError>
    ensures { IfOk result (λ values. map view values.items ≡ edits_of (layout_in document.now range)) }
{
    let edit = layout_in(alloc, document, range)?;
    edits_of(alloc, edit)
}

/// The edits that give the blocks that a range of a source touches the layout of `ti-fmt`: one, or none
/// if they have that layout.
///
/// # Errors
/// Out of memory.
pub fn part_layout(alloc: Global, document: &Document, range: Range) -> Result<Value, AllocError>
    ensures { IfOk result (λ v. view v ≡ layout_data (layout_in document.now range)) }
{
    let edits = part_edits(alloc, document, range)?;
    Ok(Value::Array(edits))
}

// Lines that may be folded.
fn fold_values(alloc: Global, all: &[Fold]) -> Result<Vec<Value>, AllocError>
    ensures { IfOk result (λ values. map view values.items ≡ map fold_data all.now) }
{
    let mut values = Vec::new(alloc);
    for fold in all {
        values.push(folding_value(alloc, fold.first, fold.last, fold.is_comment)?)?;
    }
    Ok(values)
}

// What may be folded of a source.
fn folded(alloc: Global, document: &Document) -> Result<Vec<Value>, AllocError>
    ensures { IfOk result (λ values. map view values.items ≡ map fold_data (folds_of document.now)) }
{
    let all = folds_of(alloc, document.text())?;
    fold_values(alloc, all.as_slice())
}

/// What may be folded of a source: its entries, and comments that follow one another.
///
/// # Errors
/// Out of memory.
pub fn folds(alloc: Global, document: &Document) -> Result<Value, AllocError>
    ensures { IfOk result (λ v. view v ≡ folds_data (folds_of document.now)) }
{
    let folds = folded(alloc, document)?;
    Ok(Value::Array(folds))
}
