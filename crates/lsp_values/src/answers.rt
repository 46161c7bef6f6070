//! The values that answer questions about a document. Each call writes one object of the protocol.
ghost use Rattle.std.specs.Prelude.{◌≡◌, IfOk, option_map};
ghost use Rattle.serde_json.specs.Data.{item, no_items};
ghost use Rattle.serde_json.specs.View.{items_view, view};
ghost use Rattle.lsp_values.specs.Shapes.{action_data, folding_data, highlight_data, hover_data, item_data, later_item_data, list_data, location_data, obsolete_item_data, parameter_data, plain_data, signature_data, signature_help_data, symbol_data, symbol_information_data, text_edit_data, workspace_edit_data};

use crate::objects::{with_number, with_text, with_value};
use crate::writing::range_value;
use serde_json::{Map, Value, json};
use source_types::{ItemKind, Range};
use std::alloc::{AllocError, Global};

/// A place in a document ("Location").
///
/// # Errors
/// `AllocError` if memory ran out.
pub fn location_value(alloc: Global, uri: &str, range: Range) -> Result<Value, AllocError>
    ensures { IfOk result (λ v. view v ≡ location_data uri.now range) }
{
    let range = range_value(alloc, range)?;
    json!(in alloc; {"range": range, "uri": uri})
}

/// An entry that a document defines ("DocumentSymbol"), as a struct: its name, its range, and that
/// of its names in it.
///
/// # Errors
/// `AllocError` if memory ran out.
pub fn symbol_value(
    alloc: Global,
    name: &str,
    range: Range,
    selection: Range,
) -> Result<Value, AllocError>
    ensures { IfOk result (λ v. view v ≡ symbol_data name.now range selection) }
{
    let members = with_number(alloc, Map::new(alloc), "kind", 23)?;
    let members = with_text(alloc, members, "name", name)?;
    let range = range_value(alloc, range)?;
    let members = with_value(alloc, members, "range", range)?;
    let selection = range_value(alloc, selection)?;
    let members = with_value(alloc, members, "selectionRange", selection)?;
    Ok(Value::Object(members))
}

/// An entry that a document defines ("SymbolInformation"), as a struct, for a client that takes no
/// hierarchy: its name and its range.
///
/// # Errors
/// `AllocError` if memory ran out.
pub fn symbol_information_value(
    alloc: Global,
    uri: &str,
    name: &str,
    range: Range,
) -> Result<Value, AllocError>
    ensures { IfOk result (λ v. view v ≡ symbol_information_data uri.now name.now range) }
{
    let location = location_value(alloc, uri, range)?;
    json!(in alloc; {"kind": 23_u32, "location": location, "name": name})
}

/// A part of a document that names the same as another ("DocumentHighlight").
///
/// # Errors
/// `AllocError` if memory ran out.
pub fn highlight_value(alloc: Global, range: Range) -> Result<Value, AllocError>
    ensures { IfOk result (λ v. view v ≡ highlight_data range) }
{
    let range = range_value(alloc, range)?;
    json!(in alloc; {"range": range})
}

/// Lines that may be folded ("FoldingRange"), by their numbers from 0: those of an entry, or of
/// comments.
///
/// # Errors
/// `AllocError` if memory ran out.
pub fn folding_value(
    alloc: Global,
    first: usize,
    last: usize,
    is_comment: bool,
) -> Result<Value, AllocError>
    ensures { IfOk result (λ v. view v ≡ folding_data first last is_comment) }
{
    if is_comment {
        json!(in alloc; {"endLine": last, "kind": "comment", "startLine": first})
    } else {
        json!(in alloc; {"endLine": last, "startLine": first})
    }
}

// A text without markup ("MarkupContent").
fn plain_value(alloc: Global, text: &str) -> Result<Value, AllocError>
    ensures { IfOk result (λ v. view v ≡ plain_data text.now) }
{
    json!(in alloc; {"kind": "plaintext", "value": text})
}

/// What is reported about a part of a document ("Hover"), in plain text.
///
/// # Errors
/// `AllocError` if memory ran out.
pub fn hover_value(alloc: Global, text: &str, range: Range) -> Result<Value, AllocError>
    ensures { IfOk result (λ v. view v ≡ hover_data text.now range) }
{
    let contents = plain_value(alloc, text)?;
    let range = range_value(alloc, range)?;
    json!(in alloc; {"contents": contents, "range": range})
}

/// A text in place of a part of a document ("TextEdit").
///
/// # Errors
/// `AllocError` if memory ran out.
pub fn text_edit_value(alloc: Global, text: &str, range: Range) -> Result<Value, AllocError>
    ensures { IfOk result (λ v. view v ≡ text_edit_data text.now range) }
{
    let range = range_value(alloc, range)?;
    json!(in alloc; {"newText": text, "range": range})
}

/// Edits of one document ("WorkspaceEdit").
///
/// # Errors
/// `AllocError` if memory ran out.
pub fn workspace_edit_value(
    alloc: Global,
    uri: &str,
    edits: Vec<Value>,
) -> Result<Value, AllocError>
    ensures { IfOk result (λ v. view v ≡ workspace_edit_data uri.now (items_view edits.items)) }
{
    let edits = Value::Array(edits);
    json!(in alloc; {"changes": {uri: edits}})
}

// One edit of a document ("WorkspaceEdit").
fn one_edit_value(alloc: Global, uri: &str, range: Range, text: &str) -> Result<Value, AllocError>
    ensures { IfOk result (λ v. view v ≡ workspace_edit_data uri.now (item (text_edit_data text.now range) no_items)) }
{
    let mut edits = Vec::new(alloc);
    edits.push(text_edit_value(alloc, text, range)?)?;
    workspace_edit_value(alloc, uri, edits)
}

/// What is offered against a fault ("CodeAction"): a title, a text that is put in the place of a
/// range, whether an editor may apply it without a choice, and the diagnostics that it resolves.
///
/// # Errors
/// `AllocError` if memory ran out.
pub fn action_value(
    alloc: Global,
    uri: &str,
    title: &str,
    range: Range,
    text: &str,
    is_preferred: bool,
    diagnostics: Vec<Value>,
) -> Result<Value, AllocError>
    ensures { IfOk result (λ v. view v
        ≡ action_data uri.now title.now range text.now is_preferred (items_view diagnostics.items)) }
{
    let edit = one_edit_value(alloc, uri, range, text)?;
    let diagnostics = Value::Array(diagnostics);
    let members = with_value(alloc, Map::new(alloc), "diagnostics", diagnostics)?;
    let members = with_value(alloc, members, "edit", edit)?;
    let members = with_text(alloc, members, "kind", "quickfix")?;
    let members = with_text(alloc, members, "title", title)?;
    if is_preferred {
        let members = with_value(alloc, members, "isPreferred", Value::Bool(true))?;
        Ok(Value::Object(members))
    } else {
        Ok(Value::Object(members))
    }
}

/// An item of a completion ("CompletionItem"): its label is the text that it puts in place of the
/// range.
///
/// # Errors
/// `AllocError` if memory ran out.
pub fn item_value(
    alloc: Global,
    kind: ItemKind,
    label: &str,
    detail: &str,
    documentation: Option<&str>,
    range: Range,
) -> Result<Value, AllocError>
    ensures { IfOk result (λ v. view v ≡ item_data kind label.now detail.now (option_map (λ text. text.now) documentation.entry) range) }
{
    let members = with_text(alloc, Map::new(alloc), "detail", detail)?;
    let members = with_text(alloc, members, "filterText", label)?;
    let members = with_number(alloc, members, "kind", kind.number())?;
    let members = with_text(alloc, members, "label", label)?;
    let edit = text_edit_value(alloc, label, range)?;
    let members = with_value(alloc, members, "textEdit", edit)?;
    match documentation {
        None => Ok(Value::Object(members)),
        Some(text) => {
            let members = with_text(alloc, members, "documentation", text)?;
            Ok(Value::Object(members))
        }
    }
}

/// An item of a completion ("CompletionItem") that offers an obsolete name: it comes after all
/// others, and is tagged as deprecated. Else it is as that of `item_value`.
///
/// # Errors
/// `AllocError` if memory ran out.
pub fn obsolete_item_value(
    alloc: Global,
    kind: ItemKind,
    label: &str,
    detail: &str,
    documentation: &str,
    range: Range,
) -> Result<Value, AllocError>
    ensures { IfOk result (λ v. view v ≡ obsolete_item_data kind label.now detail.now documentation.now range) }
{
    let last = format!(in alloc; "~{label}")?;
    let tags = json!(in alloc; [1_u32])?;
    let edit = text_edit_value(alloc, label, range)?;
    let members = with_text(alloc, Map::new(alloc), "detail", detail)?;
    let members = with_text(alloc, members, "documentation", documentation)?;
    let members = with_text(alloc, members, "filterText", label)?;
    let members = with_number(alloc, members, "kind", kind.number())?;
    let members = with_text(alloc, members, "label", label)?;
    let members = with_text(alloc, members, "sortText", last.as_str())?;
    let members = with_value(alloc, members, "tags", tags)?;
    let members = with_value(alloc, members, "textEdit", edit)?;
    Ok(Value::Object(members))
}

/// An item of a completion ("CompletionItem") that comes after those of `item_value`, and before
/// obsolete ones. Else it is as that of `item_value`.
///
/// # Errors
/// `AllocError` if memory ran out.
pub fn later_item_value(
    alloc: Global,
    kind: ItemKind,
    label: &str,
    detail: &str,
    documentation: &str,
    range: Range,
) -> Result<Value, AllocError>
    ensures { IfOk result (λ v. view v ≡ later_item_data kind label.now detail.now documentation.now range) }
{
    let later = format!(in alloc; "|{label}")?;
    let edit = text_edit_value(alloc, label, range)?;
    let members = with_text(alloc, Map::new(alloc), "detail", detail)?;
    let members = with_text(alloc, members, "documentation", documentation)?;
    let members = with_text(alloc, members, "filterText", label)?;
    let members = with_number(alloc, members, "kind", kind.number())?;
    let members = with_text(alloc, members, "label", label)?;
    let members = with_text(alloc, members, "sortText", later.as_str())?;
    let members = with_value(alloc, members, "textEdit", edit)?;
    Ok(Value::Object(members))
}

/// A parameter of what is written ("ParameterInformation").
///
/// # Errors
/// `AllocError` if memory ran out.
pub fn parameter_value(alloc: Global, label: &str) -> Result<Value, AllocError>
    ensures { IfOk result (λ v. view v ≡ parameter_data label.now) }
{
    json!(in alloc; {"label": label})
}

// What is written with its parameters ("SignatureInformation").
fn signature_value(alloc: Global, label: &str, parameters: Vec<Value>) -> Result<Value, AllocError>
    ensures { IfOk result (λ v. view v ≡ signature_data label.now (items_view parameters.items)) }
{
    let parameters = Value::Array(parameters);
    json!(in alloc; {"label": label, "parameters": parameters})
}

/// Which parameters what is written takes ("SignatureHelp"), and which of them is active, counted
/// from 0, if one is.
///
/// # Errors
/// `AllocError` if memory ran out.
pub fn signature_help_value(
    alloc: Global,
    label: &str,
    parameters: Vec<Value>,
    active: Option<usize>,
) -> Result<Value, AllocError>
    ensures { IfOk result (λ v. view v ≡ signature_help_data label.now (items_view parameters.items) active) }
{
    let signature = signature_value(alloc, label, parameters)?;
    match active {
        None => json!(in alloc; {"activeSignature": 0_u32, "signatures": [signature]}),
        Some(active) => {
            json!(in alloc; {"activeParameter": active, "activeSignature": 0_u32, "signatures": [signature]})
        }
    }
}

/// The items of a completion ("CompletionList"), which are all that there are.
///
/// # Errors
/// `AllocError` if memory ran out.
pub fn list_value(alloc: Global, items: Vec<Value>) -> Result<Value, AllocError>
    ensures { IfOk result (λ v. view v ≡ list_data (items_view items.items)) }
{
    let items = Value::Array(items);
    json!(in alloc; {"isIncomplete": false, "items": items})
}
