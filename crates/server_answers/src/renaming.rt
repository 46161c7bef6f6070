//! Answers to requests to rename, as values of the protocol.
ghost use Rattle.std.specs.Prelude.{◌≡◌, IfOk, map};
ghost use Rattle.serde_json.specs.View.{view};
ghost use Rattle.source_names.specs.Renaming as names;
ghost use Rattle.source_names.specs.Renaming.{rename_edit_seen};
ghost use Rattle.server_answers.specs.Answers.{edit_data, renamable_data, renamed_said};
ghost use Rattle.lsp_values.specs.Views.{reply_view};

use lsp_values::Reply;
use lsp_values::answers::{text_edit_value, workspace_edit_value};
use lsp_values::writing::range_value;
use serde_json::Value;
use source_document::Document;
use source_names::{RenameEdit, Renaming, renamable_at, renaming_of};
use source_types::Position;
use std::alloc::{AllocError, Global};

// The edits of a rename.
fn edit_values(alloc: Global, edits: &[RenameEdit]) -> Result<Vec<Value>, AllocError>
    ensures { IfOk result (λ values. map view values.items ≡ map edit_data (map rename_edit_seen edits.now)) }
{
    let mut values = Vec::new(alloc);
    for edit in edits {
        values.push(text_edit_value(alloc, &edit.text, edit.range)?)?;
    }
    Ok(values)
}

/// What comes of a rename at a place: the edits, nothing if the place is on no name that a block
/// owns, or why the new name is refused.
///
/// # Errors
/// Out of memory.
pub fn renamed(
    alloc: Global,
    document: &Document,
    uri: &str,
    place: Position,
    name: &str,
) -> Result<Reply, AllocError>
    ensures { IfOk result (λ reply. reply_view reply ≡ renamed_said uri.now (names.renaming_of document.now place name.now)) }
{
    match renaming_of(alloc, document, place, name.as_bytes())? {
        Renaming::Nothing => Ok(Reply::Answer(Value::Null)),
        Renaming::Refused(failure) => Ok(Reply::Refusal(failure)),
        Renaming::Edits(edits) => {
            let values = edit_values(alloc, &edits)?;
            Ok(Reply::Answer(workspace_edit_value(alloc, uri, values)?))
        }
    }
}

/// The name that a rename at a place is of, or null if nothing is renamed there.
///
/// # Errors
/// Out of memory.
pub fn renamable(alloc: Global, document: &Document, place: Position) -> Result<Value, AllocError>
    ensures { IfOk result (λ v. view v ≡ renamable_data (names.renamable_at document.now place)) }
{
    match renamable_at(alloc, document, place)? {
        None => Ok(Value::Null),
        Some(range) => range_value(alloc, range),
    }
}
