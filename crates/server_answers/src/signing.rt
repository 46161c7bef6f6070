//! Which parameters a string takes, as a value of the protocol.
ghost use Rattle.std.specs.Prelude.{◌≡◌, ◌++◌, ◌∷◌, [], IfOk, OnOk, map};
ghost use Rattle.std.specs.String.{string_bytes};
ghost use Rattle.serde_json.specs.View.{view};
ghost use Rattle.source_features.specs.Signatures.{signature_of};
ghost use Rattle.server_answers.specs.Signatures.{label_of, parameters_shown, signature_shown};

use lsp_values::answers::{parameter_value, signature_help_value};
use serde_json::Value;
use source_document::Document;
use source_features::signature_of;
use source_types::Position;
use std::alloc::{AllocError, Global};

// Parameters whose names have commas between them.
fn parameter_values(alloc: Global, names: &str) -> Result<Vec<Value>, AllocError>
    ensures { IfOk result (λ values. map view values.items ≡ parameters_shown names.now) }
{
    let mut values = Vec::new(alloc);
    for part in names.split(',') {
        values.push(parameter_value(alloc, part.trim_start())?)?;
    }
    Ok(values)
}

// A name with those of its parameters.
fn label_of(alloc: Global, name: &str, parameters: &str) -> Result<String, AllocError>
    ensures { IfOk result (λ label. string_bytes label ≡ label_of name.now parameters.now) }
{
    format!(in alloc; "{name}({parameters})")
}

/// Which parameters the string takes that a position is in.
///
/// # Errors
/// Out of memory.
pub fn signature(alloc: Global, document: &Document, place: Position) -> Result<Value, AllocError>
    ensures { IfOk result (λ v. view v ≡ signature_shown (signature_of document.now place)) }
{
    let Some(found) = signature_of(alloc, document, place)? else {
        return Ok(Value::Null);
    };
    let label = label_of(alloc, found.name, found.parameters)?;
    let values = parameter_values(alloc, found.parameters)?;
    signature_help_value(alloc, label.as_str(), values, found.active)
}
