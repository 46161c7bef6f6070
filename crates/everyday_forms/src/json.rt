//! Objects in JSON, each a diagnostic of the Language Server Protocol with the name of its file.
ghost use Rattle.std.specs.Prelude.{◌≡◌, ◌++◌, IfOk, OnOk};
ghost use Rattle.serde_json.specs.Data.{put, string};
ghost use Rattle.serde_json.specs.View.{members_view, view};
ghost use Rattle.everyday_forms.specs.Json as spec;
ghost use Rattle.everyday_forms.specs.Json.{position_data, range_data, told_data};
ghost use Rattle.everyday_forms.specs.Told.{told_seen};

use crate::told::Told;
use serde_json::{Map, Value, json};
use source_types::{Position, Range};
use std::alloc::{AllocError, Global};

// A position ("Position").
fn position_value(alloc: Global, place: Position) -> Result<Value, AllocError>
    ensures { IfOk result (λ v. view v ≡ position_data place) }
{
    json!(in alloc; {"character": place.column, "line": place.line})
}

// A range ("Range").
fn range_value(alloc: Global, range: Range) -> Result<Value, AllocError>
    ensures { IfOk result (λ v. view v ≡ range_data range) }
{
    let start = position_value(alloc, range.start)?;
    let end = position_value(alloc, range.end)?;
    json!(in alloc; {"end": end, "start": start})
}

// Members with a value at a key.
fn with_value(
    alloc: Global,
    mut members: Map<String, Value>,
    key: &str,
    value: Value,
) -> Result<Map<String, Value>, AllocError>
    ensures { IfOk result (λ all. members_view all.entries ≡ put key.now (view value) (members_view members.entries)) }
{
    serde_json::put(&mut members, alloc, key, value)?;
    Ok(members)
}

// Members with a text at a key.
fn with_text(
    alloc: Global,
    members: Map<String, Value>,
    key: &str,
    text: &str,
) -> Result<Map<String, Value>, AllocError>
    ensures { IfOk result (λ all. members_view all.entries ≡ put key.now (string text.now) (members_view members.entries)) }
{
    with_value(
        alloc,
        members,
        key,
        Value::String(String::from_str(alloc, text)?),
    )
}

// What is told, as a diagnostic with its file.
fn told_value(alloc: Global, told: &Told<'_>) -> Result<Value, AllocError>
    ensures { IfOk result (λ v. view v ≡ told_data (told_seen told.now)) }
{
    let range = range_value(alloc, told.range)?;
    let severity = Value::from(told.severity.number());
    let members = with_value(alloc, Map::new(alloc), "range", range)?;
    let members = with_text(alloc, members, "code", told.code)?;
    let members = with_text(alloc, members, "file", told.file)?;
    let members = with_text(alloc, members, "message", told.message)?;
    let members = with_value(alloc, members, "severity", severity)?;
    let members = with_text(alloc, members, "source", "ti")?;
    Ok(Value::Object(members))
}

/// Adds what is told as an object, after a comma.
///
/// # Errors
/// Out of memory.
pub(crate) fn push_json(alloc: Global, out: &mut Vec<u8>, told: &Told<'_>) -> Result<(), AllocError>
    ensures { OnOk result (out.new.items ≡ out.old.items ++ spec.json_text (told_seen told.now)) }
{
    let text = told_value(alloc, told)?.to_string(alloc)?;
    out.push(b',')?;
    out.extend_from_slice(text.as_bytes())
}

/// An array of these objects, each of which is after a comma.
///
/// # Errors
/// Out of memory.
pub(crate) fn array_of(alloc: Global, objects: &[u8]) -> Result<Vec<u8>, AllocError>
    ensures { IfOk result (λ all. all.items ≡ spec.array_of objects.now) }
{
    let mut all = Vec::new(alloc);
    all.push(b'[')?;
    all.extend_from_slice(&objects[1.min(objects.len())..])?;
    all.extend_from_slice(b"]\n")?;
    Ok(all)
}

/// A law, with no code: all that is told as JSON is one array, as it is written with no space.
pub fn arrays_are_json()
    ensures { spec.ArraysAreJson }
{}
