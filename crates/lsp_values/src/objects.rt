//! Objects made member by member. One `json!` makes them as well, but its proof grows faster than
//! the number of members.
ghost use Rattle.std.specs.Prelude.{◌≡◌, IfOk};
ghost use Rattle.serde_json.specs.Data.{put, string};
ghost use Rattle.serde_json.specs.View.{members_view, view};
ghost use Rattle.lsp_values.specs.Shapes.{natural};

use serde_json::{Map, Value};
use std::alloc::{AllocError, Global};

/// Members with a value at a key.
pub(crate) fn with_value(
    alloc: Global,
    mut members: Map<String, Value>,
    key: &str,
    value: Value,
) -> Result<Map<String, Value>, AllocError>
    ensures { IfOk result (λ all. members_view all.entries ≡ put key.now (view value) (members_view members.entries)) }
{
    serde_json::put(&mut members, alloc, key, value)?;
    Ok(members)
}

/// Members with a text at a key.
pub(crate) fn with_text(
    alloc: Global,
    members: Map<String, Value>,
    key: &str,
    text: &str,
) -> Result<Map<String, Value>, AllocError>
    ensures { IfOk result (λ all. members_view all.entries ≡ put key.now (string text.now) (members_view members.entries)) }
{
    with_value(
        alloc,
        members,
        key,
        Value::String(String::from_str(alloc, text)?),
    )
}

/// Members with a number at a key.
pub(crate) fn with_number(
    alloc: Global,
    members: Map<String, Value>,
    key: &str,
    number: u32,
) -> Result<Map<String, Value>, AllocError>
    ensures { IfOk result (λ all. members_view all.entries ≡ put key.now (natural number) (members_view members.entries)) }
{
    with_value(alloc, members, key, Value::from(number))
}
