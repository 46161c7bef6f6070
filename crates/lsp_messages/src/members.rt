//! Members of an object that are texts, numbers and places.
ghost use Rattle.std.specs.Prelude.{◌≡◌, None, Some, codes, option_and_then, option_map};
ghost use Rattle.serde_json.specs.Find.{get};
ghost use Rattle.serde_json.specs.View.{view};
ghost use Rattle.lsp_messages.specs.Messages.{number_at, position_of, range_of, text_at};

use serde_json::Value;
use source_types::{Position, Range};

/// A member that is a string.
pub(crate) fn text_at<'a>(value: &'a Value, key: &str) -> Option<&'a str>
    ensures { option_map (λ text. text.now) result ≡ text_at key.now (view value.now) }
{
    value.get(key)?.as_str()
}

/// A member that is a number below 2^31.
pub(crate) fn number_at(value: &Value, key: &str) -> Option<u32>
    ensures { result ≡ number_at key.now (view value.now) }
{
    let number = value.get(key)?.as_u64()?;
    if number < 0x8000_0000 {
        Some(number as u32)
    } else {
        None
    }
}

/// A position ("Position").
pub(crate) fn read_position(value: &Value) -> Option<Position>
    ensures { result ≡ position_of (view value.now) }
{
    let line = number_at(value, "line")?;
    let column = number_at(value, "character")?;
    Some(Position {
        line: line as usize,
        column: column as usize,
    })
}

/// A member that is a position.
pub(crate) fn position_at(value: &Value, key: &str) -> Option<Position>
    ensures { result ≡ option_and_then position_of (get key.now (view value.now)) }
{
    read_position(value.get(key)?)
}

/// A range ("Range").
pub(crate) fn read_range(value: &Value) -> Option<Range>
    ensures { result ≡ range_of (view value.now) }
{
    let start = position_at(value, "start")?;
    let end = position_at(value, "end")?;
    Some(Range { start, end })
}
