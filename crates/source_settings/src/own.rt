//! The hints on names that are the author's own.
ghost use Rattle.std.specs.Prelude.{◌≡◌, ◌++◌, IfOk, map};
ghost use Rattle.std.specs.List.{list_any};
ghost use Rattle.std.specs.Str.{bytes_eq};
ghost use Rattle.std.specs.String.{string_bytes};
ghost use Rattle.source_remarks.specs.Remarks.{remark_seen};
ghost use Rattle.source_settings.specs.Published as spec;

use source_block_hints::HintKind;
use source_remarks::{Remark, hint_message};
use std::alloc::{AllocError, Global};

/// What the hints on unknown names say of these.
///
/// # Errors
/// Out of memory.
pub(crate) fn messages_on(alloc: Global, names: &[String]) -> Result<Vec<String>, AllocError>
    ensures { IfOk result (λ messages. map string_bytes messages.items ≡ map spec.message_on (map string_bytes names.now)) }
{
    let mut messages = Vec::with_capacity(alloc, names.len())?;
    for name in names {
        messages.push(hint_message(alloc, HintKind::UnknownName, name.as_bytes())?)?;
    }
    Ok(messages)
}

// Whether a text is one of these.
fn is_one_of(messages: &[String], text: &str) -> bool
    ensures { result ≡ list_any (λ message. bytes_eq message text.now) (map string_bytes messages.now) }
{
    for message in messages {
        if message.as_str() == text {
            return true;
        }
    }
    false
}

/// Whether a remark is a hint on an unknown name that says one of these.
pub(crate) fn says_one_of(messages: &[String], remark: Remark<'_>) -> bool
    ensures { result ≡ spec.says_one_of (map string_bytes messages.now) (remark_seen remark.entry) }
{
    match remark {
        Remark::Fault(_) => false,
        Remark::Hint(hint) => {
            hint.kind == HintKind::UnknownName && is_one_of(messages, hint.message.as_str())
        }
    }
}
