//! What is said about a capability, as text.
ghost use Rattle.std.specs.Prelude.{◌≡◌, ◌++◌, IfOk, codes};
ghost use Rattle.std.specs.String.{string_bytes};
ghost use Rattle.source_descriptions.specs.Descriptions.{description_seen};
ghost use Rattle.source_descriptions.specs.Words.{detail_of, documentation_of, documented, kind_word, parameters_text};

use crate::descriptions::{Description, description_of};
use std::alloc::{AllocError, Global};
use ti_caps::{Cap, Kind};

// The word for a kind.
fn kind_word(kind: Kind) -> &'static str
    ensures { result.now ≡ kind_word kind }
{
    match kind {
        Kind::Flag => "boolean",
        Kind::Number => "number",
        Kind::Text => "string",
    }
}

/// The kind of a capability and its variable in X/Open Curses, as `string, cursor_address`.
///
/// # Errors
/// Out of memory.
pub fn detail_of(alloc: Global, cap: Cap) -> Result<String, AllocError>
    ensures { IfOk result (λ text. string_bytes text ≡ detail_of cap) }
{
    let word = kind_word(cap.kind());
    let variable = description_of(cap).variable;
    format!(in alloc; "{word}, {variable}")
}

// The parameters of a string on a line of their own, or nothing.
pub(crate) fn parameters_text(alloc: Global, parameters: &str) -> Result<String, AllocError>
    ensures { IfOk result (λ text. string_bytes text ≡ parameters_text parameters.now) }
{
    if parameters.is_empty() {
        Ok(String::new(alloc))
    } else {
        format!(in alloc; "\nParameters: {parameters}.")
    }
}

// A sentence with its full stop, and what comes after it.
pub(crate) fn after_stop(alloc: Global, sentence: &str, after: &str) -> Result<String, AllocError>
    ensures { IfOk result (λ text. string_bytes text ≡ sentence.now ++ codes "." ++ after.now) }
{
    format!(in alloc; "{sentence}.{after}")
}

// A sentence, and on a line of their own the parameters, if there are any.
fn documented(alloc: Global, said: Description) -> Result<String, AllocError>
    ensures { IfOk result (λ text. string_bytes text ≡ documented (description_seen said)) }
{
    let parameters = parameters_text(alloc, said.parameters)?;
    after_stop(alloc, said.sentence, parameters.as_str())
}

/// The sentence on a capability, and on a line of their own the parameters of a string that takes
/// any.
///
/// # Errors
/// Out of memory.
pub fn documentation_of(alloc: Global, cap: Cap) -> Result<String, AllocError>
    ensures { IfOk result (λ text. string_bytes text ≡ documentation_of cap) }
{
    documented(alloc, description_of(cap))
}
