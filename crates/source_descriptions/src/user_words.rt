//! What is said about a user-defined capability that is known, as text.
ghost use Rattle.std.specs.Prelude.{◌≡◌, ◌++◌, IfOk, OnOk, codes, map, option_map};
ghost use Rattle.std.specs.List.{find, flat_map};
ghost use Rattle.std.specs.String.{string_bytes};
ghost use Rattle.source_descriptions.specs.UserDescriptions.{key_sentence, modified, modified_by, shifted, user_described, user_descriptions, user_told};
ghost use Rattle.source_descriptions.specs.UserDescriptions.{has_name, modified_keys, shifted_keys, user_description_seen};

use crate::user_rows::{
    CAPITALS, FUNCTION_KEYS, KEYS, Key, MODIFIERS, Modifier, OTHERS, UserRow, function_key_named,
    key_named, row_named,
};
use crate::words::{after_stop, parameters_text};
use std::alloc::{AllocError, Global};

/// What is said about a user-defined capability that is known.
#[derive(Debug, Drop)]
pub struct UserDescription {
    /// Its name, such as `Smulx`.
    pub name: String,
    /// The kinds that its value may have, such as `string`, or `boolean, number or string`.
    pub kinds: &'static str,
    /// A sentence on it, and on a line of their own the parameters of a string that takes any.
    pub documentation: String,
}

// What a row says.
fn of_row(alloc: Global, row: UserRow) -> Result<UserDescription, AllocError>
    ensures { IfOk result (λ said. user_description_seen said ≡ user_told row.entry.0.now row.entry.1.now row.entry.2.now row.entry.3.now) }
{
    let (name, kinds, sentence, parameters) = row;
    let parameters = parameters_text(alloc, parameters)?;
    Ok(UserDescription {
        name: String::from_str(alloc, name)?,
        kinds,
        documentation: after_stop(alloc, sentence, parameters.as_str())?,
    })
}

// The name of a key with modifiers.
fn joined_name(alloc: Global, key: &str, modifiers: &str) -> Result<String, AllocError>
    ensures { IfOk result (λ name. string_bytes name ≡ key.now ++ modifiers.now) }
{
    format!(in alloc; "{key}{modifiers}")
}

// The sentence on a key with modifiers.
fn key_sentence(alloc: Global, key: &str, modifiers: &str) -> Result<String, AllocError>
    ensures { IfOk result (λ text. string_bytes text ≡ key_sentence key.now modifiers.now) }
{
    let mut text = String::from_str(alloc, "The sequence that ")?;
    text.push_str(modifiers)?;
    text.push_str(" with ")?;
    text.push_str(key)?;
    text.push_str(" sends.")?;
    Ok(text)
}

// What is said about a key with modifiers.
fn of_key(alloc: Global, key: Key, modifier: Modifier) -> Result<UserDescription, AllocError>
    ensures { IfOk result (λ said. user_description_seen said ≡ modified (key.entry.0.now, key.entry.1.now) (modifier.entry.0.now, modifier.entry.1.now)) }
{
    let (stem, key) = key;
    let (suffix, words) = modifier;
    Ok(UserDescription {
        name: joined_name(alloc, stem, suffix)?,
        kinds: "string",
        documentation: key_sentence(alloc, key, words)?,
    })
}

// What a function key is called.
fn function_key(alloc: Global, number: &str) -> Result<String, AllocError>
    ensures { IfOk result (λ text. string_bytes text ≡ codes "function key F" ++ number.now) }
{
    format!(in alloc; "function key F{number}")
}

// What is said about the function key of a number with Shift.
fn of_function_key(alloc: Global, number: &str) -> Result<UserDescription, AllocError>
    ensures { IfOk result (λ said. user_description_seen said ≡ shifted number.now) }
{
    let key = function_key(alloc, number)?;
    Ok(UserDescription {
        name: joined_name(alloc, "kF", number)?,
        kinds: "string",
        documentation: key_sentence(alloc, key.as_str(), "Shift")?,
    })
}

// What is said about the key of a name, if it is that of a key with modifiers, or of a function key
// with Shift.
fn key_description(alloc: Global, name: &[u8]) -> Result<Option<UserDescription>, AllocError>
    ensures { IfOk result (λ said. option_map user_description_seen said ≡ find (has_name name.now) (modified_keys ++ shifted_keys)) }
{
    if let Some((key, modifier)) = key_named(name) {
        return Ok(Some(of_key(alloc, key, modifier)?));
    }
    match function_key_named(name) {
        Some(number) => Ok(Some(of_function_key(alloc, number)?)),
        None => Ok(None),
    }
}

/// What is said about the user-defined capability of a name; `None` if it is not known.
///
/// # Errors
/// Out of memory.
pub fn user_description(alloc: Global, name: &[u8]) -> Result<Option<UserDescription>, AllocError>
    ensures { IfOk result (λ said. option_map user_description_seen said ≡ user_described name.now) }
{
    if let Some(row) = row_named(name) {
        return Ok(Some(of_row(alloc, row)?));
    }
    key_description(alloc, name)
}

// Appends what rows say.
fn push_rows(
    alloc: Global,
    all: &mut Vec<UserDescription>,
    rows: &'static [UserRow],
) -> Result<(), AllocError>
    ensures { OnOk result (map user_description_seen all.new.items
        ≡ map user_description_seen all.old.items ++ map (λ r. user_told r.0.now r.1.now r.2.now r.3.now) rows.now) }
{
    for row in rows {
        all.push(of_row(alloc, *row)?)?;
    }
    Ok(())
}

// Appends what is said about a key with each of these modifiers.
fn push_modified(
    alloc: Global,
    all: &mut Vec<UserDescription>,
    key: Key,
    modifiers: &'static [Modifier],
) -> Result<(), AllocError>
    ensures { OnOk result (map user_description_seen all.new.items
        ≡ map user_description_seen all.old.items ++ map (λ m. modified (key.entry.0.now, key.entry.1.now) (m.0.now, m.1.now)) modifiers.now) }
{
    for modifier in modifiers {
        all.push(of_key(alloc, key, *modifier)?)?;
    }
    Ok(())
}

// Appends what is said about keys with each of the modifiers.
fn push_keys(
    alloc: Global,
    all: &mut Vec<UserDescription>,
    keys: &'static [Key],
) -> Result<(), AllocError>
    ensures { OnOk result (map user_description_seen all.new.items
        ≡ map user_description_seen all.old.items ++ flat_map modified_by (map (λ k. (k.0.now, k.1.now)) keys.now)) }
{
    for key in keys {
        push_modified(alloc, all, *key, &MODIFIERS)?;
    }
    Ok(())
}

// Appends what is said about the function keys of these numbers with Shift.
fn push_function_keys(
    alloc: Global,
    all: &mut Vec<UserDescription>,
    numbers: &'static [&'static str],
) -> Result<(), AllocError>
    ensures { OnOk result (map user_description_seen all.new.items
        ≡ map user_description_seen all.old.items ++ map (λ n. shifted n.now) numbers.now) }
{
    for number in numbers {
        all.push(of_function_key(alloc, *number)?)?;
    }
    Ok(())
}

// Appends what is said about the keys with modifiers, and then about the function keys with Shift.
fn push_all_keys(alloc: Global, all: &mut Vec<UserDescription>) -> Result<(), AllocError>
    ensures { OnOk result (map user_description_seen all.new.items
        ≡ map user_description_seen all.old.items ++ (modified_keys ++ shifted_keys)) }
{
    push_keys(alloc, all, &KEYS)?;
    push_function_keys(alloc, all, &FUNCTION_KEYS)
}

/// What is said about each user-defined capability that is known: those with a row of their own, by
/// name, then the keys with modifiers, and then the function keys with Shift. A key with modifiers
/// is named by the key, and by one more than the number whose bits are the modifiers; a function
/// key with Shift has `kF` in place of `kf`.
///
/// # Errors
/// Out of memory.
pub fn user_descriptions(alloc: Global) -> Result<Vec<UserDescription>, AllocError>
    ensures { IfOk result (λ all. map user_description_seen all.items ≡ user_descriptions) }
{
    let mut all = Vec::new(alloc);
    push_rows(alloc, &mut all, &CAPITALS)?;
    push_rows(alloc, &mut all, &OTHERS)?;
    push_all_keys(alloc, &mut all)?;
    Ok(all)
}
