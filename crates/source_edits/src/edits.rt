//! What is offered against the fault of an item, as edits of its block.
ghost use Rattle.std.specs.Prelude.{◌≡◌, ◌<◌, ◌++◌, ◌^◌, All, IfOk, OnOk, is_ok, map, option_map};
ghost use Rattle.std.specs.List.{list_all};
ghost use Rattle.ti_source.specs.Items.{bytes};
ghost use Rattle.ti_spelling.specs.inside.Numbers.{number_read};
ghost use Rattle.source_spans.specs.Parts.{spanned};
ghost use Rattle.source_edits.specs.Edits as spec;
ghost use Rattle.source_edits.specs.Edits.{advice_seen, carets, edit_seen, edits_for, is_certain, is_digit, is_number, keeps_return, kind_signs, known_names, rename, renames, sign_for, signs};
ghost use Rattle.source_edits.specs.Edits.{spelling_in, spellings};

use crate::candidates::names_for;
use crate::carets::{can_be_read, healing_caret};
use crate::distances::nearest;
use crate::pieces::{after_name, bytes_of, last_of, span, value_of, without_last, written_name};
use crate::texts::{last_byte, shown};
use source_spans::Part;
use std::alloc::{AllocError, Global};
use ti_caps::{Kind, find};
use ti_source::{Code, escape, read_number};

/// What is advised.
#[derive(Debug, Drop)]
pub enum Advice {
    /// Another name in place of a name.
    Name {
        /// The name, in ASCII.
        name: String,
        /// The other name, in ASCII.
        other: String,
    },
    /// The sign of a kind: none of a boolean, `#` of a number, `=` of a string.
    Sign(Kind),
    /// The string as it is read.
    Spelling,
    /// A backslash before the `^` at the end of a string, which takes nothing.
    Caret,
}

impl Advice {
    /// Whether it is certain: it is the one way to heal what it is against, and keeps what the item
    /// is about. Another name is a guess, and an odd escape is healed without its backslash or with
    /// two.
    pub fn is_certain(&self) -> bool
        ensures { result ≡ is_certain (advice_seen self.now) }
    {
        match self {
            Advice::Name { .. } | Advice::Spelling => false,
            Advice::Sign(_) | Advice::Caret => true,
        }
    }
}

/// An edit of a block.
#[derive(Debug, Drop)]
pub struct Edit {
    /// What it does.
    pub advice: Advice,
    /// The part of the block that is exchanged.
    pub part: Part,
    /// Its new text, in ASCII.
    pub text: String,
}

// Another name in place of one that is in that part.
fn rename(alloc: Global, name: &[u8], part: Part, other: &[u8]) -> Result<Edit, AllocError>
    ensures { IfOk result (λ edit. edit_seen edit ≡ rename name.now part other.now) }
{
    Ok(Edit {
        advice: Advice::Name {
            name: shown(alloc, name)?,
            other: shown(alloc, other)?,
        },
        part,
        text: shown(alloc, other)?,
    })
}

// Adds an edit for each of some names in place of one that is in that part.
fn push_renames(
    alloc: Global,
    edits: &mut Vec<Edit>,
    name: &[u8],
    part: Part,
    others: &[&[u8]],
) -> Result<(), AllocError>
    ensures { OnOk result (map edit_seen edits.new.items ≡ map edit_seen edits.old.items ++ map (rename name.now part) (map (λ other. other.now) others.now)) }
{
    for other in others {
        edits.push(rename(alloc, name, part, other)?)?;
    }
    Ok(())
}

/// Adds the nearest of some names in place of one.
///
/// # Errors
/// Out of memory.
pub fn push_nearest(
    alloc: Global,
    edits: &mut Vec<Edit>,
    name: &[(u8, usize)],
    others: &[&[u8]],
) -> Result<(), AllocError>
    requires { All (λ x. x.1 < 2 ^ 63) name.now }
    ensures { OnOk result (map edit_seen edits.new.items ≡ map edit_seen edits.old.items ++ renames name.now (map (λ other. other.now) others.now)) }
{
    let Some(part) = span(name) else {
        return Ok(());
    };
    let bytes = bytes_of(alloc, name)?;
    let found = nearest(alloc, &bytes, others)?;
    push_renames(alloc, edits, &bytes, part, &found)
}

// Adds the nearest names of capabilities in place of that of an item.
fn push_known(alloc: Global, edits: &mut Vec<Edit>, item: &[(u8, usize)]) -> Result<(), AllocError>
    requires { All (λ x. x.1 < 2 ^ 63) item.now }
    ensures { OnOk result (map edit_seen edits.new.items ≡ map edit_seen edits.old.items ++ known_names item.now) }
{
    let names = names_for(alloc, after_name(item))?;
    push_nearest(alloc, edits, written_name(item), &names)
}

// Whether a byte is a decimal digit.
fn is_digit(byte: u8) -> bool
    ensures { result ≡ is_digit byte }
{
    matches!(byte, b'0'..=b'9')
}

// Whether each byte is a decimal digit.
fn are_digits(value: &[u8]) -> bool
    ensures { result ≡ list_all is_digit value.now }
{
    value.iter().all(|byte| is_digit(*byte))
}

// Whether a value reads as a number.
fn reads_as_number(value: &[u8]) -> bool
    ensures { result ≡ is_ok (number_read value.now) }
{
    match read_number(value) {
        Ok(_) => true,
        Err(_) => false,
    }
}

// Whether a value is a number in digits.
fn is_number(value: &[u8]) -> bool
    ensures { result ≡ is_number value.now }
{
    are_digits(value) && reads_as_number(value)
}

// What takes the place of the sign before a value, if that spells a string.
fn text_sign(alloc: Global, raw: &[u8]) -> Result<Option<&'static str>, AllocError>
    ensures { IfOk result (λ sign. option_map (λ sign. sign.now) sign ≡ spec.text_sign raw.now) }
{
    if can_be_read(alloc, raw)? {
        return Ok(Some("="));
    }
    Ok(None)
}

// What takes the place of the sign before a value so that a capability of a kind is read with it. The
// value comes without the white space at its end, and as it is.
fn sign_for(
    alloc: Global,
    kind: Kind,
    value: &[u8],
    raw: &[u8],
) -> Result<Option<&'static str>, AllocError>
    ensures { IfOk result (λ sign. option_map (λ sign. sign.now) sign ≡ sign_for kind value.now raw.now) }
{
    match kind {
        Kind::Flag if value.is_empty() => Ok(Some("")),
        Kind::Number if is_number(value) => Ok(Some("#")),
        Kind::Text if !value.is_empty() => text_sign(alloc, raw),
        _ => Ok(None),
    }
}

// Adds a sign in place of the byte at that offset.
fn push_sign(
    alloc: Global,
    edits: &mut Vec<Edit>,
    kind: Kind,
    at: usize,
    sign: &str,
) -> Result<(), AllocError>
    requires { at < 2 ^ 63 }
    ensures { OnOk result (map edit_seen edits.new.items ≡ map edit_seen edits.old.items ++ spec.sign_at kind at (Some sign.now)) }
{
    let mut text = String::new(alloc);
    text.push_str(sign)?;
    edits.push(Edit {
        advice: Advice::Sign(kind),
        part: Part {
            start: at,
            end: at + 1,
        },
        text,
    })?;
    Ok(())
}

// Adds the sign of a kind in place of the first byte after the name, by what is after the name and by
// the value as it is.
fn push_signs(
    alloc: Global,
    edits: &mut Vec<Edit>,
    kind: Kind,
    rest: &[(u8, usize)],
    raw: &[(u8, usize)],
) -> Result<(), AllocError>
    requires { All (λ x. x.1 < 2 ^ 63) rest.now }
    ensures { OnOk result (map edit_seen edits.new.items ≡ map edit_seen edits.old.items ++ signs kind rest.now raw.now) }
{
    let Some((first, value)) = rest.split_first() else {
        return Ok(());
    };
    let value = bytes_of(alloc, value)?;
    let raw = bytes_of(alloc, raw)?;
    match sign_for(alloc, kind, &value, &raw)? {
        Some(sign) => push_sign(alloc, edits, kind, first.1, sign),
        None => Ok(()),
    }
}

// Adds the sign of the kind of an item's capability in place of its own.
fn push_kind(alloc: Global, edits: &mut Vec<Edit>, item: &[(u8, usize)]) -> Result<(), AllocError>
    requires { All (λ x. x.1 < 2 ^ 63) item.now }
    ensures { OnOk result (map edit_seen edits.new.items ≡ map edit_seen edits.old.items ++ kind_signs item.now) }
{
    let name = bytes_of(alloc, written_name(item))?;
    match find(&name) {
        Some(capability) => push_signs(
            alloc,
            edits,
            capability.kind(),
            after_name(item),
            value_of(item),
        ),
        None => Ok(()),
    }
}

// Adds a string as it is spelled, in place of how it is written.
fn push_spelled(
    alloc: Global,
    edits: &mut Vec<Edit>,
    raw: &[(u8, usize)],
    value: &[u8],
) -> Result<(), AllocError>
    requires { All (λ x. x.1 < 2 ^ 63) raw.now }
    ensures { OnOk result (map edit_seen edits.new.items ≡ map edit_seen edits.old.items ++ spelling_in value.now (spanned raw.now)) }
{
    let Some(part) = span(raw) else {
        return Ok(());
    };
    let spelling = escape(alloc, value)?;
    let text = shown(alloc, &spelling)?;
    edits.push(Edit {
        advice: Advice::Spelling,
        part,
        text,
    })?;
    Ok(())
}

// Whether a string that is more than a CR ends with a CR that stands for itself.
fn keeps_return(raw: &[(u8, usize)], value: &[u8]) -> bool
    ensures { result ≡ keeps_return (bytes raw.now) value.now }
{
    last_of(raw) == b'\r' && value.len() > 1 && last_byte(value) == b'\r'
}

// Adds the value of an item as it is spelled, in place of how it is written. A CR at its end stays
// as it is: it may be that of a CR LF, which an editor takes for the end of the line.
fn push_spelling(
    alloc: Global,
    edits: &mut Vec<Edit>,
    item: &[(u8, usize)],
    value: &[u8],
) -> Result<(), AllocError>
    requires { All (λ x. x.1 < 2 ^ 63) item.now }
    ensures { OnOk result (map edit_seen edits.new.items ≡ map edit_seen edits.old.items ++ spellings item.now value.now) }
{
    let raw = value_of(item);
    if keeps_return(raw, value) {
        let front = &value[..value.len().saturating_sub(1)];
        push_spelled(alloc, edits, without_last(raw), front)
    } else {
        push_spelled(alloc, edits, raw, value)
    }
}

// Adds `\^` in place of the `^` at the end of an item's value that takes nothing, if there is one
// and the value is read then.
fn push_caret(alloc: Global, edits: &mut Vec<Edit>, item: &[(u8, usize)]) -> Result<(), AllocError>
    requires { All (λ x. x.1 < 2 ^ 63) item.now }
    ensures { OnOk result (map edit_seen edits.new.items ≡ map edit_seen edits.old.items ++ carets item.now) }
{
    let Some(part) = healing_caret(alloc, value_of(item))? else {
        return Ok(());
    };
    let mut text = String::new(alloc);
    text.push_str("\\^")?;
    edits.push(Edit {
        advice: Advice::Caret,
        part,
        text,
    })?;
    Ok(())
}

/// Adds what is offered for an item that has a string, if it has one, by its fault, if it has one.
///
/// # Errors
/// Out of memory.
pub fn push_edits(
    alloc: Global,
    edits: &mut Vec<Edit>,
    item: &[(u8, usize)],
    code: Option<Code>,
    value: Option<&[u8]>,
) -> Result<(), AllocError>
    requires { All (λ x. x.1 < 2 ^ 63) item.now }
    ensures { OnOk result (map edit_seen edits.new.items ≡ map edit_seen edits.old.items ++ edits_for item.now code (option_map (λ value. value.now) value.entry)) }
{
    match (code, value) {
        (Some(Code::UnknownCapability), _) => push_known(alloc, edits, item),
        (Some(Code::WrongKind), _) => push_kind(alloc, edits, item),
        (Some(Code::UnknownEscape), Some(value)) => push_spelling(alloc, edits, item, value),
        (Some(Code::BadString), _) => push_caret(alloc, edits, item),
        _ => Ok(()),
    }
}
