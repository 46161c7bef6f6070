//! Compares two entries capability by capability.
ghost use Rattle.std.specs.Prelude.{◌≡◌, ◌++◌, option_map, IfOk, OnOk};
ghost use Rattle.ti_list.specs.Comparison.{value_separator, common_row, compared_kind, comparison, differing_row};
ghost use Rattle.ti_list.specs.Comparison.{kind_heading, neither_row, row, have_same, value_text};
ghost use Rattle.ti_layout.specs.Values.{content_seen};
ghost use Rattle.ti_layout.specs.View.{entry_seen};

use crate::contents::same_content;
use crate::layout::{Mode, Order};
use crate::order::cap_at;
use itoa::Buffer;
use std::alloc::{AllocError, Global};
use ti_caps::{Cap, Kind, count, name};
use ti_layout::{Content, View};
use ti_spelling::push_escaped;

// Appends what an entry has of a capability of the kind: `T` or `F`, a number, a string in quotes,
// or `NULL` if it has none.
fn push_value(out: &mut Vec<u8>, kind: Kind, content: Option<Content<'_>>) -> Result<(), AllocError>
    ensures { OnOk result (out.new.items ≡ out.old.items ++ value_text kind (option_map content_seen content.entry)) }
{
    match content {
        Some(Content::True) => out.extend_from_slice(b"T"),
        Some(Content::Number(number)) => {
            out.extend_from_slice(Buffer::new().format(number).as_bytes())
        }
        Some(Content::Text(text)) => {
            out.extend_from_slice(b"'")?;
            push_escaped(out, text)?;
            out.extend_from_slice(b"'")
        }
        None | Some(Content::Cancelled) => match kind {
            Kind::Flag => out.extend_from_slice(b"F"),
            Kind::Number | Kind::Text => out.extend_from_slice(b"NULL"),
        },
    }
}

// Whether two entries have the same value of a capability, or neither has one.
fn have_same(one: Option<Content<'_>>, other: Option<Content<'_>>) -> bool
    ensures { result ≡ have_same (option_map content_seen one.entry) (option_map content_seen other.entry) }
{
    match (one, other) {
        (None, None) => true,
        (Some(one), Some(other)) => same_content(one, other),
        _ => false,
    }
}

// What separates two values of a kind.
fn value_separator(kind: Kind) -> &'static [u8]
    ensures { result.now ≡ value_separator kind }
{
    match kind {
        Kind::Flag => b":",
        Kind::Number | Kind::Text => b", ",
    }
}

// Appends the row of a capability whose values differ.
fn push_differing(
    out: &mut Vec<u8>,
    cap: Cap,
    one: Option<Content<'_>>,
    other: Option<Content<'_>>,
) -> Result<(), AllocError>
    ensures { OnOk result (out.new.items ≡ out.old.items ++ differing_row cap (option_map content_seen one.entry) (option_map content_seen other.entry)) }
{
    out.extend_from_slice(b"\t")?;
    out.extend_from_slice(name(cap).as_bytes())?;
    out.extend_from_slice(b": ")?;
    push_value(out, cap.kind(), one)?;
    out.extend_from_slice(value_separator(cap.kind()))?;
    push_value(out, cap.kind(), other)?;
    out.extend_from_slice(b".\n")
}

// Appends the row of a capability whose values are equal.
fn push_common(out: &mut Vec<u8>, cap: Cap, content: Option<Content<'_>>) -> Result<(), AllocError>
    ensures { OnOk result (out.new.items ≡ out.old.items ++ common_row cap (option_map content_seen content.entry)) }
{
    out.extend_from_slice(b"\t")?;
    out.extend_from_slice(name(cap).as_bytes())?;
    out.extend_from_slice(b"= ")?;
    push_value(out, cap.kind(), content)?;
    out.extend_from_slice(b".\n")
}

// Appends the row of a capability that neither entry has.
fn push_neither(out: &mut Vec<u8>, cap: Cap) -> Result<(), AllocError>
    ensures { OnOk result (out.new.items ≡ out.old.items ++ neither_row cap) }
{
    out.extend_from_slice(b"\t!")?;
    out.extend_from_slice(name(cap).as_bytes())?;
    out.extend_from_slice(b".\n")
}

// Appends the row of a capability, if the mode asks for it.
fn push_row(
    out: &mut Vec<u8>,
    mode: Mode,
    cap: Cap,
    one: Option<Content<'_>>,
    other: Option<Content<'_>>,
) -> Result<(), AllocError>
    ensures { OnOk result (out.new.items ≡ out.old.items ++ row mode cap (option_map content_seen one.entry) (option_map content_seen other.entry)) }
{
    match mode {
        Mode::Differ if !have_same(one, other) => push_differing(out, cap, one, other),
        Mode::Common if one.is_some() && have_same(one, other) => push_common(out, cap, one),
        Mode::Neither if one.is_none() && other.is_none() => push_neither(out, cap),
        _ => Ok(()),
    }
}

// The heading of a kind.
fn kind_heading(kind: Kind) -> &'static [u8]
    ensures { result.now ≡ kind_heading kind }
{
    match kind {
        Kind::Flag => b"    comparing booleans.\n",
        Kind::Number => b"    comparing numbers.\n",
        Kind::Text => b"    comparing strings.\n",
    }
}

// Appends the heading of a kind and its rows.
fn push_kind(
    out: &mut Vec<u8>,
    one: &View<'_>,
    other: &View<'_>,
    mode: Mode,
    order: Order,
    kind: Kind,
) -> Result<(), AllocError>
    ensures { OnOk result (out.new.items ≡ out.old.items ++ compared_kind (entry_seen one.now) (entry_seen other.now) mode order kind) }
{
    out.extend_from_slice(kind_heading(kind))?;
    for place in 0..count(kind) {
        let cap = cap_at(order, kind, place);
        push_row(out, mode, cap, one.get(cap), other.get(cap))?;
    }
    Ok(())
}

/// The comparison of two entries, as infocmp(1)'s `-d`, `-c` and `-n` print it: a heading with
/// their first names, and under a heading for each kind the rows of its capabilities that the mode
/// asks for, in the order that is asked for.
///
/// # Errors
/// `AllocError` if there is no room for it.
pub fn compare(
    alloc: Global,
    one: &View<'_>,
    other: &View<'_>,
    mode: Mode,
    order: Order,
) -> Result<Vec<u8>, AllocError>
    ensures { IfOk result (λ text. text.items ≡ comparison (entry_seen one.now) (entry_seen other.now) mode order) }
{
    let mut out = Vec::from_slice(alloc, b"comparing ")?;
    out.extend_from_slice(one.first_name())?;
    out.extend_from_slice(b" to ")?;
    out.extend_from_slice(other.first_name())?;
    out.extend_from_slice(b".\n")?;
    push_kind(&mut out, one, other, mode, order, Kind::Flag)?;
    push_kind(&mut out, one, other, mode, order, Kind::Number)?;
    push_kind(&mut out, one, other, mode, order, Kind::Text)?;
    Ok(out)
}
