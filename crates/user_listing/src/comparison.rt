//! Compares two entries with their user-defined capabilities.
ghost use Rattle.std.specs.Prelude.{◌≡◌, ◌++◌, option_map, IfOk, OnOk};
ghost use Rattle.ti_layout.specs.Values.{content_seen};
ghost use Rattle.ti_layout.specs.View.{view_contents};
ghost use Rattle.ti_list.specs.Comparison.{have_same, kind_heading, rows, value_separator, value_text};
ghost use Rattle.ti_list.specs.Listing.{in_order};
ghost use Rattle.user_listing.specs.Comparison.{common_row, compared_kind, differing_row, extended_comparison, named_row, neither_row, user_rows};
ghost use Rattle.user_listing.specs.Entries.{extended_seen};

use crate::entry::ExtendedEntry;
use crate::kinds::of_kind;
use crate::listing::cap_at;
use crate::names::names_among;
use crate::values::same_content;
use itoa::Buffer;
use std::alloc::{AllocError, Global};
use ti_caps::{Kind, count, name};
use ti_layout::Content;
use ti_list::{Mode, Order};
use ti_spelling::push_escaped;

// Appends what an entry has of a name of the kind: `T` or `F`, a number, a string in quotes, or
// `NULL` if it has none.
fn push_value(out: &mut Vec<u8>, kind: Kind, content: Option<Content<'_>>) -> Result<(), AllocError>
    ensures { OnOk result (out.new.items ≡ out.old.items ++ value_text kind (option_map content_seen content.entry)) }
{
    match content {
        Some(Content::True) => out.extend_from_slice(b"T"),
        Some(Content::Number(number)) => {
            out.extend_from_slice(Buffer::new().format(number).as_bytes())
        }
        Some(Content::Text(text)) => {
            out.extend_from_slice(b"'")?;
            push_escaped(out, text)?;
            out.extend_from_slice(b"'")
        }
        None | Some(Content::Cancelled) => match kind {
            Kind::Flag => out.extend_from_slice(b"F"),
            Kind::Number | Kind::Text => out.extend_from_slice(b"NULL"),
        },
    }
}

// Whether two entries have the same value, or neither has one.
fn have_same(one: Option<Content<'_>>, other: Option<Content<'_>>) -> bool
    ensures { result ≡ have_same (option_map content_seen one.entry) (option_map content_seen other.entry) }
{
    match (one, other) {
        (None, None) => true,
        (Some(one), Some(other)) => same_content(one, other),
        _ => false,
    }
}

// What separates two values of a kind.
fn value_separator(kind: Kind) -> &'static [u8]
    ensures { result.now ≡ value_separator kind }
{
    match kind {
        Kind::Flag => b":",
        Kind::Number | Kind::Text => b", ",
    }
}

// Appends the row of a name whose values differ.
fn push_differing(
    out: &mut Vec<u8>,
    kind: Kind,
    name: &[u8],
    one: Option<Content<'_>>,
    other: Option<Content<'_>>,
) -> Result<(), AllocError>
    ensures { OnOk result (out.new.items ≡ out.old.items ++ differing_row kind name.now (option_map content_seen one.entry) (option_map content_seen other.entry)) }
{
    out.extend_from_slice(b"\t")?;
    out.extend_from_slice(name)?;
    out.extend_from_slice(b": ")?;
    push_value(out, kind, one)?;
    out.extend_from_slice(value_separator(kind))?;
    push_value(out, kind, other)?;
    out.extend_from_slice(b".\n")
}

// Appends the row of a name whose values are equal.
fn push_common(
    out: &mut Vec<u8>,
    kind: Kind,
    name: &[u8],
    content: Option<Content<'_>>,
) -> Result<(), AllocError>
    ensures { OnOk result (out.new.items ≡ out.old.items ++ common_row kind name.now (option_map content_seen content.entry)) }
{
    out.extend_from_slice(b"\t")?;
    out.extend_from_slice(name)?;
    out.extend_from_slice(b"= ")?;
    push_value(out, kind, content)?;
    out.extend_from_slice(b".\n")
}

// Appends the row of a name that neither entry has.
fn push_neither(out: &mut Vec<u8>, name: &[u8]) -> Result<(), AllocError>
    ensures { OnOk result (out.new.items ≡ out.old.items ++ neither_row name.now) }
{
    out.extend_from_slice(b"\t!")?;
    out.extend_from_slice(name)?;
    out.extend_from_slice(b".\n")
}

// Appends the row of a name, if the mode asks for it.
fn push_row(
    out: &mut Vec<u8>,
    mode: Mode,
    kind: Kind,
    name: &[u8],
    one: Option<Content<'_>>,
    other: Option<Content<'_>>,
) -> Result<(), AllocError>
    ensures { OnOk result (out.new.items ≡ out.old.items ++ named_row mode kind name.now (option_map content_seen one.entry) (option_map content_seen other.entry)) }
{
    match mode {
        Mode::Differ if !have_same(one, other) => push_differing(out, kind, name, one, other),
        Mode::Common if one.is_some() && have_same(one, other) => push_common(out, kind, name, one),
        Mode::Neither if one.is_none() && other.is_none() => push_neither(out, name),
        _ => Ok(()),
    }
}

// The heading of a kind.
fn kind_heading(kind: Kind) -> &'static [u8]
    ensures { result.now ≡ kind_heading kind }
{
    match kind {
        Kind::Flag => b"    comparing booleans.\n",
        Kind::Number => b"    comparing numbers.\n",
        Kind::Text => b"    comparing strings.\n",
    }
}

// Appends the rows of a kind that are of the tables.
fn push_table_rows(
    out: &mut Vec<u8>,
    one: &ExtendedEntry<'_>,
    other: &ExtendedEntry<'_>,
    mode: Mode,
    order: Order,
    kind: Kind,
) -> Result<(), AllocError>
    ensures { OnOk result (out.new.items ≡ out.old.items ++ rows mode (view_contents one.now.view) (view_contents other.now.view) (in_order order kind)) }
{
    for place in 0..count(kind) {
        let cap = cap_at(order, kind, place);
        push_row(
            out,
            mode,
            cap.kind(),
            name(cap).as_bytes(),
            one.view.get(cap),
            other.view.get(cap),
        )?;
    }
    Ok(())
}

// Appends the rows of the user-defined names of a kind.
fn push_user_rows<'a>(
    alloc: Global,
    out: &mut Vec<u8>,
    one: &ExtendedEntry<'a>,
    other: &ExtendedEntry<'a>,
    mode: Mode,
    kind: Kind,
) -> Result<(), AllocError>
    ensures { OnOk result (out.new.items ≡ out.old.items ++ user_rows mode kind (extended_seen one.now) (extended_seen other.now)) }
{
    let names = names_among(alloc, kind, one, &[*other])?;
    for name in &names {
        let ours = of_kind(kind, one.extension.get(name));
        let theirs = of_kind(kind, other.extension.get(name));
        push_row(out, mode, kind, name, ours, theirs)?;
    }
    Ok(())
}

// Appends the heading of a kind and its rows.
fn push_kind<'a>(
    alloc: Global,
    out: &mut Vec<u8>,
    one: &ExtendedEntry<'a>,
    other: &ExtendedEntry<'a>,
    mode: Mode,
    order: Order,
    kind: Kind,
) -> Result<(), AllocError>
    ensures { OnOk result (out.new.items ≡ out.old.items ++ compared_kind (extended_seen one.now) (extended_seen other.now) mode order kind) }
{
    out.extend_from_slice(kind_heading(kind))?;
    push_table_rows(out, one, other, mode, order, kind)?;
    push_user_rows(alloc, out, one, other, mode, kind)
}

/// The comparison of two entries with their user-defined capabilities, as infocmp(1)'s `-d`, `-c`
/// and `-n` print it at `-x`: a heading with their first names, and under a heading for each kind
/// the rows that the mode asks for, first those of the tables in the order that is asked for, then
/// those of user-defined names in the order of their bytes. A name of which the entries have values
/// of two kinds is a row of each.
///
/// # Errors
/// `AllocError` if there is no room for it.
pub fn compare<'a>(
    alloc: Global,
    one: &ExtendedEntry<'a>,
    other: &ExtendedEntry<'a>,
    mode: Mode,
    order: Order,
) -> Result<Vec<u8>, AllocError>
    ensures { IfOk result (λ text. text.items ≡ extended_comparison (extended_seen one.now) (extended_seen other.now) mode order) }
{
    let mut out = Vec::from_slice(alloc, b"comparing ")?;
    out.extend_from_slice(one.view.first_name())?;
    out.extend_from_slice(b" to ")?;
    out.extend_from_slice(other.view.first_name())?;
    out.extend_from_slice(b".\n")?;
    push_kind(alloc, &mut out, one, other, mode, order, Kind::Flag)?;
    push_kind(alloc, &mut out, one, other, mode, order, Kind::Number)?;
    push_kind(alloc, &mut out, one, other, mode, order, Kind::Text)?;
    Ok(out)
}
