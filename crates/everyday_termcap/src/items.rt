//! Writes the items of an entry in lines.
ghost use Rattle.std.specs.Prelude.{◌≡◌, ◌≤◌, ◌++◌, ◌∷◌, ℕ, List, None, Some, map, option_map, IfOk, OnOk};
ghost use Rattle.std.specs.Option.{option_copied};
ghost use Rattle.ti_layout.specs.View.{names_of, view_contents};
ghost use Rattle.everyday_termcap.specs.Items.{entry_text, flag_items, header, if_any, line_break, lines, number_item, number_items, text_item, text_items, with_colons};

use crate::contents::{Kept, flag_shown, number_shown, text_shown};
use crate::lists::{flag_codes, has_parameters, number_codes, text_codes};
use everyday_converting::{source_text, termcap_text};
use itoa::Buffer;
use std::alloc::{AllocError, Global};
use ti_layout::View;

// The columns that a tab at the front of a line takes.
const TAB: usize = 8;

/// How the items of an entry are laid out.
#[derive(Clone, Copy)]
pub struct Lines {
    /// The most columns of a line that holds more than one item.
    pub width: usize,
    /// Whether all are on one line, whatever its width.
    pub joined: bool,
}

// Appends a text with a backslash before each colon.
fn push_with_colons(out: &mut Vec<u8>, text: &[u8]) -> Result<(), AllocError>
    ensures { OnOk result (out.new.items ≡ out.old.items ++ with_colons text.now) }
{
    for byte in text {
        if *byte == b':' {
            out.extend_from_slice(b"\\:")?;
        } else {
            out.push(*byte)?;
        }
    }
    Ok(())
}

// The item of a string, if there is one.
fn text_item(
    alloc: Global,
    untranslatable: bool,
    code: &[u8],
    text: &[u8],
) -> Result<Option<Vec<u8>>, AllocError>
    ensures { IfOk result (λ item. option_map (λ out. out.items) item ≡ text_item untranslatable code.now (Some text.now)) }
{
    if let Some(form) = termcap_text(alloc, has_parameters(code), text)? {
        let mut out = Vec::from_slice(alloc, code)?;
        out.extend_from_slice(b"=")?;
        out.extend_from_slice(&form)?;
        return Ok(Some(out));
    }
    if !untranslatable {
        return Ok(None);
    }
    let mut out = Vec::from_slice(alloc, b"..")?;
    out.extend_from_slice(code)?;
    out.extend_from_slice(b"=")?;
    let source = source_text(alloc, text)?;
    push_with_colons(&mut out, &source)?;
    Ok(Some(out))
}

// Appends the end of a line and the front of another, unless all items are on one.
fn push_break(out: &mut Vec<u8>, form: Lines) -> Result<(), AllocError>
    ensures { OnOk result (out.new.items ≡ out.old.items ++ line_break form) }
{
    if !form.joined {
        out.extend_from_slice(b"\\\n\t:")?;
    }
    Ok(())
}

// Appends an item with its colon, on the line or on a new one. `line` has the columns that are
// taken, if a line has begun. Gives the columns that are then taken.
fn push_item(
    out: &mut Vec<u8>,
    form: Lines,
    line: Option<usize>,
    item: &[u8],
) -> Result<Option<usize>, AllocError>
    ensures { IfOk result (λ column. (later : List (List ℕ))
        → out.new.items ++ lines form column later ≡ out.old.items ++ lines form line (item.now ∷ later)) }
{
    let column = match line {
        Some(taken) if item.len() < form.width.saturating_sub(taken) => taken + item.len(),
        _ => {
            push_break(out, form)?;
            TAB + item.len()
        }
    };
    out.extend_from_slice(item)?;
    out.extend_from_slice(b":")?;
    Ok(Some(column))
}

// Appends the lines of the booleans of these codes.
fn push_flags(
    out: &mut Vec<u8>,
    form: Lines,
    view: &View<'_>,
    codes: &[&str],
) -> Result<(), AllocError>
    ensures { OnOk result (out.new.items ≡ out.old.items ++ lines form None (flag_items (view_contents view.now) (map (λ code. code.now) codes.now))) }
{
    let mut line = None;
    for code in codes {
        if flag_shown(view, code.as_bytes()) {
            line = push_item(out, form, line, code.as_bytes())?;
        }
    }
    Ok(())
}

// The item of a number.
fn number_item(alloc: Global, code: &[u8], number: u32) -> Result<Vec<u8>, AllocError>
    ensures { IfOk result (λ item. Some item.items ≡ number_item code.now (Some number)) }
{
    let mut item = Vec::from_slice(alloc, code)?;
    item.extend_from_slice(b"#")?;
    item.extend_from_slice(Buffer::new().format(number).as_bytes())?;
    Ok(item)
}

// Appends the lines of the numbers of these codes.
fn push_numbers(
    alloc: Global,
    out: &mut Vec<u8>,
    form: Lines,
    view: &View<'_>,
    codes: &[&str],
) -> Result<(), AllocError>
    ensures { OnOk result (out.new.items ≡ out.old.items ++ lines form None (number_items (view_contents view.now) (map (λ code. code.now) codes.now))) }
{
    let mut line = None;
    for code in codes {
        if let Some(number) = number_shown(view, code.as_bytes()) {
            let item = number_item(alloc, code.as_bytes(), number)?;
            line = push_item(out, form, line, &item)?;
        }
    }
    Ok(())
}

// Appends the item of a string of an entry, if there is one. Gives the columns that are then taken.
fn push_text(
    alloc: Global,
    out: &mut Vec<u8>,
    form: Lines,
    line: Option<usize>,
    untranslatable: bool,
    code: &[u8],
    text: Option<&[u8]>,
) -> Result<Option<usize>, AllocError>
    ensures { IfOk result (λ column. (later : List (List ℕ))
        → out.new.items ++ lines form column later
        ≡ out.old.items ++ lines form line (if_any (text_item untranslatable code.now (option_copied text.entry)) ++ later)) }
{
    let Some(text) = text else {
        return Ok(line);
    };
    match text_item(alloc, untranslatable, code, text)? {
        Some(item) => push_item(out, form, line, &item),
        None => Ok(line),
    }
}

// Appends the lines of the strings of these codes.
fn push_texts<'a>(
    alloc: Global,
    out: &mut Vec<u8>,
    form: Lines,
    view: &View<'a>,
    kept: Kept,
    plain: Option<&'a [u8]>,
    codes: &[&str],
) -> Result<(), AllocError>
    requires { kept.keys ≤ 10 }
    ensures { OnOk result (out.new.items ≡ out.old.items
        ++ lines form None (text_items (view_contents view.now) kept (option_copied plain.entry) (map (λ code. code.now) codes.now))) }
{
    let mut line = None;
    for code in codes {
        let text = text_shown(view, kept, plain, code.as_bytes());
        line = push_text(
            alloc,
            out,
            form,
            line,
            kept.untranslatable,
            code.as_bytes(),
            text,
        )?;
    }
    Ok(())
}

// Appends the names field, in which termcap can have no colon.
fn push_header(out: &mut Vec<u8>, names: &[u8]) -> Result<(), AllocError>
    ensures { OnOk result (out.new.items ≡ out.old.items ++ header names.now) }
{
    for byte in names {
        if *byte == b':' {
            out.push(b'=')?;
        } else {
            out.push(*byte)?;
        }
    }
    Ok(())
}

#[tactic(auto, unfolding(crate::specs::Items::entry_text))]
/// An entry in termcap's form, without the newline at its end, given its `me`.
///
/// # Errors
/// `AllocError` if memory ran out.
pub(crate) fn entry_text<'a>(
    alloc: Global,
    view: &View<'a>,
    kept: Kept,
    plain: Option<&'a [u8]>,
    form: Lines,
) -> Result<Vec<u8>, AllocError>
    requires { kept.keys ≤ 10 }
    ensures { IfOk result (λ out. out.items ≡ entry_text (names_of view.now) (view_contents view.now) kept (option_copied plain.entry) form) }
{
    let mut out = Vec::new(alloc);
    push_header(&mut out, view.names())?;
    out.extend_from_slice(b":")?;
    push_flags(&mut out, form, view, flag_codes(kept.all))?;
    push_numbers(alloc, &mut out, form, view, number_codes(kept.all))?;
    push_texts(
        alloc,
        &mut out,
        form,
        view,
        kept,
        plain,
        text_codes(kept.all),
    )?;
    Ok(out)
}
