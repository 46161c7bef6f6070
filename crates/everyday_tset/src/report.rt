//! What is reported of the characters that erase, kill and interrupt.
ghost use Rattle.std.specs.Prelude.{◌≡◌, ◌<◌, ◌++◌, IfOk, OnOk, option_map};
ghost use Rattle.ti_layout.specs.View.{entry_seen};
ghost use Rattle.everyday_tset.specs.Report.{character_name, control_name, is_byte_alone, line_on, report_of};

use crate::modes::Modes;
use everyday_starting::table_text;
use std::alloc::{AllocError, Global};
use ti_layout::View;

// Whether a string is this byte alone.
fn is_byte_alone(text: Option<&[u8]>, byte: u8) -> bool
    ensures { result ≡ is_byte_alone (option_map (λ t. t.now) text.entry) byte }
{
    match text {
        Some(text) => text == [byte].as_slice(),
        None => false,
    }
}

// Adds the name of a control character.
fn push_control(text: &mut Vec<u8>, character: u8) -> Result<(), AllocError>
    requires { character < 32 }
    ensures { OnOk result (text.new.items ≡ text.old.items ++ control_name character) }
{
    let letter = character + 64;
    text.extend_from_slice(b"control-")?;
    text.extend_from_slice(&[letter, b' ', b'(', b'^', letter, b')'])
}

// Adds the name of a character, given what the backspace key sends.
fn push_character(
    text: &mut Vec<u8>,
    backspace: Option<&[u8]>,
    character: u8,
) -> Result<(), AllocError>
    ensures { OnOk result (text.new.items ≡ text.old.items ++ character_name (option_map (λ t. t.now) backspace.entry) character) }
{
    if character == 0 {
        return text.extend_from_slice(b"undef");
    }
    if character == 127 {
        return text.extend_from_slice(b"delete");
    }
    if is_byte_alone(backspace, character) {
        return text.extend_from_slice(b"backspace");
    }
    if character < 32 {
        return push_control(text, character);
    }
    text.push(character)?;
    Ok(())
}

// Adds the line on a character: none if it is the usual one and was so.
fn push_line(
    text: &mut Vec<u8>,
    backspace: Option<&[u8]>,
    name: &[u8],
    usual: u8,
    old: u8,
    new: u8,
) -> Result<(), AllocError>
    ensures { OnOk result (text.new.items ≡ text.old.items ++ line_on (option_map (λ t. t.now) backspace.entry) name.now usual old new) }
{
    if old == new && old == usual {
        return Ok(());
    }
    text.extend_from_slice(name)?;
    text.extend_from_slice(if old == new { b" is " } else { b" set to " })?;
    push_character(text, backspace, new)?;
    text.extend_from_slice(b".\n")
}

/// What is reported for a terminal of the modes before and now: the characters that were set, and those
/// that are not the usual ones.
///
/// # Errors
/// `AllocError` if memory ran out.
pub fn report_text(
    alloc: Global,
    view: &View<'_>,
    old: &Modes,
    new: &Modes,
) -> Result<Vec<u8>, AllocError>
    ensures { IfOk result (λ text. text.items ≡ report_of (entry_seen view.now) old.now new.now) }
{
    let backspace = table_text(view, b"kbs");
    let mut text = Vec::new(alloc);
    push_line(&mut text, backspace, b"Erase", 127, old.erase, new.erase)?;
    push_line(&mut text, backspace, b"Kill", 21, old.kill, new.kill)?;
    push_line(
        &mut text,
        backspace,
        b"Interrupt",
        3,
        old.interrupt,
        new.interrupt,
    )?;
    Ok(text)
}
