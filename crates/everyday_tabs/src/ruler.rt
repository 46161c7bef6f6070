//! The ruler that `-d` asks for.
ghost use Rattle.std.specs.Prelude.{◌≡◌, ◌++◌, OnOk, option_map};
ghost use Rattle.everyday_tabs.specs.Ruler.{dashes, marks_from, ruler_text, scale, scale_sign, stop_lines, tabbed_mark, tabbed_marks, tens_byte, tens_sign};

use crate::stops::stop_within;
use std::alloc::AllocError;

// Adds dashes, which stand for columns without a stop.
fn push_dashes(text: &mut Vec<u8>, count: u32) -> Result<(), AllocError>
    ensures { OnOk result (text.new.items ≡ text.old.items ++ dashes count) }
{
    for _added in 0..count {
        text.push(b'-')?;
    }
    Ok(())
}

// The byte that numbers a tenth column, of which NUL is not printed.
fn tens_byte(tens: u32) -> u8
    ensures { result ≡ tens_byte tens }
{
    let code = if tens < 10 { 48 } else { 55 };
    ((u64::from(tens) + code) % 256) as u8
}

// Adds the sign that numbers a tenth column.
fn push_tens(text: &mut Vec<u8>, tens: u32) -> Result<(), AllocError>
    ensures { OnOk result (text.new.items ≡ text.old.items ++ tens_sign tens) }
{
    let byte = tens_byte(tens);
    if byte != 0 {
        text.push(byte)?;
    }
    Ok(())
}

// Adds the sign of a column, counted from 0.
fn push_scale_sign(text: &mut Vec<u8>, column: u32) -> Result<(), AllocError>
    ensures { OnOk result (text.new.items ≡ text.old.items ++ scale_sign column) }
{
    if column % 10 == 9 {
        return push_tens(text, column / 10 + 1);
    }
    if column % 10 == 4 {
        text.push(b'+')?;
    } else {
        text.push(b'-')?;
    }
    Ok(())
}

// Adds the numbered columns.
#[tactic(auto, unfolding(crate::specs::Ruler::scale))]
fn push_scale(text: &mut Vec<u8>, columns: u32) -> Result<(), AllocError>
    ensures { OnOk result (text.new.items ≡ text.old.items ++ scale columns) }
{
    for column in 0..columns {
        push_scale_sign(text, column)?;
    }
    Ok(())
}

// Adds the marks of stops.
fn push_marks(text: &mut Vec<u8>, columns: u32, stops: &[u64]) -> Result<(), AllocError>
    ensures { OnOk result (text.new.items ≡ text.old.items ++ marks_from columns 0 stops.now) }
{
    let mut before: u32 = 0;
    for stop in stops {
        match stop_within(*stop, columns) {
            Some(stop) if before < columns => {
                push_dashes(text, stop.saturating_sub(1).saturating_sub(before))?;
                text.push(b'*')?;
                before = stop;
            }
            _ => return push_dashes(text, columns.saturating_sub(before)),
        }
    }
    push_dashes(text, columns.saturating_sub(before))
}

// Adds a mark that is tabbed to, unless it is in the first column.
fn push_tabbed_mark(text: &mut Vec<u8>, stop: u32) -> Result<(), AllocError>
    ensures { OnOk result (text.new.items ≡ text.old.items ++ tabbed_mark stop) }
{
    if stop != 1 {
        text.push(b'\t')?;
    }
    text.push(b'*')?;
    Ok(())
}

// Adds the marks that are tabbed to, and another sign after the last if no stop is past the columns.
fn push_tabbed(text: &mut Vec<u8>, columns: u32, stops: &[u64]) -> Result<(), AllocError>
    ensures { OnOk result (text.new.items ≡ text.old.items ++ tabbed_marks columns stops.now) }
{
    for stop in stops {
        let Some(stop) = stop_within(*stop, columns) else {
            return Ok(());
        };
        push_tabbed_mark(text, stop)?;
    }
    text.extend_from_slice(b"\t+")
}

// Adds the lines of the stops.
fn push_stop_lines(
    text: &mut Vec<u8>,
    columns: u32,
    stops: &[u64],
    newline: &[u8],
) -> Result<(), AllocError>
    ensures { OnOk result (text.new.items ≡ text.old.items ++ stop_lines columns stops.now newline.now) }
{
    push_scale(text, columns)?;
    text.extend_from_slice(newline)?;
    push_marks(text, columns, stops)?;
    text.extend_from_slice(newline)?;
    push_tabbed(text, columns, stops)?;
    text.extend_from_slice(newline)
}

/// Adds the ruler, for so many columns, a list, and its stops if they are in order.
pub(crate) fn push_ruler(
    text: &mut Vec<u8>,
    columns: u32,
    list: &[u8],
    stops: Option<&[u64]>,
    newline: &[u8],
) -> Result<(), AllocError>
    ensures { OnOk result (text.new.items ≡ text.old.items ++ ruler_text columns list.now (option_map (λ s. s.now) stops.entry) newline.now) }
{
    text.extend_from_slice(b"tabs ")?;
    text.extend_from_slice(list)?;
    text.extend_from_slice(newline)?;
    match stops {
        Some(stops) => push_stop_lines(text, columns, stops, newline),
        None => Ok(()),
    }
}
