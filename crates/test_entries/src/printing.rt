//! Calls of `ti_printing`: forms of printf(3), and strings with padding.
use test_rows::RowError::{Bad, Memory};
use test_rows::{NO_CALL, Row, RowResult};
use ti_printing::printf::{Conversion, Directive, Flags, print};
use ti_printing::{Line, PadError, first_delay, pad};

fn flags_of(text: &[u8]) -> Flags {
    Flags {
        left: text.contains(&b'-'),
        sign: text.contains(&b'+'),
        alternate: text.contains(&b'#'),
        space: text.contains(&b' '),
        zero: text.contains(&b'0'),
    }
}

fn conversion_of(letter: &str) -> RowResult<Conversion> {
    match letter {
        "d" => Ok(Conversion::Decimal),
        "o" => Ok(Conversion::Octal),
        "x" => Ok(Conversion::LowerHex),
        "X" => Ok(Conversion::UpperHex),
        "s" => Ok(Conversion::Text),
        _ => Err(Bad("a conversion is d, o, x, X or s")),
    }
}

// A width or a precision.
fn width_of(text: &str) -> RowResult<u16> {
    text.parse::<u16>()
        .map_err(|_| Bad("a word is to be a width"))
}

// A directive by its flags, width, precision, which is `-` if there is none, and letter.
fn directive_of(row: &Row<'_>) -> RowResult<Directive> {
    let precision = match row.text(2)? {
        "-" => None,
        text => Some(width_of(text)?),
    };
    Ok(Directive {
        flags: flags_of(row.bytes(0)?),
        width: width_of(row.text(1)?)?,
        precision,
        conversion: conversion_of(row.text(3)?)?,
    })
}

// What a directive prints of a number or of a text.
fn say_printed(row: &mut Row<'_>) -> RowResult {
    let directive = directive_of(row)?;
    let mut out = Vec::new(row.alloc);
    if directive.conversion == Conversion::Text {
        print(&mut out, &directive, 0, row.bytes(4)?)?;
    } else {
        print(&mut out, &directive, row.signed(4)?, b"")?;
    }
    row.say(&out)
}

fn has_xon(word: &str) -> RowResult<bool> {
    match word {
        "xon" => Ok(true),
        "no-xon" => Ok(false),
        _ => Err(Bad("a word is to be xon or no-xon")),
    }
}

fn pad_byte_of(word: &[u8]) -> RowResult<Option<u8>> {
    match word {
        b"npc" => Ok(None),
        [byte] => Ok(Some(*byte)),
        _ => Err(Bad("a word is to be npc or a pad byte")),
    }
}

// The line that a call is given after a text and a count of lines.
fn line_of(row: &Row<'_>) -> RowResult<Line> {
    Ok(Line {
        rate: row.number(2)?,
        xon: has_xon(row.text(3)?)?,
        pad_from: row.number(4)?,
        pad_byte: pad_byte_of(row.bytes(5)?)?,
    })
}

fn say_padded(row: &mut Row<'_>) -> RowResult {
    let line = line_of(row)?;
    match pad(row.alloc, row.bytes(0)?, row.number(1)?, &line) {
        Ok(padded) => row.say(&padded),
        Err(PadError::TooMuch) => row.fail("TooMuch"),
        Err(_) => Err(Memory),
    }
}

fn say_delay(row: &mut Row<'_>) -> RowResult {
    let line = line_of(row)?;
    let Some(delayed) = first_delay(row.bytes(0)?, row.number(1)?, &line) else {
        return row.say(b"none");
    };
    row.say(delayed.before)?;
    row.show(&delayed.tenths)?;
    row.say(delayed.after)
}

/// Makes a call of this library.
pub fn call(name: &str, row: &mut Row<'_>) -> RowResult {
    match name {
        "print" => say_printed(row),
        "pad" => say_padded(row),
        "first_delay" => say_delay(row),
        _ => Err(NO_CALL),
    }
}
