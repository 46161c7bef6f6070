//! Lists of tab stops as they are written.
ghost use Rattle.std.specs.Prelude.{◌≡◌, ◌++◌, IfOk, OnOk, option_map};
ghost use Rattle.std.specs.List.{list_all};
ghost use Rattle.everyday_tabs.specs.Lists.{blank_as, ends_with_comma, is_blank, is_digit, is_list, is_list_sign, joined, kept_after};
ghost use Rattle.everyday_tabs.specs.Lists.{is_spelling_sign, needs_comma, predefined, sign_after, sign_kept, trimmed};

use std::alloc::{AllocError, Global};

// What is before the first sign of a word.
const START: u8 = 0;

// Whether a sign is white space, as C has it.
fn is_blank(sign: u8) -> bool
    ensures { result ≡ is_blank sign }
{
    sign == b' ' || (8 < sign && sign < 14)
}

/// Whether a sign is a decimal digit.
pub(crate) fn is_digit(sign: u8) -> bool
    ensures { result ≡ is_digit sign }
{
    47 < sign && sign < 58
}

// Whether a list may have a sign.
fn is_list_sign(sign: u8) -> bool
    ensures { result ≡ is_list_sign sign }
{
    is_digit(sign) || sign == b',' || sign == b'+'
}

// Whether a list ends with a comma.
fn ends_with_comma(list: &[u8]) -> bool
    ensures { result ≡ ends_with_comma list.now }
{
    match list.last() {
        Some(sign) => *sign == b',',
        None => false,
    }
}

// Whether a text has only signs that a list may have.
fn has_list_signs(text: &[u8]) -> bool
    ensures { result ≡ list_all is_list_sign text.now }
{
    text.iter().all(|sign| is_list_sign(*sign))
}

/// Whether signs are digits.
pub(crate) fn are_digits(signs: &[u8]) -> bool
    ensures { result ≡ list_all is_digit signs.now }
{
    signs.iter().all(|sign| is_digit(*sign))
}

/// Whether a sign may be in a list, or is white space.
pub(crate) fn is_spelling_sign(sign: u8) -> bool
    ensures { result ≡ is_spelling_sign sign }
{
    is_list_sign(sign) || is_blank(sign)
}

/// Whether signs may be in a list, or are white space.
pub(crate) fn are_spelling_signs(signs: &[u8]) -> bool
    ensures { result ≡ list_all is_spelling_sign signs.now }
{
    signs.iter().all(|sign| is_spelling_sign(*sign))
}

/// Whether a text is a list: numbers, commas and plus signs, and no comma at its end.
pub(crate) fn is_list(list: &[u8]) -> bool
    ensures { result ≡ is_list list.now }
{
    has_list_signs(list) && !ends_with_comma(list)
}

/// The list that the letters of an option name.
pub(crate) fn predefined(letters: &[u8]) -> Option<&'static [u8]>
    ensures { option_map (λ list. list.now) result ≡ predefined letters.now }
{
    if letters == b"a".as_slice() {
        return Some(b"1,10,16,36,72");
    }
    if letters == b"a2".as_slice() {
        return Some(b"1,10,16,40,72");
    }
    if letters == b"c".as_slice() {
        return Some(b"1,8,12,16,20,55");
    }
    if letters == b"c2".as_slice() {
        return Some(b"1,6,10,14,49");
    }
    if letters == b"c3".as_slice() {
        return Some(b"1,6,10,14,18,22,26,30,34,38,42,46,50,54,58,62,67");
    }
    if letters == b"f".as_slice() {
        return Some(b"1,7,11,15,19,23");
    }
    if letters == b"p".as_slice() {
        return Some(b"1,5,9,13,17,21,25,29,33,37,41,45,49,53,57,61");
    }
    if letters == b"s".as_slice() {
        return Some(b"1,10,55");
    }
    if letters == b"u".as_slice() {
        return Some(b"1,12,20,44");
    }
    None
}

// What a blank counts as after a sign.
fn blank_as(before: u8) -> u8
    ensures { result ≡ blank_as before }
{
    if before == START {
        START
    } else if is_digit(before) || before == b',' {
        b','
    } else {
        b' '
    }
}

// What a sign counts as for the next one.
fn sign_after(before: u8, sign: u8) -> u8
    ensures { result ≡ sign_after before sign }
{
    if is_blank(sign) {
        blank_as(before)
    } else {
        sign
    }
}

// Adds what is kept of a sign after another one.
fn push_sign(list: &mut Vec<u8>, before: u8, sign: u8) -> Result<(), AllocError>
    ensures { OnOk result (list.new.items ≡ list.old.items ++ sign_kept before sign) }
{
    if is_blank(sign) || sign == b',' {
        return Ok(());
    }
    if before == b',' {
        list.push(b',')?;
    }
    list.push(sign)?;
    Ok(())
}

// What is kept of a word.
fn trimmed(alloc: Global, word: &[u8]) -> Result<Vec<u8>, AllocError>
    ensures { IfOk result (λ list. list.items ≡ trimmed word.now) }
{
    let mut list = Vec::new(alloc);
    let mut before = START;
    for sign in word {
        push_sign(&mut list, before, *sign)?;
        before = sign_after(before, *sign);
    }
    Ok(list)
}

// Whether a comma comes between a list and what is added to it.
fn needs_comma(list: &[u8], more: &[u8]) -> bool
    ensures { result ≡ needs_comma list.now more.now }
{
    match (list, more) {
        ([_, ..], [next, ..]) => *next != b',',
        _ => false,
    }
}

/// Adds what is kept of a word to a list.
pub(crate) fn join(alloc: Global, list: &mut Vec<u8>, word: &[u8]) -> Result<(), AllocError>
    ensures { OnOk result (list.new.items ≡ joined list.old.items word.now) }
{
    let more = trimmed(alloc, word)?;
    if needs_comma(list.as_slice(), more.as_slice()) {
        list.push(b',')?;
    }
    list.extend_from_slice(more.as_slice())
}
