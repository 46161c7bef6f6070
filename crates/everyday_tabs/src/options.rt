//! The options of a word that begins with `-`.
ghost use Rattle.std.specs.Prelude.{◌≡◌, ◌++◌, IfOk, OnOk, map};
ghost use Rattle.everyday_tabs.specs.Words.{closed, goes_on, is_numbered, options_of};

use crate::lists::{is_digit, is_spelling_sign};
use std::alloc::{AllocError, Global};

// Whether the digit after `a` or `c` is of the same option.
fn is_numbered(first: u8, digit: u8) -> bool
    ensures { result ≡ is_numbered first digit }
{
    (first == b'a' && digit == b'2') || (first == b'c' && (digit == b'2' || digit == b'3'))
}

// Whether a letter is of the same option as those before it.
fn goes_on(option: &[u8], letter: u8) -> bool
    ensures { result ≡ goes_on option.now letter }
{
    let Some((first, others)) = option.split_first() else {
        return false;
    };
    if *first == b'T' {
        return true;
    }
    if is_digit(*first) {
        return is_spelling_sign(letter);
    }
    is_numbered(*first, letter) && others.len() == 0
}

// Adds an option, if it has letters.
fn push_closed<'a>(options: &mut Vec<&'a [u8]>, option: &'a [u8]) -> Result<(), AllocError>
    ensures { OnOk result (map (λ o. o.now) options.new.items ≡ map (λ o. o.now) options.old.items ++ closed option.entry.now) }
{
    if !option.is_empty() {
        options.push(option)?;
    }
    Ok(())
}

/// The options of letters.
///
/// # Errors
/// `AllocError` if memory ran out.
pub(crate) fn options_of(alloc: Global, letters: &[u8]) -> Result<Vec<&[u8]>, AllocError>
    ensures { IfOk result (λ options. map (λ o. o.now) options.items ≡ options_of letters.now) }
{
    let mut options = Vec::new(alloc);
    let mut start: usize = 0;
    for (at, letter) in letters.iter().enumerate() {
        if goes_on(&letters[start..at], *letter) {
            continue;
        }
        push_closed(&mut options, &letters[start..at])?;
        start = at;
    }
    push_closed(&mut options, &letters[start..])?;
    Ok(options)
}
