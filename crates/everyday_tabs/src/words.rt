//! What a word of `ti-tabs` means by itself.
ghost use Rattle.std.specs.Prelude.{◌≡◌};
ghost use Rattle.everyday_tabs.specs.Words.{after_T, after_plus, is_spelled, margin_of, meaning_of, number_of, option_by, other_option, with_digit};
ghost use Rattle.everyday_tabs.specs.Words.{meaning_seen};
ghost use Rattle.everyday_tabs.specs.Lists.{predefined};

use crate::lists::{are_digits, are_spelling_signs, is_digit, predefined};

// The greatest number of a margin.
const NUMBER_MAX: u32 = 2147483647;

// The margin that `+m` alone asks for.
const USUAL_MARGIN: u32 = 10;

/// What a word means.
#[derive(Clone, Copy)]
pub enum Meaning<'a> {
    /// A list that an option names or spells.
    Fixed(&'a [u8]),
    /// A ruler is shown.
    Ruler,
    /// Nothing is set.
    Quiet,
    /// The version is asked for.
    Version,
    /// The next word names the terminal.
    NameNext,
    /// This names the terminal, and the next word is passed over.
    NameHere(&'a [u8]),
    /// A margin.
    Margin(u32),
    /// Signs of a list after a plus, and with it.
    Relative(&'a [u8]),
    /// Signs of a list.
    Typed(&'a [u8]),
    /// Nothing.
    Nothing,
    /// The word is not supported.
    Unsupported,
}

// A number with one more digit, cut to the greatest one; another sign is passed over.
fn with_digit(greatest: u32, number: u32, sign: u8) -> u32
    ensures { result ≡ with_digit greatest number sign }
{
    if !is_digit(sign) {
        return number;
    }
    let more = u64::from(number) * 10 + u64::from(sign - b'0');
    match u32::try_from(more) {
        Ok(more) => more.min(greatest),
        Err(_) => greatest,
    }
}

/// The number that the digits of a text make, at most the greatest one.
pub(crate) fn number_of(greatest: u32, text: &[u8]) -> u32
    ensures { result ≡ number_of greatest text.now }
{
    text.iter()
        .fold(0, |number, sign| with_digit(greatest, number, *sign))
}

// Whether letters after `-` are a list that begins with a number.
fn is_spelled(letters: &[u8]) -> bool
    ensures { result ≡ is_spelled letters.now }
{
    match letters.split_first() {
        Some((sign, signs)) => is_digit(*sign) && are_spelling_signs(signs),
        None => false,
    }
}

// What follows `T` in letters.
fn after_t(name: &[u8]) -> Meaning<'_>
    ensures { meaning_seen result ≡ after_T name.now }
{
    if name.is_empty() {
        return Meaning::NameNext;
    }
    Meaning::NameHere(name)
}

// The meaning of letters that are no list.
fn other_option(letters: &[u8]) -> Meaning<'_>
    ensures { meaning_seen result ≡ other_option letters.now }
{
    let Some((letter, others)) = letters.split_first() else {
        return Meaning::Nothing;
    };
    if *letter == b'T' {
        return after_t(others);
    }
    if letters == b"d".as_slice() {
        return Meaning::Ruler;
    }
    if letters == b"n".as_slice() {
        return Meaning::Quiet;
    }
    if letters == b"V".as_slice() {
        return Meaning::Version;
    }
    Meaning::Unsupported
}

/// The meaning of the letters of an option.
pub(crate) fn option_meaning(letters: &[u8]) -> Meaning<'_>
    ensures { meaning_seen result ≡ option_by (predefined letters.now) letters.now }
{
    if let Some(list) = predefined(letters) {
        return Meaning::Fixed(list);
    }
    if is_spelled(letters) {
        return Meaning::Fixed(letters);
    }
    other_option(letters)
}

// A margin of so many columns, 10 if they are not said.
fn margin_of(signs: &[u8]) -> Meaning<'_>
    ensures { meaning_seen result ≡ margin_of signs.now }
{
    if signs.is_empty() {
        return Meaning::Margin(USUAL_MARGIN);
    }
    if are_digits(signs) {
        return Meaning::Margin(number_of(NUMBER_MAX, signs));
    }
    Meaning::Unsupported
}

// The meaning of a word that begins with a plus, given what follows.
fn after_plus<'a>(word: &'a [u8], signs: &'a [u8]) -> Meaning<'a>
    ensures { meaning_seen result ≡ after_plus word.entry.now signs.entry.now }
{
    match signs.split_first() {
        Some((b'm', columns)) => margin_of(columns),
        Some(_) => Meaning::Relative(word),
        None => Meaning::Nothing,
    }
}

/// What a word means that does not begin with `-`.
pub(crate) fn meaning_of(word: &[u8]) -> Meaning<'_>
    ensures { meaning_seen result ≡ meaning_of word.now }
{
    match word.split_first() {
        Some((b'+', signs)) => after_plus(word, signs),
        _ => Meaning::Typed(word),
    }
}
