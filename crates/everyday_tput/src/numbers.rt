//! Numbers that words and variables spell, as C reads them.
ghost use Rattle.std.specs.Prelude.{◌≡◌, ◌^◌, ◌-◌, ◌≤◌, MatchOption, min, true, false};
ghost use Rattle.std.specs.Str.Parse.{digits_value, starts_with_minus, without_leading_plus, without_leading_sign};
ghost use Rattle.ti_param.specs.Meaning.{in_32_bits};
ghost use Rattle.everyday_tput.specs.Numbers.{after_space, base_of, digits_of, in_long, is_numeral, is_space, size_in, word_number};

// The greatest number of columns or lines: that of an `int`.
const SIZE_MAX: u64 = 2_147_483_647;

// The least number that a `long` has no positive number for.
const LONG_LIMIT: u64 = 9_223_372_036_854_775_808;

// How many numbers there are of 32 bits.
const NUMBERS: i64 = 4_294_967_296;

/// Whether a byte is white space to C: a space, or one from TAB to CR.
pub(crate) fn is_space(byte: u8) -> bool
    ensures { result ≡ is_space byte }
{
    byte == b' ' || (8 < byte && byte < 14)
}

// A text from its first byte on that is not white space.
fn after_space(text: &[u8]) -> &[u8]
    ensures { result.now ≡ after_space text.now }
{
    let mut rest = text;
    while let [first, later @ ..] = rest {
        if !is_space(*first) {
            break;
        }
        rest = later;
    }
    rest
}

// The number that digits of a base write, 2^64 - 1 if it is greater; `None` if there is no digit, or
// something else.
fn numeral(base: u32, digits: &[u8]) -> Option<u64>
    requires lower { 2 ≤ base }
    requires upper { base ≤ 16 }
    ensures { MatchOption result (is_numeral base digits.now ≡ false)
        (λ n. (is_numeral base digits.now ≡ true) × (n ≡ min (digits_value base digits.now) (2 ^ 64 - 1))) }
{
    if digits.is_empty() {
        return None;
    }
    let mut number: u64 = 0;
    for byte in digits {
        match char::from(*byte).to_digit(base) {
            Some(digit) => {
                number = number
                    .saturating_mul(u64::from(base))
                    .saturating_add(u64::from(digit));
            }
            None => return None,
        }
    }
    Some(number)
}

// Whether a text begins with a minus, and what is after its sign, if it has one.
fn sign(text: &[u8]) -> (bool, &[u8])
    ensures negative { result.0 ≡ starts_with_minus text.now }
    ensures rest { result.1.now ≡ without_leading_sign text.now }
{
    match text {
        [b'-', rest @ ..] => (true, rest),
        [b'+', rest @ ..] => (false, rest),
        _ => (false, text),
    }
}

// A text without a plus before it.
fn without_plus(text: &[u8]) -> &[u8]
    ensures { result.now ≡ without_leading_plus text.now }
{
    match text {
        [b'+', rest @ ..] => rest,
        _ => text,
    }
}

// The base of a number without a sign, and its digits.
fn base_and_digits(text: &[u8]) -> (u32, &[u8])
    ensures base { result.0 ≡ base_of text.now }
    ensures digits { result.1.now ≡ digits_of text.now }
    ensures lower { 2 ≤ result.0 }
    ensures upper { result.0 ≤ 16 }
{
    match text {
        [b'0', b'x' | b'X', digits @ ..] => (16, digits),
        [b'0', ..] => (8, text),
        _ => (10, text),
    }
}

// A number as a `long`, which ends at its limits.
fn in_long(negative: bool, number: u64) -> i64
    ensures { result ≡ in_long negative number }
{
    if !negative {
        return number.min(LONG_LIMIT - 1) as i64;
    }
    if number >= LONG_LIMIT {
        return i64::MIN;
    }
    -(number as i64)
}

// The low 32 bits of a number.
fn low_bits(number: i64) -> i32
    ensures { result ≡ in_32_bits number }
{
    (number.rem_euclid(NUMBERS) as u32).cast_signed()
}

/// The number that a whole word spells to C's `strtol` of base 0, as an `int`; 0 if it spells none.
pub(crate) fn word_number(word: &[u8]) -> i32
    ensures { result ≡ word_number word.now }
{
    let (negative, unsigned) = sign(after_space(word));
    let (base, digits) = base_and_digits(unsigned);
    match numeral(base, digits) {
        Some(number) => low_bits(in_long(negative, number)),
        None => 0,
    }
}

/// The whole decimal number over 0 that a text is, up to 2,147,483,647. White space and a plus may be
/// before its digits.
pub(crate) fn size_in(text: &[u8]) -> Option<u32>
    ensures { result ≡ size_in text.now }
{
    match numeral(10, without_plus(after_space(text))) {
        Some(number) if 0 < number && number <= SIZE_MAX => Some(number as u32),
        _ => None,
    }
}
