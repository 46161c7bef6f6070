//! Reads the pieces of a string.
ghost use Rattle.std.specs.Prelude.{◌≡◌, ◌≤◌, drop, length, slice_index, IfSome};
ghost use Rattle.everyday_converting.specs.Pieces.{begins, code_at, comparison_at, comparison_to, constant_at, delay_size, digit, ends_decimal, is_bcd};
ghost use Rattle.everyday_converting.specs.Pieces.{is_of_delay, is_quotable, number_constant, parameter_at, piece_at, width_at, with_constant};

use crate::bytes::is_printed;

/// A constant of a format.
#[derive(Clone, Copy)]
pub(crate) struct Constant {
    /// Its value.
    pub value: u8,
    /// How many bytes it has in the format.
    pub size: usize,
}

/// A piece of a string.
#[derive(Clone, Copy)]
pub(crate) enum Piece {
    /// A byte.
    Literal,
    /// A delay, `$<..>`.
    Delay,
    /// `%%`.
    Percent,
    /// `%d`.
    Decimal,
    /// A number of so many digits; here is the byte of that digit.
    Wide(u8),
    /// `%c`.
    Character,
    /// `%s`.
    Text,
    /// `%i`.
    Increment,
    /// `%p1`.
    First,
    /// `%p2`.
    Second,
    /// A constant is added, and the sum is written as a character.
    Add(u8),
    /// The second is added to a parameter above the first.
    Above(u8, u8),
    /// The decimal digits of a parameter as the digits to the base 16.
    Bcd,
    /// Twice what is on the stack is taken from a parameter.
    Delta,
    /// Exclusive-or with 96.
    Toggle,
    /// Exclusive-or with 127.
    Invert,
}

/// A piece at the front of a text.
#[derive(Clone, Copy)]
pub(crate) struct Placed {
    /// How many bytes it has, one at least.
    pub size: usize,
    /// What it is.
    pub piece: Piece,
}

// A piece of so many bytes.
fn of_size(size: usize, piece: Piece) -> Option<Placed>
    ensures { result ≡ Some (record { size = size; piece = piece }) }
{
    Some(Placed { size, piece })
}

/// The byte at a place of a text, and 0 past its end.
pub fn byte_at(text: &[u8], place: usize) -> u8
    ensures { result ≡ slice_index text.now place }
{
    if place < text.len() { text[place] } else { 0 }
}

/// What follows so many bytes of a text; nothing, if it has no more.
pub fn after(text: &[u8], size: usize) -> &[u8]
    ensures { result.now ≡ drop size text.now }
{
    if size < text.len() {
        &text[size..]
    } else {
        &text[text.len()..]
    }
}

/// Whether a text begins so.
pub fn begins(text: &[u8], front: &[u8]) -> bool
    ensures { result ≡ begins text.now front.now }
{
    text.starts_with(front)
}

// Whether a delay may have this byte after its `$<`.
fn is_of_delay(byte: u8) -> bool
    ensures { result ≡ is_of_delay byte }
{
    byte.is_ascii_digit() || byte == b'.' || byte == b'*' || byte == b'/' || byte == b'>'
}

// How many bytes a delay has after its `$<`.
fn delay_size(text: &[u8]) -> usize
    ensures { result ≡ delay_size text.now }
{
    text.iter().take_while(|byte| is_of_delay(**byte)).count()
}

// The value of a digit.
fn digit(byte: u8) -> u16
    requires { digit byte ≤ 9 }
    ensures { result ≡ digit byte }
{
    byte.saturating_sub(b'0') as u16
}

// The constant in braces at the front of a text.
fn number_constant(text: &[u8]) -> Option<Constant>
    ensures { result ≡ number_constant text.now }
{
    let first = byte_at(text, 2);
    let second = byte_at(text, 3);
    let third = byte_at(text, 4);
    if !first.is_ascii_digit() {
        return None;
    }
    if second == b'}' {
        return Some(Constant {
            value: first - b'0',
            size: 4,
        });
    }
    if !second.is_ascii_digit() {
        return None;
    }
    if third == b'}' {
        let value = (first - b'0') * 10 + (second - b'0');
        return Some(Constant { value, size: 5 });
    }
    if !(third.is_ascii_digit() && byte_at(text, 5) == b'}') {
        return None;
    }
    let value = digit(first) * 100 + digit(second) * 10 + digit(third);
    if value <= 255 {
        return Some(Constant {
            value: value as u8,
            size: 6,
        });
    }
    None
}

// Whether a constant in quotes may have this byte.
fn is_quotable(byte: u8) -> bool
    ensures { result ≡ is_quotable byte }
{
    is_printed(byte) && !(byte == b',' || byte == b'^' || byte == b'\\')
}

// The constant at the front of a text.
fn constant_at(text: &[u8]) -> Option<Constant>
    ensures { result ≡ constant_at text.now }
{
    if byte_at(text, 0) != b'%' {
        return None;
    }
    if byte_at(text, 1) == b'{' {
        return number_constant(text);
    }
    if byte_at(text, 1) == b'\'' && is_quotable(byte_at(text, 2)) && byte_at(text, 3) == b'\'' {
        return Some(Constant {
            value: byte_at(text, 2),
            size: 4,
        });
    }
    None
}

// The rest of a comparison after its first constant.
fn comparison_to(constant: Constant, text: &[u8]) -> Option<Placed>
    requires { constant.size ≤ 6 }
    ensures { result ≡ comparison_to constant text.now }
{
    if !begins(after(text, 2 + constant.size), b"%>%t") {
        return None;
    }
    let other = constant_at(after(text, 6 + constant.size))?;
    if begins(after(text, 6 + constant.size + other.size), b"%+%;") {
        return of_size(
            10 + constant.size + other.size,
            Piece::Above(constant.value, other.value),
        );
    }
    None
}

// The comparison at the front of a text.
fn comparison_at(text: &[u8]) -> Option<Placed>
    ensures { result ≡ comparison_at text.now }
{
    comparison_to(constant_at(after(text, 2))?, text)
}

// Whether a text begins with the codes for binary coded decimals.
fn is_bcd(text: &[u8]) -> bool
    ensures { result ≡ is_bcd text.now }
{
    begins(after(text, 3), b"%{10}%/%{16}%*%p")
        && byte_at(text, 19) == byte_at(text, 2)
        && begins(after(text, 20), b"%{10}%m%+")
}

// The parameter at the front of a text.
fn parameter_at(text: &[u8]) -> Option<Placed>
    ensures { result ≡ parameter_at text.now }
{
    if is_bcd(text) {
        return of_size(29, Piece::Bcd);
    }
    if byte_at(text, 2) == b'1' {
        return of_size(3, Piece::First);
    }
    if byte_at(text, 2) == b'2' {
        return of_size(3, Piece::Second);
    }
    None
}

// The constant at the front of a text, and what is done with it.
fn with_constant(text: &[u8]) -> Option<Placed>
    ensures { result ≡ with_constant text.now }
{
    if begins(text, b"%{2}%*%-") {
        return of_size(8, Piece::Delta);
    }
    if begins(text, b"%{96}%^") {
        return of_size(7, Piece::Toggle);
    }
    if begins(text, b"%{127}%^") {
        return of_size(8, Piece::Invert);
    }
    let constant = constant_at(text)?;
    if begins(after(text, constant.size), b"%+%c") {
        return of_size(constant.size + 4, Piece::Add(constant.value));
    }
    None
}

// Whether a number in decimal may end so.
fn ends_decimal(byte: u8) -> bool
    ensures { result ≡ ends_decimal byte }
{
    !(byte == 0 || byte == b'o' || byte == b'x' || byte == b'X' || byte == b'.')
}

// The number of so many digits at the front of a text.
fn width_at(text: &[u8]) -> Option<Placed>
    ensures { result ≡ width_at text.now }
{
    let second = byte_at(text, 2);
    if second.is_ascii_digit() {
        let third = byte_at(text, 3);
        if byte_at(text, 1) == b'0' && !third.is_ascii_digit() && ends_decimal(third) {
            return of_size(4, Piece::Wide(second));
        }
        return None;
    }
    if ends_decimal(second) {
        return of_size(3, Piece::Wide(byte_at(text, 1)));
    }
    None
}

// The code or the run of codes at the front of a text.
fn code_at(text: &[u8]) -> Option<Placed>
    ensures { result ≡ code_at text.now }
{
    let code = byte_at(text, 1);
    if code == b'%' {
        return of_size(2, Piece::Percent);
    }
    if code == b'd' {
        return of_size(2, Piece::Decimal);
    }
    if code == b'c' {
        return of_size(2, Piece::Character);
    }
    if code == b's' {
        return of_size(2, Piece::Text);
    }
    if code == b'i' {
        return of_size(2, Piece::Increment);
    }
    if code == b'p' {
        return parameter_at(text);
    }
    if code == b'?' {
        return comparison_at(text);
    }
    if code.is_ascii_digit() {
        return width_at(text);
    }
    with_constant(text)
}

/// The piece at the front of a text that is not empty; `None` where a code is none that termcap has.
pub(crate) fn piece_at(parameters: bool, text: &[u8]) -> Option<Placed>
    ensures { result ≡ piece_at parameters text.now }
{
    if begins(text, b"$<") {
        return of_size(2 + delay_size(after(text, 2)), Piece::Delay);
    }
    if parameters && byte_at(text, 0) == b'%' {
        return code_at(text);
    }
    of_size(1, Piece::Literal)
}
