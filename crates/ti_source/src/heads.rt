//! Where head lines begin: the lines that are not empty and begin with neither white space nor `#`.
ghost use Rattle.std.specs.Prelude.{◌≡◌, ◌==◌, length};
ghost use Rattle.ti_source.specs.Cutting as spec;
ghost use Rattle.ti_source.specs.inside.Cutting as computed;
ghost use Rattle.ti_text.specs.Ascii as ascii;

use memchr::memchr;

/// Whether `text`, at the start of a line, begins with a head line.
pub(crate) fn begins_with_head(text: &[u8]) -> bool
    ensures { result ≡ computed.begins_with_head text.now }
{
    match text.first() {
        Some(byte) => !matches!(byte, b' ' | b'\t' | b'#' | b'\n'),
        None => false,
    }
}

/// Whether the last byte of `text` is a newline.
pub(crate) fn ends_with_newline(text: &[u8]) -> bool
    ensures { result ≡ (spec.last_byte 0 text.now == ascii.newline) }
{
    text.last() == Some(&b'\n')
}

/// The place of the first head line that begins after the first byte of `text`, or the length if
/// there is none.
pub(crate) fn next_head(text: &[u8]) -> usize
    ensures { result ≡ length (computed.to_next_head text.now) }
{
    let mut at = 0;
    while let Some(newline) = memchr(b'\n', &text[at..]) {
        at += newline + 1;
        if begins_with_head(&text[at..]) {
            return at;
        }
    }
    text.len()
}

/// The length of the lines of `source` before its first head line.
pub(crate) fn preface_len(source: &[u8]) -> usize
    ensures { result ≡ length (spec.front_of ascii.newline source.now) }
{
    if begins_with_head(source) {
        0
    } else {
        next_head(source)
    }
}
