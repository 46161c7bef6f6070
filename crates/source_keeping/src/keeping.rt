//! Which edits of a text leave its comments and blank lines as they are.
ghost use Rattle.std.specs.Prelude.{◌≡◌, ◌≤◌, [], ◌++◌, length};
ghost use Rattle.std.specs.List.{list_all};
ghost use Rattle.ti_text.specs.WhiteSpace.{is_white_space};
ghost use Rattle.source_format.specs.Pieces as pieces;
ghost use Rattle.source_keeping.specs.Keeping as spec;
ghost use Rattle.source_keeping.specs.Keeping.{goes_on_line, has_no_newline, open_line};

use memchr::memrchr;
use ti_text::is_white_space;

// The line that a text ends in, as far as it goes.
fn open_line(text: &[u8]) -> &[u8]
    ensures { result.now ≡ open_line [] text.now }
{
    match memrchr(b'\n', text) {
        Some(at) => &text[at + 1..],
        None => text,
    }
}

// Whether no byte of a text ends a line.
fn has_no_newline(text: &[u8]) -> bool
    ensures { result ≡ has_no_newline text.now }
{
    text.iter().all(|byte| *byte != b'\n')
}

// Whether each byte of a text is white space.
fn is_white(text: &[u8]) -> bool
    ensures { result ≡ list_all is_white_space text.now }
{
    text.iter().all(|byte| is_white_space(*byte))
}

// Whether a line is a comment, or blank.
fn is_kept(line: &[u8]) -> bool
    ensures { result ≡ pieces.is_kept line.now }
{
    match line.first() {
        Some(byte) => *byte == b'#' || is_white(line),
        None => true,
    }
}

// Whether a line that begins with one text and goes on with another is a comment, or blank.
fn is_kept_with(line: &[u8], text: &[u8]) -> bool
    ensures { result ≡ pieces.is_kept (line.now ++ text.now) }
{
    match line.first() {
        Some(byte) => *byte == b'#' || (is_white(line) && is_white(text)),
        None => is_kept(text),
    }
}

// Whether a text after what a line begins with is within the line, and makes it neither a comment
// nor blank.
fn goes_on_line(line: &[u8], text: &[u8]) -> bool
    ensures { result ≡ goes_on_line line.now text.now }
{
    has_no_newline(text) && !is_kept_with(line, text)
}

/// Whether a part of a text, and what takes its place, are within a line of items, so that the edit
/// leaves each comment and each blank line as it is. Neither has a newline, and the line up to the
/// end of each is neither a comment nor blank. It takes no memory.
pub fn stays_in_line(text: &[u8], start: usize, end: usize, new: &[u8]) -> bool
    requires forward { start ≤ end }
    requires within { end ≤ length text.now }
    ensures { result ≡ spec.stays_in_line text.now start end new.now }
{
    let line = open_line(&text[..start]);
    goes_on_line(line, &text[start..end]) && goes_on_line(line, new)
}
