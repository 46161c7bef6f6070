//! What a comment line allows.
ghost use Rattle.std.specs.Prelude.{◌≡◌, ◌++◌, IfOk, OnOk, map};
ghost use Rattle.std.specs.List.{list_all};
ghost use Rattle.ti_text.specs.WhiteSpace.{is_white_space};
ghost use Rattle.source_settings.specs.Comments as spec;

use std::alloc::{AllocError, Global};
use ti_text::is_white_space;

// Whether a byte is between words.
fn is_between(byte: u8) -> bool
    ensures { result ≡ spec.is_between byte }
{
    is_white_space(byte) || byte == b','
}

// The words of a text, between white space and commas.
fn words_of(alloc: Global, text: &[u8]) -> Result<Vec<&[u8]>, AllocError>
    ensures { IfOk result (λ words. map (λ word. word.now) words.items ≡ spec.words_of text.now) }
{
    text.split(|byte| is_between(*byte))
        .filter(|word| word.len() > 0)
        .collect(alloc)
}

// The codes that words allow.
fn codes_after<'a, 'b>(words: &'b [&'a [u8]]) -> &'b [&'a [u8]]
    ensures { map (λ code. code.now) result.now ≡ spec.codes_after (map (λ word. word.now) words.now) }
{
    match words {
        [mark, verb, codes @ ..]
            if *mark == b"ti-lint:".as_slice() && *verb == b"allow".as_slice() => codes,
        _ => &[],
    }
}

/// Whether a block begins with the line.
pub(crate) fn is_head(line: &[u8]) -> bool
    ensures { result ≡ spec.is_head line.now }
{
    match line {
        [byte, ..] => !is_white_space(*byte) && *byte != b'#',
        [] => false,
    }
}

// Whether a line is a comment.
fn is_comment(line: &[u8]) -> bool
    ensures { result ≡ spec.is_comment line.now }
{
    matches!(line, [b'#', ..])
}

// Whether a line has nothing but white space.
fn is_blank(line: &[u8]) -> bool
    ensures { result ≡ list_all is_white_space line.now }
{
    line.iter().all(|byte| is_white_space(*byte))
}

/// Whether a line may come between a comment and the block that it is before.
pub(crate) fn is_before_block(line: &[u8]) -> bool
    ensures { result ≡ spec.is_before_block line.now }
{
    is_comment(line) || is_blank(line)
}

/// Adds the codes that a line allows.
///
/// # Errors
/// Out of memory.
pub(crate) fn push_allowed<'a>(
    alloc: Global,
    codes: &mut Vec<&'a [u8]>,
    line: &'a [u8],
) -> Result<(), AllocError>
    ensures { OnOk result (map (λ code. code.now) codes.new.items ≡ map (λ code. code.now) codes.old.items ++ spec.allowed_by line.now) }
{
    let [b'#', text @ ..] = line else {
        return Ok(());
    };
    let words = words_of(alloc, text)?;
    codes.extend_from_slice(codes_after(words.as_slice()))
}
