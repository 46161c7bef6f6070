//! Which texts of a block become two where a comma is put.
ghost use Rattle.std.specs.Prelude.{◌≡◌, ◌++◌, All, IfOk, OnOk, map};
ghost use Rattle.ti_source.specs.Items.{bytes};
ghost use Rattle.source_spans.specs.Parts.{IsWithin, part_of};
ghost use Rattle.source_fixes.specs.Parting as spec;

use source_block_hints::mention_in;
use source_edits::bytes_of;
use source_spans::{Part, field_len, folded, visible_items};
use std::alloc::{AllocError, Global};
use ti_text::is_white_space;

// Adds the texts of some parts of a folded text.
fn push_texts(
    alloc: Global,
    texts: &mut Vec<Vec<u8>>,
    text: &[(u8, usize)],
    items: &[Part],
) -> Result<(), AllocError>
    requires { All (IsWithin text.now) items.now }
    ensures { OnOk result (map (λ t. t.items) texts.new.items
        ≡ map (λ t. t.items) texts.old.items ++ map bytes (map (part_of text.now) items.now)) }
{
    for item in items {
        texts.push(bytes_of(alloc, &text[item.start..item.end])?)?;
    }
    Ok(())
}

/// The text of the names field of a block, and then those of its items in their order.
///
/// # Errors
/// Out of memory.
pub(crate) fn texts_of(alloc: Global, block: &[u8]) -> Result<Vec<Vec<u8>>, AllocError>
    ensures { IfOk result (λ texts. map (λ t. t.items) texts.items ≡ spec.texts_of block.now) }
{
    let text = folded(alloc, block)?;
    let items = visible_items(alloc, &text)?;
    let mut texts = Vec::new(alloc);
    texts.push(bytes_of(alloc, &text[..field_len(&text)])?)?;
    push_texts(alloc, &mut texts, &text, &items)?;
    Ok(texts)
}

// A text without the white space at its front.
fn without_white(text: &[u8]) -> &[u8]
    ensures { result.now ≡ spec.without_white text.now }
{
    let mut rest = text;
    while let Some((byte, after)) = rest.split_first() {
        if !is_white_space(*byte) {
            return rest;
        }
        rest = after;
    }
    rest
}

// Whether a text is a bar and then another text.
fn is_after_bar(rest: &[u8], back: &[u8]) -> bool
    ensures { result ≡ spec.is_after_bar rest.now back.now }
{
    match rest.split_first() {
        Some((byte, after)) => *byte == b'|' && after == back,
        None => false,
    }
}

// Whether a text is another text after white space, or after a bar.
fn is_left(rest: &[u8], back: &[u8]) -> bool
    ensures { result ≡ spec.is_left rest.now back.now }
{
    without_white(rest) == back || is_after_bar(rest, back)
}

// Whether a text is one and then another, of which the other says a capability.
fn is_both(whole: &[u8], one: &[u8], other: &[u8]) -> bool
    ensures { result ≡ spec.is_both whole.now one.now other.now }
{
    match whole.strip_prefix(one) {
        Some(rest) => is_left(rest, other) && mention_in(other).is_some(),
        None => false,
    }
}

// Whether texts are the same.
fn same_texts(one: &[Vec<u8>], other: &[Vec<u8>]) -> bool
    ensures { result ≡ spec.same_texts (map (λ t. t.items) one.now) (map (λ t. t.items) other.now) }
{
    let mut left = one;
    let mut right = other;
    while let Some((text, texts)) = left.split_first() {
        let Some((same, rest)) = right.split_first() else {
            return false;
        };
        if text.as_slice() != same.as_slice() {
            return false;
        }
        left = texts;
        right = rest;
    }
    right.is_empty()
}

// Whether the first of some texts has become the first two of others, and the rest is the same.
fn is_parted_here(whole: &[u8], wholes: &[Vec<u8>], one: &[u8], others: &[Vec<u8>]) -> bool
    ensures { result ≡ spec.is_parted_here whole.now (map (λ t. t.items) wholes.now) one.now (map (λ t. t.items) others.now) }
{
    match others.split_first() {
        Some((other, rest)) => is_both(whole, one, other) && same_texts(wholes, rest),
        None => false,
    }
}

/// Whether one of some texts has become two, and the others are the same.
pub(crate) fn is_parted(before: &[Vec<u8>], after: &[Vec<u8>]) -> bool
    ensures { result ≡ spec.is_parted (map (λ t. t.items) before.now) (map (λ t. t.items) after.now) }
{
    let mut left = before;
    let mut right = after;
    while let Some((text, texts)) = left.split_first() {
        let Some((one, others)) = right.split_first() else {
            return false;
        };
        if text.as_slice() != one.as_slice() {
            return is_parted_here(text, texts, one, others);
        }
        left = texts;
        right = others;
    }
    false
}
