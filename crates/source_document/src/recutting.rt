//! The blocks of a text, cut anew only between those that were held before at both of its ends.
ghost use Rattle.std.specs.Prelude.{◌≡◌, ◌++◌, ◌∷◌, [], All, IfOk, IfSome, OnOk, map, reverse, true};
ghost use Rattle.ti_text.specs.Ascii as ascii;
ghost use Rattle.ti_source.specs.Cutting.{OneBlock, blocks_from_head, front_of, last_byte};
ghost use Rattle.tools_sources.specs.Sources.{source_texts};
ghost use Rattle.source_document.specs.Recutting.{CuttingIsLocal};

use std::alloc::{AllocError, Global};
use ti_source::blocks;
use tools_sources::is_ended;

// Whether two texts are the same.
fn is_equal(one: &[u8], other: &[u8]) -> bool
    ensures { result ≡ true → one.now ≡ other.now }
{
    one == other
}

// Whether a block begins at the start of a text, or the text is empty.
fn begins_block(text: &[u8]) -> bool
    ensures { result ≡ true → front_of ascii.newline text.now ≡ [] }
{
    blocks(text).preface().is_empty()
}

// A text as the block that is held, at its front, and what is after it, if another block begins
// there or nothing is left.
fn first_block<'a>(text: &'a [u8], block: &[u8]) -> Option<(&'a [u8], &'a [u8])>
    requires { OneBlock block.now }
    ensures { IfSome result (λ parts. blocks_from_head ascii.newline text.now ≡ parts.0.now ∷ blocks_from_head ascii.newline parts.1.now) }
{
    if text.len() < block.len() {
        return None;
    }
    let (own, rest) = text.split_at(block.len());
    if is_equal(own, block) && begins_block(rest) {
        return Some((own, rest));
    }
    None
}

// A text as what is before the block that is held, at its end, and the block, if a line ends before
// it.
fn last_block<'a>(text: &'a [u8], block: &[u8]) -> Option<(&'a [u8], &'a [u8])>
    requires { OneBlock block.now }
    ensures { IfSome result (λ parts. blocks_from_head ascii.newline text.now ≡ blocks_from_head ascii.newline parts.0.now ++ parts.1.now ∷ []) }
{
    if text.len() < block.len() {
        return None;
    }
    let (before, own) = text.split_at(text.len() - block.len());
    if is_equal(own, block) && is_ended(before) {
        return Some((before, own));
    }
    None
}

// Appends the blocks that are held, as far as a text begins with them, and returns what is after
// them.
fn push_first<'a>(
    texts: &mut Vec<&'a [u8]>,
    held: &[&[u8]],
    text: &'a [u8],
) -> Result<&'a [u8], AllocError>
    requires { All OneBlock (map (λ text. text.now) held.now) }
    ensures { IfOk result (λ rest. map (λ text. text.now) texts.new.items ++ blocks_from_head ascii.newline rest.now
        ≡ map (λ text. text.now) texts.old.items ++ blocks_from_head ascii.newline text.now) }
{
    let mut rest = text;
    for at in 0..held.len() {
        match first_block(rest, held[at]) {
            Some((own, after)) => {
                texts.push(own)?;
                rest = after;
            }
            None => return Ok(rest),
        }
    }
    Ok(rest)
}

// Appends the blocks that are held, the last of them first, as far as a text ends with them, and
// returns what is before them.
fn push_last<'a>(
    texts: &mut Vec<&'a [u8]>,
    held: &[&[u8]],
    text: &'a [u8],
) -> Result<&'a [u8], AllocError>
    requires { All OneBlock (map (λ text. text.now) held.now) }
    ensures { IfOk result (λ before. blocks_from_head ascii.newline before.now ++ reverse (map (λ text. text.now) texts.new.items)
        ≡ blocks_from_head ascii.newline text.now ++ reverse (map (λ text. text.now) texts.old.items)) }
{
    let mut before = text;
    for at in 0..held.len() {
        match last_block(before, held[held.len() - 1 - at]) {
            Some((others, own)) => {
                texts.push(own)?;
                before = others;
            }
            None => return Ok(before),
        }
    }
    Ok(before)
}

// Appends the blocks of a text.
fn push_blocks<'a>(texts: &mut Vec<&'a [u8]>, text: &'a [u8]) -> Result<(), AllocError>
    ensures { OnOk result (map (λ text. text.now) texts.new.items ≡ map (λ text. text.now) texts.old.items ++ blocks_from_head ascii.newline text.now) }
{
    let mut cut = blocks(text);
    while let Some(block) = cut.next() {
        texts.push(block)?;
    }
    Ok(())
}

// A text without what is before its first block.
fn after_preface(text: &[u8]) -> &[u8]
    ensures { blocks_from_head ascii.newline result.now ≡ blocks_from_head ascii.newline text.now }
{
    &text[blocks(text).preface().len()..]
}

/// The blocks of a text whose last line is ended. Only what is between the blocks that are held, as
/// far as the text begins and ends with them, is searched for their heads.
pub(crate) fn texts_of<'a>(
    alloc: Global,
    held: &[&[u8]],
    ended: &'a [u8],
) -> Result<Vec<&'a [u8]>, AllocError>
    requires ended { last_byte ascii.newline ended.now ≡ ascii.newline }
    requires single { All OneBlock (map (λ text. text.now) held.now) }
    ensures { IfOk result (λ texts. map (λ text. text.now) texts.items ≡ source_texts ended.now) }
{
    let mut texts = Vec::with_capacity(alloc, held.len())?;
    let rest = push_first(&mut texts, held, after_preface(ended))?;
    let mut last = Vec::new(alloc);
    let middle = push_last(&mut last, held, rest)?;
    push_blocks(&mut texts, middle)?;
    last.reverse();
    texts.extend_from_slice(&last)?;
    Ok(texts)
}

/// A law, with no code: cutting is local. Where a line ends, and a block or nothing begins, what is
/// before and what is after are cut apart.
pub fn cutting_is_local()
    ensures { CuttingIsLocal }
{}
