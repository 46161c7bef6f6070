//! Sources before they are compiled: whether they are refused, and on which line their first block
//! begins.
ghost use Rattle.std.specs.Prelude.{◌≡◌, ◌+◌, ◌≤◌, ◌^◌, ◌==◌, length, take, IfErr, OnOk};
ghost use Rattle.ti_text.specs.Lines.{line_count};
ghost use Rattle.ti_text.specs.Ascii as ascii;
ghost use Rattle.ti_source.specs.Cutting.{last_byte};
ghost use Rattle.tools_sources.specs.Sources as spec;
ghost use Rattle.tools_sources.specs.Sources.{AreTaken, IsSourceRefusal, source_texts, with_last_newline};

use crate::source_error::SourceError;
use ti_source::blocks;
use ti_text::count_lines;
use ti_text::limits::{BLOCK_BYTES_MAX, BLOCKS_MAX};

/// Whether the last line of a text has its newline; an empty text has no line without one.
pub fn is_ended(text: &[u8]) -> bool
    ensures { result ≡ (last_byte ascii.newline text.now == ascii.newline) }
{
    match text.last() {
        Some(byte) => *byte == b'\n',
        None => true,
    }
}

// The bytes of a text once its last line is ended.
fn ended_len(text: &[u8]) -> usize
    ensures { result ≡ length (with_last_newline text.now) }
{
    if is_ended(text) {
        text.len()
    } else {
        text.len() + 1
    }
}

/// The number of the line on which the first block of a source begins, counted from 1; if there is
/// no block, that on which one that is put at its end would.
pub fn first_line(source: &[u8]) -> usize
    ensures number { result ≡ spec.first_line source.now }
    ensures bound { result ≤ 2 ^ 63 }
{
    ti_text::laws::lines_add();
    let preface = blocks(source).preface();
    let lines = count_lines(preface);
    if is_ended(preface) {
        lines + 1
    } else {
        lines + 2
    }
}

// The number of the line of that offset, counted from 1.
fn line_at(source: &[u8], offset: usize) -> usize
    requires { offset ≤ length source.now }
    ensures { result ≡ line_count (take offset source.now) + 1 }
{
    count_lines(&source[..offset]) + 1
}

/// Whether a source may be compiled. Takes no memory.
///
/// # Errors
/// `BlockTooLong` or `TooManyBlocks`, of the first block at which one of them holds.
pub fn check(source: &[u8]) -> Result<(), SourceError>
    ensures taken { OnOk result (AreTaken (source_texts source.now)) }
    ensures refused { IfErr result (IsSourceRefusal source.now) }
{
    ti_source::laws::each_has_cut();
    ti_source::laws::blocks_are_single();
    ti_text::laws::lines_add();
    let mut cut = blocks(source);
    let mut offset = cut.preface().len();
    let mut count = 0;
    while let Some(text) = cut.next() {
        if ended_len(text) > BLOCK_BYTES_MAX {
            return Err(SourceError::BlockTooLong {
                line: line_at(source, offset),
            });
        }
        if count >= BLOCKS_MAX {
            return Err(SourceError::TooManyBlocks {
                line: line_at(source, offset),
            });
        }
        offset += text.len();
        count += 1;
    }
    Ok(())
}

/// A law, with no code: a source is refused for one cause alone, that of its first block that is
/// refused; if each block is taken, it is not refused. Both are computed by a recursion on the
/// blocks.
pub fn sources_have_one_refusal()
    ensures one { spec.SourcesHaveOneRefusal }
    ensures taken { spec.TakenSourcesAreNotRefused }
    ensures computed { spec.RefusalsAreComputed }
    ensures none { spec.TakenSourcesHaveNone }
{}

/// A law, with no code: a text ends with a newline once a missing one is put at its end.
pub fn ended_texts_end()
    ensures { spec.EndedTextsEnd }
{}
