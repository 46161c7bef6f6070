//! Where the names field of a block is.
ghost use Rattle.std.specs.Prelude.{ℕ, ◌≡◌, ◌^◌, ◌<◌, ◌≤◌, List, ◌∷◌, Some, IfOk, length};
ghost use Rattle.ti_source.specs.Folding.{PlacedByte};
ghost use Rattle.source_spans.specs.Folding.{folded_of, in_comment};
ghost use Rattle.source_spans.specs.Parts.{field_of, spanned};
ghost use Rattle.source_spans.specs.Subjects.{head_span, head_text, span_or_start};
ghost use Rattle.source_spans.specs.inside.Heads.{spanned_on};

use crate::parts::Part;
use memchr::memchr;
use std::alloc::{AllocError, Global};
use ti_text::is_white_space;

/// The names field of a block.
#[derive(Drop)]
pub struct Head {
    /// Where it is; an empty one is at the start of the block.
    pub span: Part,
    /// Its bytes, without comments and line breaks.
    pub text: Vec<u8>,
}

// Whether a byte is in a comment, by the byte before it and whether that one is.
fn in_comment(comment: bool, before: u8, byte: u8) -> bool
    ensures { result ≡ in_comment comment before byte }
{
    if before == b'\n' {
        byte == b'#'
    } else {
        comment
    }
}

// For how many bytes of a names field room is made at once: as many as there are before the first
// comma, which ends it unless it is in a comment.
fn room_of(block: &[u8]) -> usize
    ensures { result ≤ length block.now }
{
    match memchr(b',', block) {
        Some(at) => at,
        None => block.len(),
    }
}

// Where bytes are that go on with the one at an offset, from where those before it are.
fn with_next(span: Option<Part>, at: usize) -> Part
    requires { at < 2 ^ 63 }
    ensures { (byte : ℕ) (rest : List PlacedByte) → spanned_on span ((byte, at) ∷ rest) ≡ spanned_on (Some result) rest }
{
    Part {
        start: match span {
            Some(before) => before.start,
            None => at,
        },
        end: at + 1,
    }
}

// The bytes of the names field of a block, and where they are, if there are any. The block is
// folded up to its first comma alone.
fn field(alloc: Global, block: &[u8]) -> Result<(Vec<u8>, Option<Part>), AllocError>
    ensures text { IfOk result (λ found. found.0.items ≡ head_text block.now) }
    ensures span { IfOk result (λ found. found.1 ≡ spanned (field_of (folded_of block.now))) }
{
    let mut text = Vec::with_capacity(alloc, room_of(block))?;
    let mut span = None;
    let mut comment = false;
    let mut joining = false;
    let mut before = b'\n';
    for at in 0..block.len() {
        let byte = block[at];
        comment = in_comment(comment, before, byte);
        before = byte;
        if comment {
            continue;
        }
        joining = byte == b'\n' || (joining && is_white_space(byte));
        if joining {
            continue;
        }
        if byte == b',' {
            return Ok((text, span));
        }
        span = Some(with_next(span, at));
        text.push(byte)?;
    }
    Ok((text, span))
}

/// The names field of a block.
///
/// # Errors
/// Out of memory.
pub fn head_of(alloc: Global, block: &[u8]) -> Result<Head, AllocError>
    ensures span { IfOk result (λ head. head.span ≡ head_span block.now) }
    ensures text { IfOk result (λ head. head.text.items ≡ head_text block.now) }
{
    let (text, span) = field(alloc, block)?;
    Ok(Head {
        span: span_or_start(span),
        text,
    })
}

/// A span, or the start of the block if there is none.
pub(crate) fn span_or_start(span: Option<Part>) -> Part
    ensures { result ≡ span_or_start span }
{
    match span {
        Some(span) => span,
        None => Part { start: 0, end: 0 },
    }
}
