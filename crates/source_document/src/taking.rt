//! Whether the blocks of a source are taken, once they are cut.
ghost use Rattle.std.specs.Prelude.{◌≡◌, ◌≤◌, All, None, true, length, map};
ghost use Rattle.ti_text.specs.Ascii as ascii;
ghost use Rattle.ti_text.specs.Limits.{block_bytes_max, blocks_max};
ghost use Rattle.ti_source.specs.Cutting.{last_byte};
ghost use Rattle.tools_sources.specs.Sources.{AreTaken, source_refusal, source_texts};

use ti_text::limits::{BLOCK_BYTES_MAX, BLOCKS_MAX};
use tools_sources::{SourceError, check};

// Whether none of these texts is too long, and they are not too many.
fn are_few_and_short(texts: &[&[u8]]) -> bool
    ensures few { result ≡ true → length texts.now ≤ blocks_max }
    ensures short { result ≡ true → All (λ text. length text ≤ block_bytes_max) (map (λ text. text.now) texts.now) }
{
    for text in texts {
        if text.len() > BLOCK_BYTES_MAX {
            return false;
        }
    }
    texts.len() <= BLOCKS_MAX
}

/// Why a source is refused whose last line is ended and whose blocks are these texts, or `None`.
pub(crate) fn refusal_of(ended: &[u8], texts: &[&[u8]]) -> Option<SourceError>
    requires ended { last_byte ascii.newline ended.now ≡ ascii.newline }
    requires texts { map (λ text. text.now) texts.now ≡ source_texts ended.now }
    ensures refusal { result ≡ source_refusal ended.now }
    ensures taken { result ≡ None → AreTaken (source_texts ended.now) }
{
    ti_source::laws::each_has_cut();
    ti_source::laws::blocks_are_single();
    tools_sources::laws::ended_texts_end();
    tools_sources::laws::sources_have_one_refusal();
    if are_few_and_short(texts) {
        return None;
    }
    // Only a source that is refused is cut again, to find the line.
    check(ended).err()
}
