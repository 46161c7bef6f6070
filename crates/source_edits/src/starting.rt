//! The offsets of a text at which a character begins.
ghost use Rattle.std.specs.Prelude.{◌≡◌, ◌<◌, length};
ghost use Rattle.source_places.specs.Position as places;
ghost use Rattle.source_edits.specs.inside.Starting.{begins_character};

use crate::texts::last_byte;

// Whether a byte begins a character after another byte: it is none within one, nor the LF of a
// CR LF.
#[tactic(auto, using(crate::proofs::CharacterStarts::units_some))]
fn begins_character(before: u8, byte: u8) -> bool
    ensures { result ≡ begins_character before byte }
{
    (byte < 128 || byte >= 192) && !(before == b'\r' && byte == b'\n')
}

/// Whether an offset of a text is the start of a character: neither within one nor between a CR and
/// its LF.
#[tactic(auto, using(crate::proofs::CharacterStarts::start_at))]
pub fn is_start(text: &[u8], offset: usize) -> bool
    requires { offset < length text.now }
    ensures { result ≡ places.is_start 0 text.now offset }
{
    begins_character(last_byte(&text[..offset]), text[offset])
}
