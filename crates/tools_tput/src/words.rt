//! The words of a line.
ghost use Rattle.std.specs.Prelude.{◌≡◌, ◌∷◌, ◌<◌, [], MatchOption, length, map, not, position, take};
ghost use Rattle.ti_text.specs.WhiteSpace.{is_white_space};
ghost use Rattle.tools_tput.specs.Runs.{words_of};
ghost use Rattle.tools_tput.specs.inside.Runs.{words_seen};

use arrayvec::ArrayVec;
use ti_text::is_white_space;

// One word more than a command may have: a line with this number of words has too many.
const WORDS_SEEN: usize = 11;

// The offset at which the first word of a text begins.
fn word_start(text: &[u8]) -> Option<usize>
    ensures { result ≡ position (λ byte. not (is_white_space byte)) text.now }
{
    text.iter().position(|byte| !is_white_space(*byte))
}

// The offset at which the word at the front of a text ends.
fn word_end(text: &[u8]) -> Option<usize>
    ensures { result ≡ position is_white_space text.now }
{
    text.iter().position(|byte| is_white_space(*byte))
}

// The first word, and what follows it.
fn next_word(text: &[u8]) -> Option<(&[u8], &[u8])>
    ensures { MatchOption result (words_of text.now ≡ [])
        (λ p. (words_of text.now ≡ p.0.now ∷ words_of p.1.now) × (length p.1.now < length text.now)) }
{
    let rest = &text[word_start(text)?..];
    match word_end(rest) {
        Some(end) => Some(rest.split_at(end)),
        None => Some((rest, b"")),
    }
}

/// The words of a line, up to the eleventh.
pub fn split_words(line: &[u8]) -> ArrayVec<&[u8], WORDS_SEEN>
    ensures { map (λ word. word.now) result.items ≡ take words_seen (words_of line.now) }
{
    let mut words = ArrayVec::new();
    let mut rest = line;
    while let Some((word, later)) = next_word(rest) {
        if words.is_full() {
            break;
        }
        words.push(word);
        rest = later;
    }
    words
}
