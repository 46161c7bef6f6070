//! The words of a command as the parameters of a string, and how many a string takes.
ghost use Rattle.std.specs.Prelude.{◌≡◌, map, slice_index_or, false};
ghost use Rattle.ti_param.specs.Meaning.{argument_of};
ghost use Rattle.tools_tput.specs.Parameters.{is_text_parameter};
ghost use Rattle.everyday_tput.specs.Parameters.{argument_at, arguments, is_text_at, least_words, words_by};

use crate::numbers::word_number;
use ti_formats::TakenParameters;
use ti_param::Value;
use ti_text::limits::PARAMETERS_MAX;

// Whether the word at an index after a capability's name is a string, whatever its format is.
fn is_text_parameter(cap: &[u8], index: usize) -> bool
    ensures { result ≡ is_text_parameter cap.now index }
{
    match index {
        1 => matches!(cap, b"pfkey" | b"pfloc" | b"pfx" | b"pln" | b"pfxl"),
        2 => cap == b"pfxl".as_slice(),
        _ => false,
    }
}

/// How many words a capability takes whatever its string is.
pub(crate) fn least_words(cap: &[u8]) -> usize
    ensures { result ≡ least_words cap.now }
{
    if is_text_parameter(cap, 2) {
        3
    } else if is_text_parameter(cap, 1) {
        2
    } else {
        0
    }
}

/// How many words the string of a capability takes, by the parameters of its format.
pub(crate) fn words_by(cap: &[u8], taken: &TakenParameters) -> usize
    ensures { result ≡ words_by cap.now taken.now }
{
    least_words(cap).max(taken.named.max(taken.popped))
}

// Whether the word at an index is a string.
fn is_text_at(cap: &[u8], strings: &[bool; PARAMETERS_MAX], index: usize) -> bool
    ensures { result ≡ is_text_at cap.now strings.now index }
{
    is_text_parameter(cap, index) || strings.get(index).copied().unwrap_or(false)
}

// The word at an index as a parameter of the capability; one that is missing is empty, or 0.
fn argument_at<'a>(
    cap: &[u8],
    strings: &[bool; PARAMETERS_MAX],
    words: &[&'a [u8]],
    index: usize,
) -> Value<'a>
    ensures { argument_of result ≡ argument_at cap.now strings.now (map (λ word. word.now) words.now) index }
{
    let word = words.get(index);
    if is_text_at(cap, strings, index) {
        return match word {
            Some(word) => Value::Text(word),
            None => Value::Text(b""),
        };
    }
    match word {
        Some(word) => Value::Number(word_number(word)),
        None => Value::Number(0),
    }
}

/// The words after a capability's name as its parameters, given which its format takes as strings.
#[tactic(auto, unfolding(crate::specs::Parameters::arguments))]
pub(crate) fn arguments<'a>(
    cap: &[u8],
    strings: &[bool; PARAMETERS_MAX],
    words: &[&'a [u8]],
) -> [Value<'a>; PARAMETERS_MAX]
    ensures { map argument_of result ≡ arguments cap.now strings.now (map (λ word. word.now) words.now) }
{
    [
        argument_at(cap, strings, words, 0),
        argument_at(cap, strings, words, 1),
        argument_at(cap, strings, words, 2),
        argument_at(cap, strings, words, 3),
        argument_at(cap, strings, words, 4),
        argument_at(cap, strings, words, 5),
        argument_at(cap, strings, words, 6),
        argument_at(cap, strings, words, 7),
        argument_at(cap, strings, words, 8),
    ]
}
