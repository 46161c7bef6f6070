//! The words of a command as the parameters of a string.
ghost use Rattle.std.specs.Prelude.{◌≡◌, map};
ghost use Rattle.ti_param.specs.Meaning.{argument_of};
ghost use Rattle.tools_tput.specs.Parameters.{is_text_parameter, parameter_at, parameters, word_number};

use std::str::from_utf8;
use ti_param::Value;
use ti_text::limits::PARAMETERS_MAX;

// The number that a word spells: an optional `-` and decimal digits, from -2,147,483,648 to
// 2,147,483,647.
fn spelled_number(word: &[u8]) -> Option<i32>
    ensures { result ≡ word_number word.now }
{
    if let [b'+', ..] = word {
        return None;
    }
    match from_utf8(word) {
        Ok(text) => text.parse().ok(),
        Err(_) => None,
    }
}

// Whether the word at an index after a capability's name is a string, whatever it spells.
fn is_text_parameter(cap: &[u8], index: usize) -> bool
    ensures { result ≡ is_text_parameter cap.now index }
{
    match index {
        1 => matches!(cap, b"pfkey" | b"pfloc" | b"pfx" | b"pln" | b"pfxl"),
        2 => cap == b"pfxl".as_slice(),
        _ => false,
    }
}

// The word at an index as a parameter of the capability; a word that is not given is the number 0.
fn parameter_at<'a>(cap: &[u8], words: &[&'a [u8]], index: usize) -> Value<'a>
    ensures { argument_of result ≡ parameter_at cap.now (map (λ word. word.now) words.now) index }
{
    let Some(word) = words.get(index) else {
        return Value::Number(0);
    };
    if is_text_parameter(cap, index) {
        return Value::Text(word);
    }
    match spelled_number(word) {
        Some(number) => Value::Number(number),
        None => Value::Text(word),
    }
}

/// The words after a capability's name as its parameters. A word that spells a number is a number,
/// and any other is a string. The second word of `pfkey`, `pfloc`, `pfx` and `pln`, and the second
/// and third of `pfxl`, are always strings.
#[tactic(auto, unfolding(crate::specs::Parameters::parameters))]
pub fn parameters_of<'a>(cap: &[u8], words: &[&'a [u8]]) -> [Value<'a>; PARAMETERS_MAX]
    ensures { map argument_of result ≡ parameters cap.now (map (λ word. word.now) words.now) }
{
    [
        parameter_at(cap, words, 0),
        parameter_at(cap, words, 1),
        parameter_at(cap, words, 2),
        parameter_at(cap, words, 3),
        parameter_at(cap, words, 4),
        parameter_at(cap, words, 5),
        parameter_at(cap, words, 6),
        parameter_at(cap, words, 7),
        parameter_at(cap, words, 8),
    ]
}
