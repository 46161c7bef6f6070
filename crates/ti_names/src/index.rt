//! Looks up a word in a list. An index of the list has the keys of its words in rising order, and
//! beside each key the last place of that word.
ghost use Rattle.std.specs.Prelude.{◌≡◌, ◌<◌, [], length, bytes_eq, Some, None, if◌then◌else◌};
ghost use Rattle.std.specs.List.{slice_index_or};
ghost use Rattle.ti_names.specs.Names.{last_place_of};
ghost use Rattle.ti_names.specs.inside.Index.{IsIndex, key_of, texts_of};

/// The key of a word: its bytes as the digits of a number to the base 257, modulo 2 ^ 32.
fn key_of(word: &[u8]) -> u32
    ensures { result ≡ key_of word.now }
{
    let mut key = 0u32;
    for place in 0..word.len() {
        key = key.wrapping_mul(257).wrapping_add(u32::from(word[place]));
    }
    key
}

/// The word at a place of a list.
pub fn text_at(words: &'static [&'static str], place: usize) -> &'static str
    requires { place < length words.now }
    ensures { result.now ≡ slice_index_or (texts_of words.now) place [] }
{
    words[place]
}

// The number in a row.
fn number_at(numbers: &[u16], row: usize) -> usize
    requires { row < length numbers.now }
    ensures { result ≡ slice_index_or numbers.now row 0 }
{
    numbers[row] as usize
}

// The place that a row has, if that word is there.
fn place_in_row(
    words: &'static [&'static str],
    places: &[u16],
    row: usize,
    word: &[u8],
) -> Option<usize>
    requires row { row < length places.now }
    requires place { slice_index_or places.now row 0 < length words.now }
    ensures { result ≡ (if bytes_eq (slice_index_or (texts_of words.now) (slice_index_or places.now row 0) []) word.now then Some (slice_index_or places.now row 0) else None) }
{
    let place = number_at(places, row);
    if text_at(words, place).as_bytes() == word {
        Some(place)
    } else {
        None
    }
}

/// The last place of a word in a list, which has an index.
pub fn last_place(
    words: &'static [&'static str],
    keys: &[u32],
    places: &[u16],
    word: &[u8],
) -> Option<usize>
    requires { IsIndex (texts_of words.now) keys.now places.now }
    ensures { result ≡ last_place_of word.now (texts_of words.now) }
{
    match keys.binary_search(&key_of(word)) {
        Ok(row) => place_in_row(words, places, row, word),
        Err(_) => None,
    }
}
