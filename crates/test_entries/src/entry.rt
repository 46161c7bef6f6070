//! Calls of `ti_layout`: entries written from values, and entries read, whole and damaged.
use std::alloc::Global;
use test_rows::RowError::{Bad, Memory};
use test_rows::values::{
    NO_CAPABILITY, has_no_nul, number_of, split, split_at_plus, table_of, value_of,
};
use test_rows::{NO_CALL, Row, RowResult, count_of};
use ti_caps::{Cap, Kind, find};
use ti_layout::{Content, Mentions, ReadError, Table, Value, View, WriteError, write};

/// The bytes of an entry, and what they were changed to.
#[derive(Drop)]
pub struct Bytes {
    whole: Vec<u8>,
    now: Vec<u8>,
}

impl Bytes {
    /// No bytes.
    pub fn new(alloc: Global) -> Bytes {
        Bytes {
            whole: Vec::new(alloc),
            now: Vec::new(alloc),
        }
    }
}

// The entry of a table or its length, or why there is none.
fn say_written(row: &mut Row<'_>, table: &Table, is_whole: bool) -> RowResult {
    let names = row.bytes(0)?;
    if names.is_empty() || !has_no_nul(names) {
        return Err(Bad("the names cannot be those of an entry"));
    }
    match write(row.alloc, names, table) {
        Ok(bytes) if is_whole => row.say(&bytes),
        Ok(bytes) => row.show(&bytes.len()),
        Err(WriteError::Memory) => Err(Memory),
        Err(cause) => row.fail(format!(in row.alloc; "{cause}")?.as_str()),
    }
}

// The entry of the values up to a `+`, with those after it merged into them.
fn say_entry(row: &mut Row<'_>, is_whole: bool) -> RowResult {
    let (first, second) = split_at_plus(row.from(1));
    let mut table = table_of(row.alloc, first)?;
    table.merge(&table_of(row.alloc, second)?)?;
    say_written(row, &table, is_whole)
}

// Mentions a number of values of a capability, each one more than the one before it.
fn mention_numbers(mentions: &mut Mentions, cap: Cap, first: u32, last: u32) -> RowResult {
    if cap.kind() != Kind::Number || last > 2_147_483_647 {
        return Err(Bad("a capability cannot have the value"));
    }
    for number in first..=last {
        mentions.push(cap, Value::Number(number))?;
    }
    Ok(())
}

// Mentions a value: `NAME#FIRST..LAST` mentions each number from one to the other.
fn mention(alloc: Global, mentions: &mut Mentions, word: &[u8]) -> RowResult {
    let (name, rest) = split(word);
    let Some(cap) = find(name) else {
        return Err(NO_CAPABILITY);
    };
    if let [b'#', digits @ ..] = rest
        && let Some(end) = digits.iter().position(|byte| *byte == b'.')
    {
        let first = number_of(digits.get(..end).unwrap_or(&[]))?;
        let last = number_of(digits.get(end.saturating_add(2)..).unwrap_or(&[]))?;
        return mention_numbers(mentions, cap, first, last);
    }
    let value = value_of(alloc, cap, rest)?;
    Ok(mentions.push(cap, value)?)
}

fn mention_all(alloc: Global, mentions: &mut Mentions, words: &[Vec<u8>]) -> RowResult {
    for word in words {
        mention(alloc, mentions, word)?;
    }
    Ok(())
}

// The table of mentions, of an entry that is used, and of further mentions, with `+` between them.
fn say_mentions(row: &mut Row<'_>) -> RowResult {
    let alloc = row.alloc;
    let (first, others) = split_at_plus(row.from(1));
    let (used, last) = split_at_plus(others);
    let mut mentions = Mentions::new(alloc, row.len())?;
    mention_all(alloc, &mut mentions, first)?;
    mentions.merge(&table_of(alloc, used)?)?;
    mention_all(alloc, &mut mentions, last)?;
    say_written(row, &mentions.into_table()?, true)
}

// Whether the bytes are an entry, or why not. Keeps them.
fn take(row: &mut Row<'_>, bytes: &mut Bytes, now: Vec<u8>) -> RowResult {
    bytes.now = now;
    match View::read(&bytes.now) {
        Ok(_) => row.say(b"read"),
        Err(cause) => row.fail(format!(in row.alloc; "{cause}")?.as_str()),
    }
}

// Writes some bytes over others at a place, if they are there.
fn overwrite(bytes: &mut Vec<u8>, place: usize, others: &[u8]) -> RowResult {
    for (at, byte) in others.iter().enumerate() {
        match bytes.get_mut(place.saturating_add(at)) {
            Some(old) => *old = *byte,
            None => return Err(Bad("there is no byte at the place")),
        }
    }
    Ok(())
}

/// The bytes that were taken, with others at places: the words are places and bytes.
pub fn changed(alloc: Global, bytes: &Bytes, words: &[Vec<u8>]) -> RowResult<Vec<u8>> {
    let mut changed = Vec::from_slice(alloc, &bytes.whole)?;
    for pair in words.chunks(2) {
        if let [place, others] = pair {
            overwrite(&mut changed, count_of(place)?, others)?;
        }
    }
    Ok(changed)
}

// The first of the bytes that were taken.
fn cut(alloc: Global, bytes: &Bytes, len: usize) -> RowResult<Vec<u8>> {
    match bytes.whole.get(..len) {
        Some(front) => Ok(Vec::from_slice(alloc, front)?),
        None => Err(Bad("there are fewer bytes")),
    }
}

// The bytes that were taken, with more after them.
fn longer(alloc: Global, bytes: &Bytes, more: &[u8]) -> RowResult<Vec<u8>> {
    let mut longer = Vec::from_slice(alloc, &bytes.whole)?;
    longer.extend_from_slice(more)?;
    Ok(longer)
}

// How many of the fronts of the bytes are refused as short, as truncated, and otherwise or not.
fn say_cuts(row: &mut Row<'_>, bytes: &[u8]) -> RowResult {
    let (mut short, mut truncated, mut others) = (0usize, 0usize, 0usize);
    for len in 0..bytes.len() {
        match View::read(bytes.get(..len).unwrap_or(&[])) {
            Err(ReadError::Short) if len == short => short = short.saturating_add(1),
            Err(ReadError::Truncated) => truncated = truncated.saturating_add(1),
            _ => others = others.saturating_add(1),
        }
    }
    for count in [short, truncated, others] {
        row.show(&count)?;
    }
    Ok(())
}

// What a view has of a capability, by the call of its kind.
fn say_value(row: &mut Row<'_>, view: &View<'_>, cap: Cap) -> RowResult {
    match cap.kind() {
        Kind::Flag => row.say_yes(view.flag(cap)),
        Kind::Number => match view.number(cap) {
            Some(number) => row.show(&number),
            None => row.say(b"none"),
        },
        Kind::Text => row.say_or_none(view.text(cap)),
    }
}

// Whether the call for every kind has the same.
fn is_same(view: &View<'_>, cap: Cap) -> bool {
    match view.get(cap) {
        Some(Content::True) => cap.kind() == Kind::Flag && view.flag(cap),
        Some(Content::Number(number)) => {
            cap.kind() == Kind::Number && view.number(cap) == Some(number)
        }
        Some(Content::Text(text)) => cap.kind() == Kind::Text && view.text(cap) == Some(text),
        Some(Content::Cancelled) => false,
        None => true,
    }
}

fn view_of(bytes: &[u8]) -> RowResult<View<'_>> {
    View::read(bytes).map_err(|_| Bad("the bytes are not an entry"))
}

// What the bytes have of a capability.
fn say_got(row: &mut Row<'_>, bytes: &[u8]) -> RowResult {
    let view = view_of(bytes)?;
    let Some(cap) = find(row.bytes(0)?) else {
        return Err(NO_CAPABILITY);
    };
    if !is_same(&view, cap) {
        return Err(Bad("the calls differ"));
    }
    say_value(row, &view, cap)
}

// The names field of the bytes, and the first name.
fn say_names(row: &mut Row<'_>, bytes: &[u8]) -> RowResult {
    let view = view_of(bytes)?;
    row.say(view.names())?;
    row.say(view.first_name())
}

// Makes a call that takes bytes, and changes those that were taken.
fn change(bytes: &mut Bytes, name: &str, row: &mut Row<'_>) -> RowResult {
    let alloc = row.alloc;
    let now = match name {
        "read" => {
            bytes.whole = Vec::from_slice(alloc, row.bytes(0)?)?;
            Vec::from_slice(alloc, row.bytes(0)?)?
        }
        "change" => changed(alloc, bytes, row.from(0))?,
        "cut" => cut(alloc, bytes, row.count(0)?)?,
        "append" => longer(alloc, bytes, row.bytes(0)?)?,
        _ => return Err(NO_CALL),
    };
    take(row, bytes, now)
}

/// Makes a call of this library.
pub fn call(bytes: &mut Bytes, name: &str, row: &mut Row<'_>) -> RowResult {
    match name {
        "write" => say_entry(row, true),
        "length" => say_entry(row, false),
        "mentions" => say_mentions(row),
        "cuts" => say_cuts(row, &bytes.whole),
        "get" => say_got(row, &bytes.now),
        "names" => say_names(row, &bytes.now),
        _ => change(bytes, name, row),
    }
}
