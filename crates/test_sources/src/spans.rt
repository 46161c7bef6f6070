//! Calls of `source_spans`: the parts of blocks, what their offsets are on, and where their faults are.
use source_spans::{
    FaultFinder, Item, Part, Subject, Touched, field_len, folded, head_of, item_in, item_parts,
    name_parts, ordinal_in, own_spans, span_of, subject_at, subject_in, uses_of, word_before,
};
use test_rows::RowError::Bad;
use test_rows::{NO_CALL, Row, RowResult, block_of, code_of, count_of, text_of};
use ti_source::{Code, parse};

// A part, `START-END`, or `none`.
fn say_part(row: &mut Row<'_>, part: Option<Part>) -> RowResult {
    match part {
        Some(Part { start, end }) => row.say_text(format!(in row.alloc; "{start}-{end}")?.as_str()),
        None => row.say(b"none"),
    }
}

// How many bytes the names field has, and each item's part of the folded text and of the block.
fn say_items(row: &mut Row<'_>, block: &[u8]) -> RowResult {
    let text = folded(row.alloc, block)?;
    let field = field_len(&text);
    row.show(&field)?;
    let parts = item_parts(row.alloc, &text, text.len().min(field + 1))?;
    for part in &parts {
        say_part(row, Some(*part))?;
        say_part(row, span_of(&text, *part))?;
    }
    Ok(())
}

// Where each name of the names field is.
fn say_names(row: &mut Row<'_>, block: &[u8]) -> RowResult {
    let text = folded(row.alloc, block)?;
    let parts = name_parts(row.alloc, &text, field_len(&text))?;
    for part in &parts {
        say_part(row, span_of(&text, *part))?;
    }
    Ok(())
}

// Where the names field is, and its bytes.
fn say_head(row: &mut Row<'_>, block: &[u8]) -> RowResult {
    let head = head_of(row.alloc, block)?;
    say_part(row, Some(head.span))?;
    row.say(&head.text)
}

// Where each used name is, and the name.
fn say_uses(row: &mut Row<'_>, block: &[u8]) -> RowResult {
    let uses = uses_of(row.alloc, block)?;
    for found in &uses {
        say_part(row, Some(found.span))?;
        row.say(&found.name)?;
    }
    Ok(())
}

// Where a block has a name in its head.
fn say_own(row: &mut Row<'_>, block: &[u8]) -> RowResult {
    let spans = own_spans(row.alloc, block, row.bytes(1)?)?;
    for span in &spans {
        say_part(row, Some(*span))?;
    }
    Ok(())
}

// What is touched, where it and its name are, and the name.
fn say_touched(row: &mut Row<'_>, found: &Touched) -> RowResult {
    let (word, name) = match &found.subject {
        Subject::OwnName(name) => ("own", name),
        Subject::Used(name) => ("used", name),
    };
    row.say_text(word)?;
    say_part(row, Some(found.span))?;
    say_part(row, Some(found.name))?;
    row.say(name)
}

// What each offset is on.
fn say_subjects(row: &mut Row<'_>, block: &[u8]) -> RowResult {
    let text = folded(row.alloc, block)?;
    for word in row.from(1) {
        let offset = count_of(word)?;
        let found = subject_at(row.alloc, block, offset)?;
        if subject_in(row.alloc, &text, offset)?.is_none() != found.is_none() {
            return Err(Bad("the folded text has another subject"));
        }
        match &found {
            Some(found) => say_touched(row, found)?,
            None => row.say(b"none")?,
        }
    }
    Ok(())
}

// The ordinal of an item, where it is, its name and its bytes.
fn say_item(row: &mut Row<'_>, ordinal: Option<usize>, item: &Option<Item>) -> RowResult {
    match (ordinal, item) {
        (Some(ordinal), Some(item)) => {
            row.show(&ordinal)?;
            say_part(row, Some(item.span))?;
            row.say(&item.name)?;
            row.say(&item.text)
        }
        (None, None) => row.say(b"none"),
        _ => Err(Bad("the ordinal and the item differ")),
    }
}

// The item that each offset is on.
fn say_touched_items(row: &mut Row<'_>, block: &[u8]) -> RowResult {
    let text = folded(row.alloc, block)?;
    for word in row.from(1) {
        let offset = count_of(word)?;
        let ordinal = ordinal_in(row.alloc, &text, offset)?;
        let item = item_in(row.alloc, &text, offset)?;
        say_item(row, ordinal, &item)?;
    }
    Ok(())
}

// Where the word before each offset begins, and what it is.
fn say_words(row: &mut Row<'_>, block: &[u8]) -> RowResult {
    for word in row.from(1) {
        match word_before(row.alloc, block, count_of(word)?)? {
            Some(word) => {
                row.show(&word.start)?;
                row.say(if word.used { b"used" } else { b"item" })?;
            }
            None => row.say(b"none")?,
        }
    }
    Ok(())
}

// A fault: its line, its code and its detail, if it has one.
#[derive(Clone, Copy)]
struct Sought<'a> {
    line: usize,
    code: Code,
    detail: Option<&'a [u8]>,
}

// The fault of a word: `LINE:CODE` or `LINE:CODE:DETAIL`.
fn sought_of(word: &[u8]) -> RowResult<Sought<'_>> {
    let Some((line, rest)) = text_of(word)?.split_once(':') else {
        return Err(Bad("a word is to be a fault"));
    };
    let (code, detail) = match rest.split_once(':') {
        Some((code, detail)) => (code, Some(detail.as_bytes())),
        None => (rest, None),
    };
    Ok(Sought {
        line: count_of(line.as_bytes())?,
        code: code_of(code)?,
        detail,
    })
}

// Where each fault is of those that are sought in turn, by the text of a block and by what it was
// read as.
fn say_faults(row: &mut Row<'_>) -> RowResult {
    let block = block_of(row)?;
    let read = parse(row.alloc, block)?;
    let mut finder = FaultFinder::of(row.alloc, block)?;
    let mut known = FaultFinder::of_known(row.alloc, block, &read.items, &read.faults)?;
    for word in row.from(1) {
        let sought = sought_of(word)?;
        let part = finder.find(sought.line, sought.code, sought.detail);
        if known.find(sought.line, sought.code, sought.detail) != part {
            return Err(Bad("a fault is elsewhere in what was read"));
        }
        say_part(row, part)?;
    }
    Ok(())
}

/// Makes a call of this library.
pub fn call(name: &str, row: &mut Row<'_>) -> RowResult {
    let block = row.bytes(0)?;
    match name {
        "items" => say_items(row, block),
        "names" => say_names(row, block),
        "head" => say_head(row, block),
        "uses" => say_uses(row, block),
        "own" => say_own(row, block),
        "subjects" => say_subjects(row, block),
        "touched" => say_touched_items(row, block),
        "words" => say_words(row, block),
        "faults" => say_faults(row),
        _ => Err(NO_CALL),
    }
}
