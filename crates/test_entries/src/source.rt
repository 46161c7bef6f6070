//! Calls of `ti_source`: sources cut into blocks, names fields, and blocks as they are read.
use test_rows::RowError::Bad;
use test_rows::{NO_CALL, Row, RowResult, block_of, code_of, say_items};
use ti_source::{
    Parsed, SharedTexts, blocks, is_block, is_lookup_name, lookup_names, names_field, parse,
    parse_sharing,
};

// The names field of a block, how many lookup names it has, its items and its faults.
fn say_parsed(row: &mut Row<'_>, parsed: &Parsed) -> RowResult {
    row.say(&parsed.field)?;
    row.show(&parsed.names.len())?;
    say_items(row, &parsed.items, &parsed.faults)
}

fn say_parse(row: &mut Row<'_>) -> RowResult {
    let block = block_of(row)?;
    let parsed = parse(row.alloc, block)?;
    say_parsed(row, &parsed)
}

// The same, with the strings shared that earlier blocks spelled.
fn say_parse_sharing(row: &mut Row<'_>, shared: &mut SharedTexts) -> RowResult {
    let block = block_of(row)?;
    let parsed = parse_sharing(row.alloc, block, shared)?;
    say_parsed(row, &parsed)
}

// What is before the first block, and then the blocks. What is before it stays there to the end.
fn say_blocks(row: &mut Row<'_>) -> RowResult {
    let source = row.bytes(0)?;
    let mut cut = blocks(source);
    let preface = cut.preface();
    row.say(preface)?;
    for _ in 0..source.len() {
        let Some(block) = cut.next() else {
            break;
        };
        row.say(block)?;
    }
    if cut.preface() != preface {
        return Err(Bad("what is before the blocks has changed"));
    }
    Ok(())
}

fn say_lookup_names(row: &mut Row<'_>) -> RowResult {
    let Some(names) = lookup_names(row.alloc, row.bytes(0)?)? else {
        return row.say(b"none");
    };
    row.say(b"names")?;
    for name in &names {
        row.say(name.as_slice())?;
    }
    Ok(())
}

// A code's label, whether it is an error, and whether it is of a names field.
fn say_code(row: &mut Row<'_>) -> RowResult {
    let code = code_of(row.text(0)?)?;
    row.say_text(code.label())?;
    row.say_yes(code.is_error())?;
    row.say_yes(code.is_of_header())
}

/// Makes a call of this library.
pub fn call(shared: &mut SharedTexts, name: &str, row: &mut Row<'_>) -> RowResult {
    match name {
        "blocks" => say_blocks(row),
        "is_block" => row.say_yes(is_block(row.bytes(0)?)),
        "lookup_names" => say_lookup_names(row),
        "is_lookup_name" => row.say_yes(is_lookup_name(row.bytes(0)?)),
        "names_field" => row.say(&names_field(row.alloc, row.bytes(0)?)?),
        "code" => say_code(row),
        "parse" => say_parse(row),
        "parse_sharing" => say_parse_sharing(row, shared),
        _ => Err(NO_CALL),
    }
}
