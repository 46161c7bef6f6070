//! Calls of `source_places`: offsets and places of a text, its lines, and parts of it exchanged.
use source_places::{PlaceWalk, first_of, indent, line_of, offset_of, position_of, spliced, width};
use source_types::Position;
use test_rows::RowError::Bad;
use test_rows::{NO_CALL, Row, RowResult, count_of, text_of};

/// The place of a word: `LINE:COLUMN`.
pub fn place_of(word: &[u8]) -> RowResult<Position> {
    let Some((line, column)) = text_of(word)?.split_once(':') else {
        return Err(Bad("a word is to be a place"));
    };
    Ok(Position {
        line: count_of(line.as_bytes())?,
        column: count_of(column.as_bytes())?,
    })
}

// The offset of each place.
fn say_offsets(row: &mut Row<'_>) -> RowResult {
    let text = row.bytes(0)?;
    for word in row.from(1) {
        row.show(&offset_of(text, place_of(word)?))?;
    }
    Ok(())
}

// The place of each offset, by itself and in a walk over all of them.
fn say_positions(row: &mut Row<'_>) -> RowResult {
    let text = row.bytes(0)?;
    let mut walk = PlaceWalk::new(text);
    for word in row.from(1) {
        let offset = count_of(word)?;
        let place = position_of(text, offset);
        if walk.place_of(offset) != place || walk.text() != text {
            return Err(Bad("a walk gives another place"));
        }
        let (line, column) = (place.line, place.column);
        row.say_text(format!(in row.alloc; "{line}:{column}")?.as_str())?;
    }
    Ok(())
}

// A line and its width.
fn say_line(row: &mut Row<'_>) -> RowResult {
    let line = line_of(row.bytes(0)?, row.count(1)?);
    row.say(line)?;
    row.show(&width(line))
}

fn say_spliced(row: &mut Row<'_>) -> RowResult {
    let (start, end) = (row.count(1)?, row.count(2)?);
    let all = spliced(row.alloc, row.bytes(0)?, start, end, row.bytes(3)?)?;
    row.say(&all)
}

/// Makes a call of this library.
pub fn call(name: &str, row: &mut Row<'_>) -> RowResult {
    match name {
        "offsets" => say_offsets(row),
        "positions" => say_positions(row),
        "line" => say_line(row),
        "first" => row.say(first_of(row.bytes(0)?)),
        "indent" => row.show(&indent(row.bytes(0)?)),
        "spliced" => say_spliced(row),
        _ => Err(NO_CALL),
    }
}
