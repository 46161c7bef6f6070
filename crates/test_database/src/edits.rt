//! Edits of a list of blocks, and why one is refused.
use test_rows::RowError::{Bad, Memory};
use test_rows::{Row, RowResult};
use ti_base::{Edit, EditError, Outcome};

/// The edit that begins at a word, and how many words it has.
pub fn edit_at<'a>(row: &Row<'a>, word: usize) -> RowResult<(Edit<'a>, usize)> {
    let at = row.count(word.saturating_add(1))?;
    let third = word.saturating_add(2);
    match row.text(word)? {
        "insert" => {
            let text = row.bytes(third)?;
            Ok((Edit::Insert { at, text }, 3))
        }
        "replace" => {
            let text = row.bytes(third)?;
            Ok((Edit::Replace { at, text }, 3))
        }
        "remove" => Ok((Edit::Remove { at }, 2)),
        "move" => {
            let to = row.count(third)?;
            Ok((Edit::Relocate { from: at, to }, 3))
        }
        _ => Err(Bad("an edit is insert, replace, remove or move")),
    }
}

/// The edits of the words.
pub fn edits_of<'a>(row: &Row<'a>) -> RowResult<Vec<Edit<'a>>> {
    let mut edits = Vec::new(row.alloc);
    let mut at = 0;
    for _ in 0..row.len() {
        if at < row.len() {
            let (edit, count) = edit_at(row, at)?;
            edits.push(edit)?;
            at = at.saturating_add(count);
        }
    }
    Ok(edits)
}

/// Why an edit is refused.
pub fn cause_of(cause: EditError) -> RowResult<&'static str> {
    match cause {
        EditError::Position => Ok("Position"),
        EditError::TooLong => Ok("TooLong"),
        EditError::NotOneBlock => Ok("NotOneBlock"),
        EditError::TooMany => Ok("TooMany"),
        EditError::Memory => Err(Memory),
    }
}

/// What came of each edit of a run: `ok`, or why it is refused.
pub fn say_outcomes(row: &mut Row<'_>, outcomes: &[Outcome]) -> RowResult {
    for outcome in outcomes {
        match *outcome {
            Outcome::Accepted => row.say(b"ok")?,
            Outcome::Refused(cause) => row.say_text(cause_of(cause)?)?,
        }
    }
    Ok(())
}
