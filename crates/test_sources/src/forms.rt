//! Calls of `everyday_forms`: things as they are told in each form, and how many there are.
use crate::places::place_of;
use everyday_forms::{Form, Told, arrays_are_json, has_bad, push_summary, push_told, whole};
use source_types::{Range, Severity};
use test_rows::RowError::Bad;
use test_rows::{NO_CALL, Row, RowResult, count_of, text_of};

fn form_of(word: &str) -> RowResult<Form> {
    match word {
        "gcc" => Ok(Form::Gcc { color: false }),
        "colors" => Ok(Form::Gcc { color: true }),
        "lines" => Ok(Form::Lines),
        "github" => Ok(Form::Github),
        "json" => Ok(Form::Json),
        _ => Err(Bad("a word is to be a form")),
    }
}

fn severity_of(word: &[u8]) -> RowResult<Severity> {
    match text_of(word)? {
        "error" => Ok(Severity::Error),
        "warning" => Ok(Severity::Warning),
        "information" => Ok(Severity::Information),
        "hint" => Ok(Severity::Hint),
        _ => Err(Bad("a word is to be a severity")),
    }
}

// The thing that its words say: its file, the places where it begins and ends, its severity, its
// code, its title, what is said beside it, its message, its line, and the offset and the size there.
fn told_of<'a>(words: &'a [Vec<u8>]) -> RowResult<Told<'a>> {
    let [
        file,
        start,
        end,
        severity,
        code,
        title,
        sentence,
        message,
        line,
        offset,
        size,
    ] = words
    else {
        return Err(Bad("a thing has eleven words"));
    };
    Ok(Told {
        file: text_of(file)?,
        range: Range {
            start: place_of(start)?,
            end: place_of(end)?,
        },
        severity: severity_of(severity)?,
        code: text_of(code)?,
        title: text_of(title)?,
        sentence: sentence.as_slice(),
        message: text_of(message)?,
        line: line.as_slice(),
        offset: count_of(offset)?,
        size: count_of(size)?,
    })
}

// What is told in a form.
fn say_all(row: &mut Row<'_>) -> RowResult {
    let form = form_of(row.text(0)?)?;
    let mut out = Vec::new(row.alloc);
    for words in row.from(1).chunks(11) {
        push_told(row.alloc, &mut out, form, &told_of(words)?)?;
    }
    row.say(&whole(row.alloc, form, out)?)
}

// The severities of the words after the first.
fn severities_of(row: &Row<'_>) -> RowResult<Vec<Severity>> {
    let mut severities = Vec::new(row.alloc);
    for word in row.from(1) {
        severities.push(severity_of(word)?)?;
    }
    Ok(severities)
}

fn say_counts(row: &mut Row<'_>) -> RowResult {
    let mut line = Vec::new(row.alloc);
    push_summary(row.alloc, &mut line, &severities_of(row)?, row.count(0)?)?;
    row.say(&line)
}

// Whether one of them is bad, if warnings are bad or not.
fn say_bad(row: &mut Row<'_>) -> RowResult {
    let strict = match row.text(0)? {
        "strict" => true,
        "lenient" => false,
        _ => return Err(Bad("a word is to be strict or lenient")),
    };
    row.say_yes(has_bad(strict, &severities_of(row)?))
}

/// Makes a call of this library.
pub fn call(name: &str, row: &mut Row<'_>) -> RowResult {
    arrays_are_json();
    match name {
        "told" => say_all(row),
        "counts" => say_counts(row),
        "bad" => say_bad(row),
        _ => Err(NO_CALL),
    }
}
