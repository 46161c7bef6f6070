//! Calls of `ti_caps` and `ti_names`: the names, the variables and the codes of capabilities.
use test_rows::RowError::Bad;
use test_rows::values::NO_CAPABILITY;
use test_rows::{NO_CALL, Row, RowResult};
use ti_caps::{Cap, Kind, by_name, count, find, name};
use ti_names::{by_code, by_variable, code, variable};

fn word_of_kind(kind: Kind) -> &'static str {
    match kind {
        Kind::Flag => "boolean",
        Kind::Number => "number",
        Kind::Text => "string",
    }
}

// The kind and the place of the capability of a name, if the one at that place is the same.
fn say_found(row: &mut Row<'_>) -> RowResult {
    let Some(cap) = find(row.bytes(0)?) else {
        return row.say(b"none");
    };
    if Cap::at(cap.kind(), cap.index()) != Some(cap) {
        return Err(Bad("another capability is at its place"));
    }
    row.say_text(word_of_kind(cap.kind()))?;
    row.show(&cap.index())
}

// The name of a capability, or that there is none.
fn say_name(row: &mut Row<'_>, cap: Option<Cap>) -> RowResult {
    row.say_or_none(cap.map(|cap| name(cap).as_bytes()))
}

// How many capabilities of a kind are found by their names.
fn found_of_kind(kind: Kind) -> usize {
    let mut found: usize = 0;
    for index in 0..count(kind) {
        if let Some(cap) = Cap::at(kind, index)
            && find(name(cap).as_bytes()) == Some(cap)
        {
            found = found.saturating_add(1);
        }
    }
    found
}

// The laws of names, which are proved and have no code.
fn hold_laws() {
    ti_caps::laws::names_are_distinct();
    ti_caps::laws::every_name_is_found();
    ti_caps::laws::each_kind_is_in_order();
    ti_names::laws::variables_are_distinct();
    ti_names::laws::every_variable_is_found();
    ti_names::laws::every_code_is_found();
}

/// Makes a call of these libraries.
pub fn call(call: &str, row: &mut Row<'_>) -> RowResult {
    match call {
        "find" => say_found(row),
        "at" => say_name(row, Cap::at(row.kind(0)?, row.count(1)?)),
        "by_name" => say_name(row, by_name(row.kind(0)?, row.count(1)?)),
        "count" => row.show(&count(row.kind(0)?)),
        "found" => {
            hold_laws();
            row.show(&found_of_kind(row.kind(0)?))
        }
        "variable" => match find(row.bytes(0)?) {
            Some(cap) => row.say_text(variable(cap)),
            None => Err(NO_CAPABILITY),
        },
        "by_variable" => say_name(row, by_variable(row.bytes(0)?)),
        "code" => match find(row.bytes(0)?) {
            Some(cap) => row.say_text(code(cap)),
            None => Err(NO_CAPABILITY),
        },
        "by_code" => say_name(row, by_code(row.kind(0)?, row.bytes(1)?)),
        _ => Err(NO_CALL),
    }
}
