//! A walk over two tables, each in the order of the entry, and two tables made one by it.
ghost use Rattle.std.specs.Prelude.{◌≡◌, ◌++◌, ◌∷◌, [], IfOk, OnOk, MatchOption};
ghost use Rattle.std.specs.Option.{option_or};
ghost use Rattle.ti_caps.specs.Tables.{Capability};
ghost use Rattle.ti_layout.specs.inside.Merging.{IsPastBoth, TurnIs};
ghost use Rattle.ti_layout.specs.Values.{contents, content_of, entries_of, IsSorted};

use crate::values::{Value, rank};
use std::alloc::{AllocError, Global};
use std::cmp::Ordering;
use ti_caps::Cap;

// Whose value comes next in a walk over two tables.
enum Turn {
    // The value of the first table.
    First,
    // The value of the second table.
    Second,
    // Both values, which have the same capability.
    Both,
}

// Whose value comes next when these numbers of values of the first and of the second are passed;
// `None` if nothing is left of either.
fn whose_turn(
    first: &[(Cap, Value)],
    at_first: usize,
    second: &[(Cap, Value)],
    at_second: usize,
) -> Option<Turn>
    ensures { MatchOption result
        (IsPastBoth (entries_of first.now) at_first (entries_of second.now) at_second)
        (TurnIs (entries_of first.now) at_first (entries_of second.now) at_second) }
{
    match (first.get(at_first), second.get(at_second)) {
        (None, None) => None,
        (Some(_), None) => Some(Turn::First),
        (None, Some(_)) => Some(Turn::Second),
        (Some(of_first), Some(of_second)) => {
            Some(match rank(of_first.0).cmp(&rank(of_second.0)) {
                Ordering::Less => Turn::First,
                Ordering::Equal => Turn::Both,
                Ordering::Greater => Turn::Second,
            })
        }
    }
}

/// A value once more. Its string is shared.
pub(crate) fn copy_of(value: &Value) -> Result<Value, AllocError>
    ensures { IfOk result (λ copy. content_of copy ≡ content_of value.now) }
{
    Ok(match value {
        Value::True => Value::True,
        Value::Number(number) => Value::Number(*number),
        Value::Text(text) => Value::Text(text.clone()?),
        Value::Cancelled => Value::Cancelled,
    })
}

/// Adds a value once more.
pub(crate) fn push_copy(
    merged: &mut Vec<(Cap, Value)>,
    entry: &(Cap, Value),
) -> Result<(), AllocError>
    ensures { OnOk result (entries_of merged.new.items ≡ entries_of merged.old.items ++ (entry.now.0, content_of entry.now.1) ∷ []) }
{
    merged.push((entry.0, copy_of(&entry.1)?))?;
    Ok(())
}

/// A table with the values of the first, and those of the second for the capabilities of which the
/// first has nothing.
///
/// # Errors
/// `AllocError` if memory ran out.
pub fn merge(
    alloc: Global,
    first: &[(Cap, Value)],
    second: &[(Cap, Value)],
) -> Result<Vec<(Cap, Value)>, AllocError>
    requires first { IsSorted (entries_of first.now) }
    requires second { IsSorted (entries_of second.now) }
    ensures sorted { IfOk result (λ merged. IsSorted (entries_of merged.items)) }
    ensures merges { IfOk result (λ merged. (c : Capability) → contents (entries_of merged.items) c
        ≡ option_or (contents (entries_of first.now) c) (contents (entries_of second.now) c)) }
{
    let mut merged = Vec::with_capacity(alloc, first.len().saturating_add(second.len()))?;
    let mut at_first = 0;
    let mut at_second = 0;
    while let Some(turn) = whose_turn(first, at_first, second, at_second) {
        match turn {
            Turn::First => {
                push_copy(&mut merged, &first[at_first])?;
                at_first += 1;
            }
            Turn::Second => {
                push_copy(&mut merged, &second[at_second])?;
                at_second += 1;
            }
            Turn::Both => {
                push_copy(&mut merged, &first[at_first])?;
                at_first += 1;
                at_second += 1;
            }
        }
    }
    Ok(merged)
}
