//! Which capability an item says, and whether an item before it says the same.
ghost use Rattle.std.specs.Prelude.{◌≡◌, ◌++◌, OnOk, ℕ, option_to_list};
ghost use Rattle.ti_source.specs.Stating.{claim_seen, statement_seen};
ghost use Rattle.source_block_hints.specs.Mentions as spec;

use std::alloc::AllocError;
use ti_caps::{Cap, FLAG_COUNT, Kind, NUMBER_COUNT, find};
use ti_source::{Claim, Statement, statement_of};

// Whether a claim can be of a capability of this kind.
fn fits(claim: &Claim<'_>, kind: Kind) -> bool
    ensures { result ≡ spec.fits (claim_seen claim.now) kind }
{
    match (claim, kind) {
        (Claim::Flag, Kind::Flag) => true,
        (Claim::Number(_), Kind::Number) => true,
        (Claim::Text(_), Kind::Text) => true,
        (Claim::Cancel, _) => true,
        _ => false,
    }
}

/// The capability that a statement is of: that of its name, if the claim fits it.
pub(crate) fn mention_of(statement: &Statement<'_>) -> Option<Cap>
    ensures { result ≡ spec.mention_of (statement_seen statement.now) }
{
    let cap = find(statement.name)?;
    if fits(&statement.claim, cap.kind()) {
        Some(cap)
    } else {
        None
    }
}

/// The capability that the text of an item says.
pub fn mention_in(text: &[u8]) -> Option<Cap>
    ensures { result ≡ spec.mention_in text.now }
{
    let statement = statement_of(text)?;
    mention_of(&statement)
}

// The number of a capability among those of all kinds.
fn number_of(cap: Cap) -> usize
    ensures { result ≡ spec.number_of cap }
{
    match cap.kind() {
        Kind::Flag => cap.index(),
        Kind::Number => FLAG_COUNT + cap.index(),
        Kind::Text => FLAG_COUNT + NUMBER_COUNT + cap.index(),
    }
}

/// The number of the capability that the text of an item says: booleans first, then numbers, then
/// strings.
pub fn number_said(text: &[u8]) -> Option<usize>
    ensures { result ≡ spec.number_said text.now }
{
    match mention_in(text) {
        Some(cap) => Some(number_of(cap)),
        None => None,
    }
}

// Whether a number is in a list.
fn has(numbers: &[usize], number: usize) -> bool
    ensures { result ≡ spec.has number numbers.now }
{
    numbers.iter().any(|other| *other == number)
}

/// Whether a number, if there is one, is among these.
pub fn is_among(numbers: &[usize], number: Option<usize>) -> bool
    ensures { result ≡ spec.is_among numbers.now number }
{
    match number {
        Some(number) => has(numbers, number),
        None => false,
    }
}

/// Adds a number, if there is one and it is not there: so the list stays short in a long block.
///
/// # Errors
/// Out of memory.
pub fn note(numbers: &mut Vec<usize>, number: Option<usize>) -> Result<(), AllocError>
    ensures { OnOk result ((n : ℕ) → spec.has n numbers.new.items ≡ spec.has n (numbers.old.items ++ option_to_list number)) }
{
    let Some(number) = number else {
        return Ok(());
    };
    if has(numbers, number) {
        return Ok(());
    }
    numbers.push(number)?;
    Ok(())
}
