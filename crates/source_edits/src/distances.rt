//! The names that are nearest to one that nothing has.
ghost use Rattle.std.specs.Prelude.{◌≡◌, IfOk, map};
ghost use Rattle.source_edits.specs.Nearest as spec;
ghost use Rattle.source_edits.specs.Nearest.{can_be, distance, is_at, names_at};

use std::alloc::{AllocError, Global};
use strsim::generic_levenshtein;
use ti_text::limits::NAMES_MAX;

// The most names that are offered for one.
const OFFERED_MAX: usize = 3;

// How many edits lead from one name to the other.
#[tactic(auto, unfolding(crate::specs::Nearest::distance))]
fn distance(alloc: Global, name: &[u8], other: &[u8]) -> Result<usize, AllocError>
    ensures { IfOk result (λ edits. edits ≡ distance name.now other.now) }
{
    generic_levenshtein(alloc, name, other)
}

// Whether another name can be so many edits away from one that has more bytes than that.
fn can_be(edits: usize, name: &[u8], other: &[u8]) -> bool
    ensures { result ≡ can_be edits name.now other.now }
{
    edits < name.len() && name.len() <= NAMES_MAX && name.len().abs_diff(other.len()) <= edits
}

// Whether another name is so many edits away.
fn is_at(alloc: Global, edits: usize, name: &[u8], other: &[u8]) -> Result<bool, AllocError>
    ensures { IfOk result (λ is. is ≡ is_at edits name.now other.now) }
{
    if !can_be(edits, name, other) {
        return Ok(false);
    }
    Ok(distance(alloc, name, other)? == edits)
}

// Those of some names that are so many edits away.
fn names_at<'a>(
    alloc: Global,
    edits: usize,
    name: &[u8],
    others: &[&'a [u8]],
) -> Result<Vec<&'a [u8]>, AllocError>
    ensures { IfOk result (λ found. map (λ other. other.now) found.items ≡ names_at edits name.now (map (λ other. other.now) others.now)) }
{
    let mut found = Vec::new(alloc);
    for other in others {
        if is_at(alloc, edits, name, other)? {
            found.push(*other)?;
        }
    }
    Ok(found)
}

// Those that are one edit away, or if there are none those that are two away.
fn near<'a>(alloc: Global, name: &[u8], others: &[&'a [u8]]) -> Result<Vec<&'a [u8]>, AllocError>
    ensures { IfOk result (λ found. map (λ other. other.now) found.items ≡ spec.near name.now (map (λ other. other.now) others.now)) }
{
    let found = names_at(alloc, 1, name, others)?;
    if !found.is_empty() {
        return Ok(found);
    }
    names_at(alloc, 2, name, others)
}

/// Those of some names that are nearest to one that is not among them: the first three of those
/// that one edit leads to, or if there are none of those that two edits lead to. An edit inserts,
/// deletes or replaces a byte, and fewer of them lead to the name than it has bytes.
///
/// # Errors
/// Out of memory.
pub fn nearest<'a>(
    alloc: Global,
    name: &[u8],
    others: &[&'a [u8]],
) -> Result<Vec<&'a [u8]>, AllocError>
    ensures { IfOk result (λ found. map (λ other. other.now) found.items ≡ spec.nearest name.now (map (λ other. other.now) others.now)) }
{
    let mut found = near(alloc, name, others)?;
    found.truncate(OFFERED_MAX);
    Ok(found)
}
