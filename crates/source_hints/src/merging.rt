//! Hints of one text in the order in which they begin.
ghost use Rattle.std.specs.Prelude.{◌≡◌, ◌++◌, ◌≤◌, IfOk, OnOk, drop, length};
ghost use Rattle.source_hints.specs.Merging as spec;
ghost use Rattle.source_hints.specs.Merging.{following, leading};

use source_block_hints::Hint;
use std::alloc::{AllocError, Global};

// Adds the hints that begin before an offset, of those from a place on, and gives the place of the
// next one.
fn push_leading(
    all: &mut Vec<Hint>,
    hints: &[Hint],
    from: usize,
    start: usize,
) -> Result<usize, AllocError>
    requires { from ≤ length hints.now }
    ensures pushed { OnOk result (all.new.items ≡ all.old.items ++ leading start (drop from hints.now)) }
    ensures next { IfOk result (λ next. drop next hints.now ≡ following start (drop from hints.now)) }
    ensures within { IfOk result (λ next. next ≤ length hints.now) }
{
    for at in from..hints.len() {
        let hint = hints[at];
        if hint.start >= start {
            return Ok(at);
        }
        all.push(hint)?;
    }
    Ok(hints.len())
}

/// The hints of two lists in the order in which they begin: each of the first list comes after
/// those of the second that begin before it.
///
/// # Errors
/// Out of memory.
pub fn merged(alloc: Global, hints: &[Hint], others: &[Hint]) -> Result<Vec<Hint>, AllocError>
    ensures { IfOk result (λ all. all.items ≡ spec.merged hints.now others.now) }
{
    let mut all = Vec::new(alloc);
    let mut from = 0;
    for at in 0..hints.len() {
        let hint = hints[at];
        from = push_leading(&mut all, others, from, hint.start)?;
        all.push(hint)?;
    }
    all.extend_from_slice(&others[from..])?;
    Ok(all)
}
