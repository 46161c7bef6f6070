//! The user-defined names of a kind.
ghost use Rattle.std.specs.Prelude.{◌≡◌, map, IfOk};
ghost use Rattle.user_extension.specs.View.{read_rows};
ghost use Rattle.user_listing.specs.Entries.{extended_seen, all_seen};
ghost use Rattle.user_listing.specs.Names.{names_among, names_of_both, names_of_kind};

use crate::entry::ExtendedEntry;
use crate::kinds::is_of_kind;
use std::alloc::{AllocError, Global};
use std::cmp::Ordering;
use ti_caps::Kind;
use user_extension::Extension;

// The names of the rows that have a value of a kind, in the order of the rows.
fn names_of_kind<'a>(
    alloc: Global,
    kind: Kind,
    extension: &Extension<'a>,
) -> Result<Vec<&'a [u8]>, AllocError>
    ensures { IfOk result (λ names. map (λ name. name.now) names.items ≡ names_of_kind kind (read_rows extension.now)) }
{
    let mut names = Vec::new(alloc);
    for place in 0..extension.len() {
        if is_of_kind(kind, extension.value(place)) {
            names.push(extension.name(place))?;
        }
    }
    Ok(names)
}

// The names of two lists in the order of their bytes, each once.
fn names_of_both<'a>(
    alloc: Global,
    one: &[&'a [u8]],
    other: &[&'a [u8]],
) -> Result<Vec<&'a [u8]>, AllocError>
    ensures { IfOk result (λ names. map (λ name. name.now) names.items
        ≡ names_of_both (map (λ name. name.now) one.now) (map (λ name. name.now) other.now)) }
{
    let mut names = Vec::new(alloc);
    let mut left = 0;
    let mut right = 0;
    while left < one.len() && right < other.len() {
        match one[left].cmp(other[right]) {
            Ordering::Less => {
                names.push(one[left])?;
                left += 1;
            }
            Ordering::Equal => {
                names.push(one[left])?;
                left += 1;
                right += 1;
            }
            Ordering::Greater => {
                names.push(other[right])?;
                right += 1;
            }
        }
    }
    names.extend_from_slice(&one[left..])?;
    names.extend_from_slice(&other[right..])?;
    Ok(names)
}

/// The names of a kind that an entry or one of the others has, in the order of their bytes.
pub fn names_among<'a>(
    alloc: Global,
    kind: Kind,
    entry: &ExtendedEntry<'a>,
    others: &[ExtendedEntry<'a>],
) -> Result<Vec<&'a [u8]>, AllocError>
    ensures { IfOk result (λ names. map (λ name. name.now) names.items ≡ names_among kind (extended_seen entry.now) (all_seen others.now)) }
{
    let mut names = names_of_kind(alloc, kind, &entry.extension)?;
    for other in others {
        let more = names_of_kind(alloc, kind, &other.extension)?;
        names = names_of_both(alloc, &names, &more)?;
    }
    Ok(names)
}
