//! The rows of all directories, in the order of their names.
ghost use Rattle.std.specs.Prelude.{◌≡◌, ◌++◌, [], IfOk, OnOk, map, slice_get};
ghost use Rattle.everyday_toe.specs.Ordering.{IsOrder, Sorts, before_others, key_of, numbered_from, numbers_of, picked};
ghost use Rattle.everyday_toe.specs.Placed.{placed_of};

use crate::seeing::Row;
use std::alloc::{AllocError, Global};

/// A row, and the number of its directory, counted from 0.
#[derive(Clone, Copy)]
pub struct Placed<'a> {
    pub directory: usize,
    pub row: &'a Row,
}

// The keys of rows: the name of each, and its number among all.
fn keys<'a>(alloc: Global, rows: &[Placed<'a>]) -> Result<Vec<(&'a [u8], usize)>, AllocError>
    ensures { IfOk result (λ keys. map key_of keys.items ≡ numbered_from 0 (map placed_of rows.now)) }
{
    let mut keys = Vec::new(alloc);
    for (number, placed) in rows.iter().enumerate() {
        keys.push((placed.row.name.as_slice(), number))?;
    }
    Ok(keys)
}

// The same, in order.
fn ordered<'a>(alloc: Global, rows: &[Placed<'a>]) -> Result<Vec<(&'a [u8], usize)>, AllocError>
    ensures { IfOk result (λ keys. IsOrder (map placed_of rows.now) keys.items) }
{
    let mut keys = keys(alloc, rows)?;
    keys.sort()?;
    Ok(keys)
}

// Adds the row of a number to others, if there is one.
fn push_at<'a>(
    found: &mut Vec<Placed<'a>>,
    rows: &[Placed<'a>],
    number: usize,
) -> Result<(), AllocError>
    ensures { OnOk result (found.new.items ≡ found.old.items ++ before_others (slice_get rows.now number) []) }
{
    match rows.get(number) {
        Some(placed) => {
            found.push(*placed)?;
            Ok(())
        }
        None => Ok(()),
    }
}

// The rows of these keys.
fn picked<'a>(
    alloc: Global,
    rows: &[Placed<'a>],
    keys: &[(&'a [u8], usize)],
) -> Result<Vec<Placed<'a>>, AllocError>
    ensures { IfOk result (λ found. found.items ≡ picked rows.now (numbers_of keys.now)) }
{
    let mut found = Vec::new(alloc);
    for key in keys {
        push_at(&mut found, rows, key.1)?;
    }
    Ok(found)
}

/// These rows in the order of their names; those of one name in the order in which they are.
///
/// # Errors
/// `AllocError` if memory ran out.
pub(crate) fn sorted<'a>(alloc: Global, rows: &[Placed<'a>]) -> Result<Vec<Placed<'a>>, AllocError>
    ensures { IfOk result (λ sorted. Sorts (map placed_of rows.now) (map placed_of sorted.items)) }
{
    let keys = ordered(alloc, rows)?;
    let found = picked(alloc, rows, keys.as_slice())?;
    Ok(found)
}
