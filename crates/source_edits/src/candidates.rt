//! The names that an item may have in place of its own.
ghost use Rattle.std.specs.Prelude.{◌≡◌, ◌++◌, ◌<◌, [], IfOk, OnOk, length, map, slice_index_or};
ghost use Rattle.ti_caps.specs.Tables.{count_of, names};
ghost use Rattle.source_edits.specs.Candidates as spec;

use std::alloc::{AllocError, Global};
use ti_caps::{Cap, Kind, count, name};

// The name of the capability at a place of the list of its kind.
fn name_at(kind: Kind, index: usize) -> &'static [u8]
    requires { index < count_of kind }
    ensures { result.now ≡ slice_index_or (names kind) index [] }
{
    match Cap::at(kind, index) {
        Some(capability) => name(capability).as_bytes(),
        None => unreachable!(),
    }
}

// Adds the names of the capabilities of a kind.
fn push_names<'a>(all: &mut Vec<&'a [u8]>, kind: Kind) -> Result<(), AllocError>
    ensures { OnOk result (map (λ name. name.now) all.new.items ≡ map (λ name. name.now) all.old.items ++ names kind) }
{
    for index in 0..count(kind) {
        all.push(name_at(kind, index))?;
    }
    Ok(())
}

// The names of the capabilities of a kind.
fn names_of<'a>(alloc: Global, kind: Kind) -> Result<Vec<&'a [u8]>, AllocError>
    ensures { IfOk result (λ all. map (λ name. name.now) all.items ≡ names kind) }
{
    let mut all = Vec::new(alloc);
    push_names(&mut all, kind)?;
    Ok(all)
}

// The names of all capabilities.
fn all_names<'a>(alloc: Global) -> Result<Vec<&'a [u8]>, AllocError>
    ensures { IfOk result (λ all. map (λ name. name.now) all.items ≡ spec.all_names) }
{
    let mut all = Vec::new(alloc);
    push_names(&mut all, Kind::Flag)?;
    push_names(&mut all, Kind::Number)?;
    push_names(&mut all, Kind::Text)?;
    Ok(all)
}

/// The names that an item may have if this is after its name.
///
/// # Errors
/// Out of memory.
pub(crate) fn names_for<'a>(
    alloc: Global,
    rest: &[(u8, usize)],
) -> Result<Vec<&'a [u8]>, AllocError>
    ensures { IfOk result (λ all. map (λ name. name.now) all.items ≡ spec.names_for rest.now) }
{
    let Some(first) = rest.first() else {
        return names_of(alloc, Kind::Flag);
    };
    match first.0 {
        b'#' => names_of(alloc, Kind::Number),
        b'=' => names_of(alloc, Kind::Text),
        _ => all_names(alloc),
    }
}
