//! The names of a block, each once.
ghost use Rattle.std.specs.Prelude.{◌≡◌, ◌++◌, ◌∷◌, ◌||◌, [], List, ℕ, if◌then◌else◌, map, IfOk, OnOk};
ghost use Rattle.std.specs.Str.{bytes_eq};
ghost use Rattle.std.specs.Rc.{rc_slice_items};
ghost use Rattle.base_meaning.specs.Faults.{distinct};
ghost use Rattle.ti_base.specs.inside.Names.{is_seen};

use std::alloc::{AllocError, Global};
use std::collections::BTreeSet;
use std::rc::RcSlice;

// Adds a name, unless it is among those seen, and puts it among these.
fn add_unseen<'a>(
    all: &mut Vec<&'a RcSlice<u8>>,
    seen: &mut BTreeSet<&'a [u8]>,
    name: &'a RcSlice<u8>,
) -> Result<(), AllocError>
    ensures seen { OnOk result ((other : List ℕ) → is_seen seen.new other
        ≡ (bytes_eq other (rc_slice_items name.now) || is_seen seen.old other)) }
    ensures all { OnOk result (map (λ name. rc_slice_items name.now) all.new.items
        ≡ map (λ name. rc_slice_items name.now) all.old.items
        ++ (if is_seen seen.old (rc_slice_items name.now) then [] else rc_slice_items name.now ∷ [])) }
{
    if seen.insert(name.as_slice())? {
        all.push(name)?;
    }
    Ok(())
}

/// Each of the names once, in the order of their first places. The time is linear, up to a
/// logarithm, in their bytes.
///
/// # Errors
/// `AllocError` if memory ran out.
pub fn distinct_names<'a>(
    alloc: Global,
    names: &'a [RcSlice<u8>],
) -> Result<Vec<&'a RcSlice<u8>>, AllocError>
    ensures { IfOk result (λ all. map (λ name. rc_slice_items name.now) all.items ≡ distinct (map rc_slice_items names.now)) }
{
    let mut all = Vec::new(alloc);
    let mut seen = BTreeSet::new(alloc);
    for name in names {
        add_unseen(&mut all, &mut seen, name)?;
    }
    Ok(all)
}
