//! What is wrong with the items of a block that define user-defined names.
ghost use Rattle.std.specs.Prelude.{◌≡◌, ◌<◌, ◌≤◌, ◌++◌, ◌∷◌, ℕ, List, All, IfOk, OnOk, OnSome, Some, drop, length, map, slice_get};
ghost use Rattle.std.specs.List.{list_any};
ghost use Rattle.ti_source.specs.Reading.{ReadFault};
ghost use Rattle.ti_source.specs.Cutting.{OneBlock};
ghost use Rattle.ti_source.specs.Reading.{fault_of};
ghost use Rattle.user_items.specs.Laws.{is_local_warning};
ghost use Rattle.user_items.specs.Reading.{user_fault_of};
ghost use Rattle.user_compiling.specs.Findings.{AreCodesOf};
ghost use Rattle.user_compiling.specs.inside.Pairs.{code_here, pairs, warning_ordinals};

use std::alloc::{AllocError, Global};
use ti_base::RuledDatabase;
use ti_source::{Local, parse};
use user_items::{UserCode, UserFault, is_user_warning, user_items};

// What is wrong with the item of an ordinal, if the next fault is of that item.
fn code_here(own: &[UserFault], next: usize, ordinal: usize) -> Option<UserCode>
    ensures code { result ≡ code_here ordinal (map user_fault_of (drop next own.now)) }
    ensures within { OnSome result (next < length own.now) }
{
    match own.get(next) {
        Some(fault) if fault.ordinal == ordinal => Some(fault.code),
        _ => None,
    }
}

// Adds the code of a warning; another fault has none.
fn add_code(
    own: &[UserFault],
    local: &Local,
    next: &mut usize,
    codes: &mut Vec<Option<UserCode>>,
) -> Result<(), AllocError>
    requires { next.old ≤ length own.now }
    ensures added { OnOk result ((fs : List ReadFault) → codes.new.items ++ pairs (warning_ordinals fs) (map user_fault_of (drop next.new own.now))
        ≡ codes.old.items ++ pairs (warning_ordinals (fault_of local.now ∷ fs)) (map user_fault_of (drop next.old own.now))) }
    ensures within { next.new ≤ length own.now }
{
    if !is_user_warning(local.code, &local.detail) {
        return Ok(());
    }
    match code_here(own, *next, local.ordinal) {
        Some(code) => {
            codes.push(Some(code))?;
            *next += 1;
            Ok(())
        }
        None => {
            codes.push(None)?;
            Ok(())
        }
    }
}

// For each warning among the faults that reading gave what is wrong with its item, by the faults of
// user-defined items.
fn pair(
    alloc: Global,
    locals: &[Local],
    own: &[UserFault],
) -> Result<Vec<Option<UserCode>>, AllocError>
    ensures { IfOk result (λ codes. codes.items ≡ pairs (warning_ordinals (map fault_of locals.now)) (map user_fault_of own.now)) }
{
    let mut codes = Vec::new(alloc);
    let mut next = 0;
    for local in locals {
        add_code(own, local, &mut next, &mut codes)?;
    }
    Ok(codes)
}

// For each warning of a block that a name is unknown which is user-defined, what is wrong with the
// item that defines it, if something is. No code is given if nothing is wrong with any: the block
// is then not read by the profile again.
fn own_codes(alloc: Global, text: &[u8]) -> Result<Vec<Option<UserCode>>, AllocError>
    requires { OneBlock text.now }
    ensures { IfOk result (λ codes. AreCodesOf text.now codes.items) }
{
    // A law, with no code: the warnings of a block are those of the items that define names.
    user_items::laws::warnings_are_of_defining_items();
    let read = user_items(alloc, text)?;
    if read.faults.is_empty() {
        return Ok(Vec::new(alloc));
    }
    let parsed = parse(alloc, text)?;
    let codes = pair(alloc, &parsed.faults, &read.faults)?;
    Ok(codes)
}

// Whether one of the faults that reading gave is the warning of an unknown name that is user-defined.
fn has_user_warning(locals: &[Local]) -> bool
    ensures { result ≡ list_any is_local_warning (map fault_of locals.now) }
{
    for local in locals {
        if is_user_warning(local.code, &local.detail) {
            return true;
        }
    }
    false
}

/// What is wrong with the items of the block at a position that define names, one code for each
/// warning, or no code if nothing is wrong with any.
///
/// # Errors
/// Out of memory.
pub(crate) fn codes_of(
    alloc: Global,
    database: &RuledDatabase,
    at: usize,
) -> Result<Vec<Option<UserCode>>, AllocError>
    requires within { at < length database.now.texts }
    requires one { All OneBlock database.now.texts }
    ensures { IfOk result (λ codes. (text : List ℕ) → slice_get database.now.texts at ≡ Some text → AreCodesOf text codes.items) }
{
    // A law, with no code: a block without such a warning has nothing of user-defined names.
    user_items::laws::blocks_without_warnings_have_uses_alone();
    if has_user_warning(database.local_faults(at)) {
        let codes = own_codes(alloc, database.text(at))?;
        return Ok(codes);
    }
    // Most blocks have no such warning; these are not read again.
    Ok(Vec::new(alloc))
}
