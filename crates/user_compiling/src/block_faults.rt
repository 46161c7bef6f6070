//! The faults of a block whose user-defined capabilities are kept.
ghost use Rattle.std.specs.Prelude.{◌≡◌, ◌<◌, ◌+◌, ◌^◌, ◌++◌, ◌∷◌, ℕ, List, All, IfOk, OnOk, length, map, slice_get, Some, option_map, take, drop, ◌≤◌, if◌then◌else◌};
ghost use Rattle.std.specs.Rc.{rc_slice_items};
ghost use Rattle.ti_source.specs.Parsing.{reading_of_text};
ghost use Rattle.base_meaning.specs.Readings.{reading_by, readings_by};
ghost use Rattle.base_meaning.specs.Compiled.{EntryState, oversized, state_of};
ghost use Rattle.base_meaning.specs.Faults.{block_faults, entry_faults, fault_seen as profile_fault_seen};
ghost use Rattle.user_compiling.specs.Findings.{IsFindingBy, is_over_limit};
ghost use Rattle.base_meaning.specs.Usable.{IsPlaced};
ghost use Rattle.user_compiling.specs.Report.{IsExtendedPlaced};
ghost use Rattle.user_compiling.specs.Faults as spec;
ghost use Rattle.user_compiling.specs.Faults.{extended_block_faults, fault_seen, in_place, is_user_warning, of_profile};
ghost use Rattle.base_meaning.specs.Faults.{SourceFault};
ghost use Rattle.user_compiling.specs.inside.Pairs.{replaced, head_code, front_faults};

use crate::fault::ExtendedFault;
use crate::finding::Finding;
use base_meaning::Fault;
use std::alloc::AllocError;
use std::rc::RcSlice;
use ti_base::RuledDatabase;
use ti_source::Code;
use user_items::UserCode;

// Whether a fault of the profile is the warning of an unknown name that is user-defined.
fn is_user_warning(fault: &Fault) -> bool
    ensures { result ≡ is_user_warning (profile_fault_seen fault.now) }
{
    user_items::is_user_warning(fault.code, &fault.detail)
}

// A copy of a detail, which is shared.
fn copy_detail(detail: &Option<RcSlice<u8>>) -> Result<Option<RcSlice<u8>>, AllocError>
    ensures { IfOk result (λ copy. option_map rc_slice_items copy ≡ option_map rc_slice_items detail.now) }
{
    match detail {
        Some(name) => Ok(Some(name.clone()?)),
        None => Ok(None),
    }
}

// A fault with this code at the place of another, and with its detail.
fn with_code(fault: &Fault, code: Code) -> Result<Fault, AllocError>
    ensures { IfOk result (λ copy. profile_fault_seen copy ≡ spec.with_code (profile_fault_seen fault.now) code) }
{
    Ok(Fault {
        block: fault.block,
        line: fault.line,
        code,
        detail: copy_detail(&fault.detail)?,
    })
}

// Adds W5 at the place of a fault that has a detail.
fn push_bad(fault: &Fault, faults: &mut Vec<ExtendedFault>) -> Result<(), AllocError>
    ensures { OnOk result (map fault_seen faults.new.items ≡ map fault_seen faults.old.items
        ++ spec.bad_at (profile_fault_seen fault.now) (option_map rc_slice_items fault.now.detail)) }
{
    if let Some(name) = &fault.detail {
        faults.push(ExtendedFault::BadUserDefined {
            block: fault.block,
            line: fault.line,
            name: name.clone()?,
        })?;
    }
    Ok(())
}

// Adds what comes in the place of a warning.
fn push_in_place(
    fault: &Fault,
    code: Option<UserCode>,
    faults: &mut Vec<ExtendedFault>,
) -> Result<(), AllocError>
    ensures { OnOk result (map fault_seen faults.new.items ≡ map fault_seen faults.old.items ++ in_place (profile_fault_seen fault.now) code) }
{
    match code {
        None => Ok(()),
        Some(UserCode::UnknownEscape) => {
            let odd = with_code(fault, Code::UnknownEscape)?;
            faults.push(ExtendedFault::Profile(odd))?;
            Ok(())
        }
        Some(UserCode::BadUserDefined) => push_bad(fault, faults),
    }
}

// The code at a place, none after the last.
fn code_at(codes: &[Option<UserCode>], at: usize) -> Option<UserCode>
    ensures { result ≡ head_code (drop at codes.now) }
{
    match codes.get(at) {
        Some(code) => *code,
        None => None,
    }
}

// Adds a fault of the profile, or what comes in the place of a warning by the next code.
fn replace_one(
    fault: &Fault,
    codes: &[Option<UserCode>],
    next: &mut usize,
    faults: &mut Vec<ExtendedFault>,
) -> Result<(), AllocError>
    requires { next.old < 2 ^ 63 }
    ensures added { OnOk result ((fs : List SourceFault) → map fault_seen faults.new.items ++ replaced fs (drop next.new codes.now)
        ≡ map fault_seen faults.old.items ++ replaced (profile_fault_seen fault.now ∷ fs) (drop next.old codes.now)) }
    ensures few { next.new ≤ next.old + 1 }
{
    if is_user_warning(fault) {
        push_in_place(fault, code_at(codes, *next), faults)?;
        *next += 1;
        return Ok(());
    }
    faults.push(ExtendedFault::Profile(with_code(fault, fault.code)?))?;
    Ok(())
}

// Adds the faults of the profile, with what comes in the place of each warning.
fn replace(
    profile: &[Fault],
    codes: &[Option<UserCode>],
    faults: &mut Vec<ExtendedFault>,
) -> Result<(), AllocError>
    ensures { OnOk result (map fault_seen faults.new.items ≡ map fault_seen faults.old.items ++ replaced (map profile_fault_seen profile.now) codes.now) }
{
    let mut next = 0;
    for fault in profile {
        replace_one(fault, codes, &mut next, faults)?;
    }
    Ok(())
}

// Whether the entry of the block at a position is over its limit in the profile.
fn is_oversized(database: &RuledDatabase, at: usize) -> bool
    requires { at < length database.now.texts }
    ensures { (text : List ℕ) → slice_get database.now.texts at ≡ Some text
        → length (entry_faults at (reading_of_text text).names (state_of (readings_by database.now.rule database.now.texts) (reading_by database.now.rule text))) ≡ (if result then 1 else 0) }
{
    match database.compiled(at) {
        Some(_) => false,
        None => database.values(at).is_some(),
    }
}

// How many of the faults that the profile has of a block come before that of its entry.
fn front_len(database: &RuledDatabase, at: usize, profile: &[Fault]) -> usize
    requires within { at < length database.now.texts }
    requires profile { (text : List ℕ) → slice_get database.now.texts at ≡ Some text
        → map profile_fault_seen profile.now ≡ block_faults (readings_by database.now.rule database.now.texts) at (reading_by database.now.rule text) }
    ensures within { result ≤ length profile.now }
    ensures front { (text : List ℕ) → slice_get database.now.texts at ≡ Some text
        → map profile_fault_seen (take result profile.now) ≡ front_faults (readings_by database.now.rule database.now.texts) at (reading_of_text text) }
{
    if is_oversized(database, at) {
        profile.len().saturating_sub(1)
    } else {
        profile.len()
    }
}

// The first of names, if there is one.
fn first_name(names: &[RcSlice<u8>]) -> Result<Option<RcSlice<u8>>, AllocError>
    ensures { IfOk result (λ name. option_map rc_slice_items name ≡ slice_get (map rc_slice_items names.now) 0) }
{
    match names.first() {
        Some(name) => Ok(Some(name.clone()?)),
        None => Ok(None),
    }
}

// Adds the fault of an entry that is too large.
fn push_too_large(
    database: &RuledDatabase,
    at: usize,
    faults: &mut Vec<ExtendedFault>,
) -> Result<(), AllocError>
    requires { at < length database.now.texts }
    ensures { OnOk result ((text : List ℕ) → slice_get database.now.texts at ≡ Some text
        → map fault_seen faults.new.items ≡ map fault_seen faults.old.items ++ map of_profile (entry_faults at (reading_of_text text).names oversized)) }
{
    let detail = first_name(database.names(at))?;
    faults.push(ExtendedFault::Profile(Fault {
        block: at,
        line: 1,
        code: Code::TooLarge,
        detail,
    }))?;
    Ok(())
}

// Adds the fault of the entry of a block, if that is too large.
fn add_entry_fault(
    database: &RuledDatabase,
    at: usize,
    too_large: bool,
    faults: &mut Vec<ExtendedFault>,
) -> Result<(), AllocError>
    requires { at < length database.now.texts }
    ensures { OnOk result ((text : List ℕ) (state : EntryState) → slice_get database.now.texts at ≡ Some text → too_large ≡ is_over_limit state
        → map fault_seen faults.new.items ≡ map fault_seen faults.old.items ++ map of_profile (entry_faults at (reading_of_text text).names state)) }
{
    if too_large {
        push_too_large(database, at, faults)?;
    }
    Ok(())
}

/// Adds the faults of the block at a position, of which this was found out, given those that the
/// profile has of it.
///
/// # Errors
/// Out of memory.
pub(crate) fn add_block_faults(
    database: &RuledDatabase,
    at: usize,
    profile: &[Fault],
    finding: &Finding,
    faults: &mut Vec<ExtendedFault>,
) -> Result<(), AllocError>
    requires within { at < length database.now.texts }
    requires profile { (text : List ℕ) → slice_get database.now.texts at ≡ Some text
        → map profile_fault_seen profile.now ≡ block_faults (readings_by database.now.rule database.now.texts) at (reading_by database.now.rule text) }
    ensures added { OnOk result ((text : List ℕ) (state : EntryState) → slice_get database.now.texts at ≡ Some text → IsFindingBy text state finding.now
        → map fault_seen faults.new.items ≡ map fault_seen faults.old.items ++ extended_block_faults (readings_by database.now.rule database.now.texts) at text state) }
    ensures placed { OnOk result (All (IsPlaced (length database.now.texts)) (map profile_fault_seen profile.now) → All (IsExtendedPlaced (length database.now.texts)) (map fault_seen faults.old.items)
        → All (IsExtendedPlaced (length database.now.texts)) (map fault_seen faults.new.items)) }
{
    // Laws, with no code: the warnings of a block are those of the items that define names, and its
    // faults have the order of their items.
    user_items::laws::warnings_are_of_defining_items();
    base_meaning::laws::item_faults_are_in_order();
    let (front, _) = profile.split_at(front_len(database, at, profile));
    replace(front, &finding.codes, faults)?;
    add_entry_fault(database, at, finding.is_too_large, faults)?;
    Ok(())
}
