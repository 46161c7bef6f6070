//! What is shown for the faults of a block, kept with the block and its faults.
ghost use Rattle.std.specs.Prelude.{◌≡◌, ◌-◌, IfOk, option_map, true};
ghost use Rattle.std.specs.Rc.{rc_slice_items};
ghost use Rattle.std.specs.Str.{bytes_eq};
ghost use Rattle.base_meaning.specs.Faults.{fault_seen as profile_fault_seen};
ghost use Rattle.user_compiling.specs.Faults.{fault_seen, line_of};
ghost use Rattle.ti_source.specs.Code.{label_of};
ghost use Rattle.ti_source.specs.Cutting.{OneBlock};
ghost use Rattle.source_spans.specs.Faulty.{find_sought, search_of};
ghost use Rattle.source_diagnostics.specs.Marking.{marked_for, sought_of};
ghost use Rattle.source_diagnostics.specs.inside.Kept.{block_marks, kept_marks, sought_in};

use crate::marking::{code_of, detail_of, marked_for};
use source_places::PlaceWalk;
use source_spans::FaultFinder;
use source_types::Range;
use std::alloc::{AllocError, Global};
use std::marker::Model;
use std::rc::RcSlice;
use ti_base::Fault;
use ti_source::Code;
use user_compiling::ExtendedFault;

/// What is shown for the faults of a block, kept with the text of the block and its faults. While
/// both stay the same, so does what is shown. That it is right is an invariant; that it is kept is
/// in no clause, since only the time of the next call depends on it.
#[derive(Drop)]
pub struct KeptMarks {
    text: Vec<u8>,
    faults: Vec<ExtendedFault>,
    marks: Vec<Range>,
}

impl Model for KeptMarks {
    ghost use Rattle.std.specs.Prelude.{◌≡◌};
    ghost use Rattle.source_spans.specs.Faulty.{search_of};
    ghost use Rattle.source_diagnostics.specs.inside.Kept.{Kept, block_marks, sought_in};

    ghost Value = { Kept };

    ghost view = { λ k. record { text = k.text.items; faults = sought_in k.faults.items } };

    ghost invariant = { λ k. k.marks.items ≡ block_marks k.text.items (search_of k.text.items) (sought_in k.faults.items) };
}

// A copy of a detail.
fn detail_copy(detail: &Option<RcSlice<u8>>) -> Result<Option<RcSlice<u8>>, AllocError>
    ensures { IfOk result (λ copy. option_map rc_slice_items copy ≡ option_map rc_slice_items detail.now) }
{
    match detail {
        Some(detail) => Ok(Some(detail.clone()?)),
        None => Ok(None),
    }
}

// A copy of a fault of the profile.
fn profile_copy(fault: &Fault) -> Result<Fault, AllocError>
    ensures { IfOk result (λ copy. profile_fault_seen copy ≡ profile_fault_seen fault.now) }
{
    Ok(Fault {
        block: fault.block,
        line: fault.line,
        code: fault.code,
        detail: detail_copy(&fault.detail)?,
    })
}

// A copy of a fault.
fn fault_copy(fault: &ExtendedFault) -> Result<ExtendedFault, AllocError>
    ensures { IfOk result (λ copy. sought_of (fault_seen copy) ≡ sought_of (fault_seen fault.now)) }
{
    match fault {
        ExtendedFault::Profile(fault) => Ok(ExtendedFault::Profile(profile_copy(fault)?)),
        ExtendedFault::BadUserDefined { block, line, name } => Ok(ExtendedFault::BadUserDefined {
            block: *block,
            line: *line,
            name: name.clone()?,
        }),
    }
}

// Copies of faults.
fn fault_copies(alloc: Global, faults: &[ExtendedFault]) -> Result<Vec<ExtendedFault>, AllocError>
    ensures { IfOk result (λ copies. sought_in copies.items ≡ sought_in faults.now) }
{
    let mut copies = Vec::with_capacity(alloc, faults.len())?;
    for fault in faults {
        copies.push(fault_copy(fault)?)?;
    }
    Ok(copies)
}

// Whether two texts are the same.
fn is_equal(one: &[u8], other: &[u8]) -> bool
    ensures { result ≡ true → one.now ≡ other.now }
{
    one == other
}

// Whether two details are the same.
fn is_same_detail(one: Option<&[u8]>, other: Option<&[u8]>) -> bool
    ensures { result ≡ true → option_map (λ detail. detail.now) one.entry ≡ option_map (λ detail. detail.now) other.entry }
{
    match (one, other) {
        (None, None) => true,
        (Some(one), Some(other)) => is_equal(one, other),
        _ => false,
    }
}

// Whether two codes are the same.
fn is_same_code(one: Code, other: Code) -> bool
    ensures { result ≡ bytes_eq (label_of one) (label_of other) }
{
    one.label() == other.label()
}

// Whether two faults of a block are sought alike.
fn is_same(one: &ExtendedFault, other: &ExtendedFault) -> bool
    ensures { result ≡ true → sought_of (fault_seen one.now) ≡ sought_of (fault_seen other.now) }
{
    if one.line() != other.line() {
        return false;
    }
    if !is_same_code(code_of(one), code_of(other)) {
        return false;
    }
    is_same_detail(detail_of(one), detail_of(other))
}

// Whether the faults of a block are sought alike, one by one.
fn are_same(some: &[ExtendedFault], others: &[ExtendedFault]) -> bool
    ensures { result ≡ true → sought_in some.now ≡ sought_in others.now }
{
    if some.len() != others.len() {
        return false;
    }
    for at in 0..some.len() {
        let one = &some[at];
        let other = &others[at];
        if !is_same(one, other) {
            return false;
        }
    }
    true
}

// What is shown for the next fault of a block.
fn next_mark(finder: &mut FaultFinder, walk: &mut PlaceWalk<'_>, fault: &ExtendedFault) -> Range
    ensures mark { result ≡ marked_for 0 walk.old (line_of (fault_seen fault.now) - 1) (find_sought finder.old (sought_of (fault_seen fault.now))).0 }
    ensures left { finder.new ≡ (find_sought finder.old (sought_of (fault_seen fault.now))).1 }
    ensures same { walk.new ≡ walk.old }
{
    let line = fault.line();
    let part = finder.find(line, code_of(fault), detail_of(fault));
    marked_for(walk, 0, line.saturating_sub(1), part)
}

// What is shown for the faults of a block, one after another.
fn block_marks(
    alloc: Global,
    text: &[u8],
    faults: &[ExtendedFault],
) -> Result<Vec<Range>, AllocError>
    requires { OneBlock text.now }
    ensures { IfOk result (λ marks. marks.items ≡ block_marks text.now (search_of text.now) (sought_in faults.now)) }
{
    let mut finder = FaultFinder::of(alloc, text)?;
    let mut walk = PlaceWalk::new(text);
    let mut marks = Vec::with_capacity(alloc, faults.len())?;
    for fault in faults {
        let mark = next_mark(&mut finder, &mut walk, fault);
        marks.push(mark)?;
    }
    Ok(marks)
}

impl KeptMarks {
    /// What is shown for the faults of a block.
    pub(crate) fn of(
        alloc: Global,
        text: &[u8],
        faults: &[ExtendedFault],
    ) -> Result<KeptMarks, AllocError>
        requires { OneBlock text.now }
        ensures { IfOk result (λ kept. kept ≡ record { text = text.now; faults = sought_in faults.now }) }
    {
        let marks = block_marks(alloc, text, faults)?;
        Ok(KeptMarks {
            text: Vec::from_slice(alloc, text)?,
            faults: fault_copies(alloc, faults)?,
            marks,
        })
    }

    /// Whether this is kept of a block with that text and those faults.
    pub(crate) fn is_of(&self, text: &[u8], faults: &[ExtendedFault]) -> bool
        ensures { result ≡ true → self.now ≡ record { text = text.now; faults = sought_in faults.now } }
    {
        is_equal(self.text.as_slice(), text) && are_same(self.faults.as_slice(), faults)
    }

    /// What is shown for each fault, in their order, as if its line had the number 0.
    pub(crate) fn marks(&self) -> &[Range]
        ensures { result.now ≡ kept_marks self.now }
    {
        &self.marks
    }
}
