//! The part of a block that each of its faults is of.
ghost use Rattle.std.specs.Prelude.{◌≡◌, ◌^◌, ◌<◌, All, IfOk, IfSome, List, ℕ, drop, map, slice_get, option_and_then};
ghost use Rattle.std.specs.Option.{option_map};
ghost use Rattle.ti_source.specs.Cutting.{OneBlock};
ghost use Rattle.ti_source.specs.Folding.{PlacedByte};
ghost use Rattle.ti_source.specs.Parsing.{reading_of_text};
ghost use Rattle.ti_source.specs.Reading.{ReadFault, ReadItem, fault_of, item_of};
ghost use Rattle.source_spans.specs.Faulty as spec;
ghost use Rattle.source_spans.specs.Faulty.{find, find_named, first_and_rest, found_fault, found_name, found_use, ordinal_and_faults, ordinal_and_items, search_of};
ghost use Rattle.source_spans.specs.Found.{FaultsAreOfTheirItems};
ghost use Rattle.source_spans.specs.Parts.{IsWithin, part_of, spanned};
ghost use Rattle.source_spans.specs.inside.Readings.{faults_in, items_in};

use crate::folding::folded;
use crate::items::{begins_with, visible_items};
use crate::names::own_parts;
use crate::parts::{Part, field_len, span_of};
use crate::reading::BlockReading;
use std::alloc::{AllocError, Global};
use std::marker::Model;
use ti_source::{Code, Item, Local, What, parse};

/// Finds the part of a block that each of its faults is of, one fault after another. The faults of
/// a block come in order, so all of them are found in time linear in the block.
#[derive(Drop)]
pub struct FaultFinder<'a> {
    // The folded text of the block.
    text: Vec<(u8, usize)>,
    // Its names field and its first name, where they are.
    head: Option<Part>,
    first: Option<Part>,
    // Its names and items, as parts of the text.
    names: Vec<Part>,
    items: Vec<Part>,
    reading: BlockReading<'a>,
    // How many names, faults and items are passed.
    names_passed: usize,
    faults_passed: usize,
    items_passed: usize,
}

impl<'a> Model for FaultFinder<'a> {
    ghost use Rattle.std.specs.Prelude.{◌^◌, ◌<◌, All, drop, map};
    ghost use Rattle.ti_source.specs.Reading.{fault_of, item_of};
    ghost use Rattle.source_spans.specs.Faulty.{Search};
    ghost use Rattle.source_spans.specs.Parts.{IsWithin, part_of};
    ghost use Rattle.source_spans.specs.inside.Readings.{faults_in, items_in};

    ghost Value = { Search };

    ghost view = { λ f. record {
      head = f.head;
      first = f.first;
      items = map (part_of f.text.items) f.items.items;
      names = map (part_of f.text.items) (drop f.names_passed f.names.items);
      faults = map fault_of (drop f.faults_passed (faults_in f.reading));
      uses = map item_of (drop f.items_passed (items_in f.reading));
    } };

    ghost invariant = { λ f. All (IsWithin f.text.items) f.names.items × All (IsWithin f.text.items) f.items.items × All (λ x. x.1 < 2 ^ 63) f.text.items };
}

// Whether a part of a folded text is a name.
fn is_name(text: &[(u8, usize)], part: Part, name: &[u8]) -> bool
    requires { IsWithin text.now part }
    ensures { result ≡ spec.is_name name.now (part_of text.now part) }
{
    part.end - part.start == name.len() && begins_with(&text[part.start..part.end], name)
}

// Whether a code of reading is that of a fault.
fn is_code(read: Code, code: Code) -> bool
    ensures { result ≡ spec.is_code read code }
{
    read.label() == code.label() || read.label() == Code::UnknownCapability.label()
}

// Whether a fault of reading is on a line, of that code and of that name.
fn is_fault(local: &Local, line: usize, code: Code, name: &[u8]) -> bool
    ensures { result ≡ spec.is_fault line code name.now (fault_of local.now) }
{
    match &local.detail {
        Some(detail) => {
            local.line == line && is_code(local.code, code) && detail.as_slice() == name
        }
        None => false,
    }
}

// Whether an item is on a line and uses a name.
fn is_use(item: &Item, line: usize, name: &[u8]) -> bool
    ensures { result ≡ spec.is_use line name.now (item_of item.now) }
{
    match &item.what {
        What::Import(used) => item.line == line && used.as_slice() == name,
        _ => false,
    }
}

// The next of some parts that is a name, and how many are passed then.
fn next_name(
    text: &[(u8, usize)],
    names: &[Part],
    from: usize,
    name: &[u8],
) -> Option<(Part, usize)>
    requires { All (IsWithin text.now) names.now }
    ensures next { option_map {U = List PlacedByte × List (List PlacedByte)} (λ next. (part_of text.now next.0, map (part_of text.now) (drop next.1 names.now))) result
        ≡ first_and_rest (spec.is_name name.now) (map (part_of text.now) (drop from names.now)) }
    ensures within { IfSome result (λ next. IsWithin text.now next.0) }
{
    for at in from..names.len() {
        if is_name(text, names[at], name) {
            return Some((names[at], at + 1));
        }
    }
    None
}

// The ordinal of the item of the next such fault of reading, and how many faults are passed then.
fn next_fault(
    faults: &[Local],
    from: usize,
    line: usize,
    code: Code,
    name: &[u8],
) -> Option<(usize, usize)>
    ensures { option_map {U = ℕ × List ReadFault} (λ next. (next.0, map fault_of (drop next.1 faults.now))) result
        ≡ option_map ordinal_and_faults (first_and_rest (spec.is_fault line code name.now) (map fault_of (drop from faults.now))) }
{
    for at in from..faults.len() {
        if is_fault(&faults[at], line, code, name) {
            return Some((faults[at].ordinal, at + 1));
        }
    }
    None
}

// The ordinal of the next item that is on a line and uses a name, and how many items are passed
// then.
fn next_use(items: &[Item], from: usize, line: usize, name: &[u8]) -> Option<(usize, usize)>
    ensures { option_map {U = ℕ × List ReadItem} (λ next. (next.0, map item_of (drop next.1 items.now))) result
        ≡ option_map ordinal_and_items (first_and_rest (spec.is_use line name.now) (map item_of (drop from items.now))) }
{
    for at in from..items.len() {
        if is_use(&items[at], line, name) {
            return Some((items[at].ordinal, at + 1));
        }
    }
    None
}

// Where the first of some parts is.
fn first_of(text: &[(u8, usize)], parts: &[Part]) -> Option<Part>
    requires within { All (IsWithin text.now) parts.now }
    requires offsets { All (λ x. x.1 < 2 ^ 63) text.now }
    ensures { result ≡ spec.first_of (map (part_of text.now) parts.now) }
{
    span_of(text, *parts.first()?)
}

// Where the part at a place is.
fn span_at(text: &[(u8, usize)], parts: &[Part], at: usize) -> Option<Part>
    requires within { All (IsWithin text.now) parts.now }
    requires offsets { All (λ x. x.1 < 2 ^ 63) text.now }
    ensures { result ≡ option_and_then spanned (slice_get (map (part_of text.now) parts.now) at) }
{
    span_of(text, *parts.get(at)?)
}

impl<'a> FaultFinder<'a> {
    /// A finder for the faults of a block, of which none is found yet.
    ///
    /// # Errors
    /// Out of memory.
    pub fn of(alloc: Global, block: &[u8]) -> Result<FaultFinder<'a>, AllocError>
        requires { OneBlock block.now }
        ensures { IfOk result (λ finder. finder ≡ search_of block.now) }
    {
        let parsed = parse(alloc, block)?;
        FaultFinder::before_first(alloc, block, BlockReading::Read(parsed))
    }

    /// The same of a block whose accepted items are known, and the faults that its own text gives,
    /// as a `Database` has them: it is not read again.
    ///
    /// # Errors
    /// Out of memory.
    pub fn of_known(
        alloc: Global,
        block: &[u8],
        items: &'a [Item],
        faults: &'a [Local],
    ) -> Result<FaultFinder<'a>, AllocError>
        requires one { OneBlock block.now }
        requires items { map item_of items.now ≡ (reading_of_text block.now).items }
        requires faults { map fault_of faults.now ≡ (reading_of_text block.now).faults }
        ensures { IfOk result (λ finder. finder ≡ search_of block.now) }
    {
        FaultFinder::before_first(alloc, block, BlockReading::Known(items, faults))
    }

    // Before the first fault of a block that was read.
    fn before_first(
        alloc: Global,
        block: &[u8],
        reading: BlockReading<'a>,
    ) -> Result<FaultFinder<'a>, AllocError>
        requires one { OneBlock block.now }
        requires items { map item_of (items_in reading) ≡ (reading_of_text block.now).items }
        requires faults { map fault_of (faults_in reading) ≡ (reading_of_text block.now).faults }
        ensures { IfOk result (λ finder. finder ≡ search_of block.now) }
    {
        let text = folded(alloc, block)?;
        let names = own_parts(alloc, &text)?;
        let items = visible_items(alloc, &text)?;
        let field = Part {
            start: 0,
            end: field_len(&text),
        };
        Ok(FaultFinder {
            head: span_of(&text, field),
            first: first_of(&text, &names),
            text,
            names,
            items,
            reading,
            names_passed: 0,
            faults_passed: 0,
            items_passed: 0,
        })
    }

    /// The part of the block that its next fault of this line, code and detail is of, as a `Fault`
    /// of the base has them: of `BadHeader` and `NamesTooLong` the names field, of `TooLarge` the
    /// first name, of `DuplicateName` the name, and of any other the item. `None` if there is no
    /// such part after those that were found; then all is as before.
    ///
    /// A fault of an item of a user-defined name is found by the warning of an unknown capability
    /// that the item has without them, whatever its code is. It is the first item of that name on
    /// that line that is not passed, even if that one is sound: no more is known of it.
    pub fn find(&mut self, line: usize, code: Code, detail: Option<&[u8]>) -> Option<Part>
        ensures { (result, self.new) ≡ find self.old line code (option_map (λ name. name.now) detail.entry) }
    {
        match code {
            Code::BadHeader | Code::NamesTooLong => self.head,
            Code::TooLarge => self.first,
            _ => self.find_named(line, code, detail?),
        }
    }

    // The same of a fault with a name.
    fn find_named(&mut self, line: usize, code: Code, name: &[u8]) -> Option<Part>
        ensures { (result, self.new) ≡ find_named self.old line code name.now }
    {
        match code {
            Code::DuplicateName => self.find_name(name),
            Code::MissingUse | Code::Circular | Code::Unresolved => self.find_use(line, name),
            _ => self.find_fault(line, code, name),
        }
    }

    // The next name that is this.
    fn find_name(&mut self, name: &[u8]) -> Option<Part>
        ensures { (result, self.new) ≡ found_name self.old (first_and_rest (spec.is_name name.now) self.old.names) }
    {
        let (part, passed) = next_name(&self.text, &self.names, self.names_passed, name)?;
        self.names_passed = passed;
        span_of(&self.text, part)
    }

    // The item of the next such fault of reading.
    fn find_fault(&mut self, line: usize, code: Code, name: &[u8]) -> Option<Part>
        ensures { (result, self.new) ≡ found_fault self.old (option_map ordinal_and_faults (first_and_rest (spec.is_fault line code name.now) self.old.faults)) }
    {
        let faults = self.reading.faults();
        let (ordinal, passed) = next_fault(faults, self.faults_passed, line, code, name)?;
        self.faults_passed = passed;
        span_at(&self.text, &self.items, ordinal)
    }

    // The next item that is on a line and uses a name.
    fn find_use(&mut self, line: usize, name: &[u8]) -> Option<Part>
        ensures { (result, self.new) ≡ found_use self.old (option_map ordinal_and_items (first_and_rest (spec.is_use line name.now) self.old.uses)) }
    {
        let items = self.reading.items();
        let (ordinal, passed) = next_use(items, self.items_passed, line, name)?;
        self.items_passed = passed;
        span_at(&self.text, &self.items, ordinal)
    }
}

/// A law, with no code: the faults of items that reading a block gave, sought one after another, are
/// found at the items of their ordinals.
pub fn faults_are_found()
    ensures { FaultsAreOfTheirItems }
{}
