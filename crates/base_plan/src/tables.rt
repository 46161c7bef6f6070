//! The values of a block and its entry: items are added to a table, in the order in which they
//! decide by the block's rule, and the entry that the block had before is patched to have these
//! values.
ghost use Rattle.std.specs.Prelude.{ℕ, ◌≡◌, ◌+◌, ◌<◌, ◌≤◌, ◌↔◌, length, false, List, Some, slice_get, IfOk, IsErrOf, OnOk};
ghost use Rattle.ti_caps.specs.Tables.{Capability, IsCapability};
ghost use Rattle.ti_source.specs.declared.parsing.Rule.TheVariants.{Leftmost, OwnFirst};
ghost use Rattle.ti_source.specs.Reading.{reading_of, said_import, said_of};
ghost use Rattle.ti_layout.specs.Image.{image, image_limit};
ghost use Rattle.ti_layout.specs.Laws.{without_cancel};
ghost use Rattle.std.specs.Option.{option_or};
ghost use Rattle.base_plan.specs.inside.Values.{is_cancel};
ghost use Rattle.ti_layout.specs.Values.{Mention, contents, content_of};
ghost use Rattle.ti_compiled.specs.Image.{bytes_of, held_by};
ghost use Rattle.base_meaning.specs.Expansion.{is_broken, is_use, own_items, use_items};
ghost use Rattle.base_meaning.specs.Compiled.{state_of, state_with};
ghost use Rattle.base_meaning.specs.Dependents.{work_of};
ghost use Rattle.base_meaning.specs.Usable.{IsUsable, SetsWell};
ghost use Rattle.base_meaning.specs.ValueTables.{HasTable, IsTableOfMentions, AddsSaid, IsTableOf, IsTableOfItems};
ghost use Rattle.base_slots.specs.Settled.{state_seen, table_of};
ghost use Rattle.base_plan.specs.inside.Settling.{AreUsesSound, CanSettle, IsItemAt, blocks_known};

use crate::owners::{Known, used_table};
use base_slots::{BlockEntry, Slot, State};
use std::alloc::{AllocError, Global};
use ti_compiled::{Image, Mentions, Table, Value, WriteError};
use ti_source::{Parsed, Rule, What};

// Adds all values of the owner of a name, which an item of the block at a node uses, after the
// mentions.
fn merge_owner(
    known: &Known,
    node: usize,
    index: usize,
    name: &[u8],
    mentions: &mut Mentions,
) -> Result<(), AllocError>
    ghost at: { ℕ }
    requires ready { CanSettle known.now node at }
    requires item { IsItemAt (blocks_known known.now) at index (said_import name.now) }
    requires sound { AreUsesSound (blocks_known known.now) at }
    ensures { OnOk result (AddsSaid (blocks_known known.now) (said_import name.now) (contents mentions.old) (contents mentions.new)) }
{
    let Ok(used) = used_table(known, node, index, name) else {
        unreachable!()
    };
    mentions.merge(used)
}

// Adds the mentions that an item of the block at a node gives, after those before.
fn say(
    known: &Known,
    node: usize,
    index: usize,
    what: &What,
    mentions: &mut Mentions,
) -> Result<(), AllocError>
    ghost at: { ℕ }
    requires ready { CanSettle known.now node at }
    requires item { IsItemAt (blocks_known known.now) at index (said_of what.now) }
    requires sets { SetsWell (said_of what.now) }
    requires sound { AreUsesSound (blocks_known known.now) at }
    ensures { OnOk result (AddsSaid (blocks_known known.now) (said_of what.now) (contents mentions.old) (contents mentions.new)) }
{
    // A value or a cancel of a capability that is there stays.
    match what {
        What::Flag(cap) => mentions.push(*cap, Value::True),
        What::Number(cap, number) => mentions.push(*cap, Value::Number(*number)),
        What::Text(cap, text) => mentions.push(*cap, Value::Text(text.clone()?)),
        What::Cancel(cap) => mentions.push(*cap, Value::Cancelled),
        What::Import(name) => merge_owner(known, node, index, name.as_slice(), mentions),
    }
}

// The table of the block at a node, which is sound, as are its uses, if its leftmost mentions
// decide.
fn leftmost_table(
    alloc: Global,
    known: &Known,
    node: usize,
    block: &Parsed,
) -> Result<Table, AllocError>
    ghost at: { ℕ }
    requires ready { CanSettle known.now node at }
    requires block { slice_get (blocks_known known.now) at ≡ Some (reading_of block.now) }
    requires whole { is_broken (reading_of block.now) ≡ false }
    requires sound { AreUsesSound (blocks_known known.now) at }
    requires rule { block.now.rule ≡ Leftmost }
    ensures { IfOk result (λ table. IsTableOf (blocks_known known.now) (reading_of block.now) (contents table)) }
{
    let mut mentions = Mentions::new(alloc, block.items.len())?;
    for (index, item) in block.items.iter().enumerate() {
        say(known, node, index, &item.what, &mut mentions)?;
    }
    mentions.into_table()
}

// Whether an item uses another entry.
fn is_use(what: &What) -> bool
    ensures { result ≡ is_use (said_of what.now) }
{
    match what {
        What::Import(_) => true,
        What::Flag(_) | What::Number(_, _) | What::Text(_, _) | What::Cancel(_) => false,
    }
}

// What the uses of the block at a node say, the first first.
fn used_mentions(
    alloc: Global,
    known: &Known,
    node: usize,
    block: &Parsed,
) -> Result<Mentions, AllocError>
    ghost at: { ℕ }
    requires ready { CanSettle known.now node at }
    requires block { slice_get (blocks_known known.now) at ≡ Some (reading_of block.now) }
    requires sound { AreUsesSound (blocks_known known.now) at }
    ensures { IfOk result (λ m. IsTableOfItems (blocks_known known.now) (use_items (reading_of block.now).items) (contents m)) }
{
    let mut used = Mentions::new(alloc, block.items.len())?;
    for (index, item) in block.items.iter().enumerate() {
        if is_use(&item.what) {
            say(known, node, index, &item.what, &mut used)?;
        }
    }
    Ok(used)
}

// What the block at a node says itself, the last first.
fn own_mentions(
    alloc: Global,
    known: &Known,
    node: usize,
    block: &Parsed,
) -> Result<Mentions, AllocError>
    ghost at: { ℕ }
    requires ready { CanSettle known.now node at }
    requires block { slice_get (blocks_known known.now) at ≡ Some (reading_of block.now) }
    requires sound { AreUsesSound (blocks_known known.now) at }
    ensures { IfOk result (λ m. IsTableOfItems (blocks_known known.now) (own_items (reading_of block.now).items) (contents m)) }
{
    let count = block.items.len();
    let mut own = Mentions::new(alloc, count)?;
    for done in 0..count {
        let index = count - 1 - done;
        let item = &block.items[index];
        if !is_use(&item.what) {
            say(known, node, index, &item.what, &mut own)?;
        }
    }
    Ok(own)
}

// A copy of a value. Its text is shared.
fn copy_of(value: &Value) -> Result<Value, AllocError>
    ensures { IfOk result (λ copy. content_of copy ≡ content_of value.now) }
{
    match value {
        Value::True => Ok(Value::True),
        Value::Number(number) => Ok(Value::Number(*number)),
        Value::Text(text) => {
            let text = text.clone()?;
            Ok(Value::Text(text))
        }
        Value::Cancelled => Ok(Value::Cancelled),
    }
}

// Whether a value is a cancel.
fn is_cancel(value: &Value) -> bool
    ensures { result ≡ is_cancel (content_of value.now) }
{
    match value {
        Value::Cancelled => true,
        Value::True | Value::Number(_) | Value::Text(_) => false,
    }
}

// Adds a mention of each value of a table, but of no cancel, after the others.
fn merge_values(inherited: &Table, mentions: &mut Mentions) -> Result<(), AllocError>
    ensures { OnOk result ((c : Capability) → IsCapability c → contents mentions.new c
        ≡ option_or (contents mentions.old c) (without_cancel (contents inherited.now c))) }
{
    for entry in inherited.entries() {
        if !is_cancel(&entry.1) {
            mentions.push(entry.0, copy_of(&entry.1)?)?;
        }
    }
    Ok(())
}

// The table of the block at a node, which is sound, as are its uses, if its own mentions decide
// before those of its uses.
fn own_first_table(
    alloc: Global,
    known: &Known,
    node: usize,
    block: &Parsed,
) -> Result<Table, AllocError>
    ghost at: { ℕ }
    requires ready { CanSettle known.now node at }
    requires block { slice_get (blocks_known known.now) at ≡ Some (reading_of block.now) }
    requires whole { is_broken (reading_of block.now) ≡ false }
    requires sound { AreUsesSound (blocks_known known.now) at }
    requires rule { block.now.rule ≡ OwnFirst }
    ensures { IfOk result (λ table. IsTableOf (blocks_known known.now) (reading_of block.now) (contents table)) }
{
    let used = used_mentions(alloc, known, node, block)?;
    let inherited = used.into_table()?;
    let mut own = own_mentions(alloc, known, node, block)?;
    merge_values(&inherited, &mut own)?;
    own.into_table()
}

// The table of the block at a node, which is sound, as are its uses. Each of its items takes one of
// the steps left.
fn make_table(
    alloc: Global,
    known: &Known,
    node: usize,
    block: &Parsed,
    left: &mut u64,
) -> Result<Table, AllocError>
    ghost at: { ℕ }
    requires ready { CanSettle known.now node at }
    requires block { slice_get (blocks_known known.now) at ≡ Some (reading_of block.now) }
    requires whole { is_broken (reading_of block.now) ≡ false }
    requires sound { AreUsesSound (blocks_known known.now) at }
    requires room { length block.now.items.items ≤ left.old }
    ensures table { IfOk result (λ table. IsTableOf (blocks_known known.now) (reading_of block.now) (contents table)) }
    ensures work { OnOk result (left.new + length block.now.items.items ≡ left.old) }
{
    *left -= block.items.len() as u64;
    match block.rule {
        Rule::Leftmost => leftmost_table(alloc, known, node, block),
        Rule::OwnFirst => own_first_table(alloc, known, node, block),
    }
}

// The entry of before that the block in a slot may be patched from: its own, or else that of the
// block taken out.
fn entry_before<'a>(known: &Known<'a>, slot: &'a Slot) -> Option<&'a BlockEntry> {
    match slot.settled.state.entry() {
        Some(entry) => Some(entry),
        None => known.entry_out,
    }
}

// The image of a sound block that has this table. If the entry of before has the same names, a copy
// of it is patched; else the image is written anew.
fn make_image(
    alloc: Global,
    slot: &Slot,
    before: Option<&BlockEntry>,
    table: &Table,
) -> Result<Image, WriteError>
    requires whole { is_broken (reading_of slot.now.block) ≡ false }
    requires usable { IsUsable (reading_of slot.now.block) }
    ensures image { IfOk result (λ i. bytes_of i ≡ image slot.now.block.field.items (contents table.now)) }
    ensures contents { IfOk result (λ i. (c : Capability) → IsCapability c → held_by i c ≡ without_cancel (contents table.now c)) }
    ensures too_large { IsErrOf result WriteError.TooLarge
        ↔ (image_limit (contents table.now) < length (image slot.now.block.field.items (contents table.now))) }
    ensures names_fit { IsErrOf result WriteError.NamesTooLong → ⊥ }
{
    let names = &slot.block.field;
    match before {
        Some(before) if before.image.names() == names.as_slice() => {
            before.image.patch(&before.table, table)
        }
        _ => Image::new(alloc, names, table),
    }
}

// What becomes of a sound block that has this table, given the entry of before.
fn make_state(
    alloc: Global,
    slot: &Slot,
    before: Option<&BlockEntry>,
    table: Table,
) -> Result<State, AllocError>
    requires whole { is_broken (reading_of slot.now.block) ≡ false }
    requires usable { IsUsable (reading_of slot.now.block) }
    ensures table { IfOk result (λ state. table_of state ≡ Some table) }
    ensures state { IfOk result (λ state. (mentions : List Mention) → IsTableOfMentions (contents table) mentions
        → state_seen state ≡ state_with (reading_of slot.now.block) (Some mentions)) }
{
    match make_image(alloc, slot, before, &table) {
        Ok(image) => Ok(State::Compiled(BlockEntry { table, image })),
        Err(WriteError::TooLarge) => Ok(State::TooLarge(table)),
        Err(WriteError::Memory) => Err(AllocError),
        Err(WriteError::NamesTooLong) => unreachable!(),
    }
}

/// What becomes of the block at a node, which is sound, as are its uses.
pub(crate) fn compile<'a>(
    alloc: Global,
    known: &Known<'a>,
    node: usize,
    slot: &'a Slot,
    left: &mut u64,
) -> Result<State, AllocError>
    ghost at: { ℕ }
    requires ready { CanSettle known.now node at }
    requires block { slice_get (blocks_known known.now) at ≡ Some (reading_of slot.now.block) }
    requires whole { is_broken (reading_of slot.now.block) ≡ false }
    requires sound { AreUsesSound (blocks_known known.now) at }
    requires room { length slot.now.block.items.items ≤ left.old }
    ensures state { IfOk result (λ state. state_seen state ≡ state_of (blocks_known known.now) (reading_of slot.now.block)) }
    ensures table { IfOk result (λ state. HasTable contents (blocks_known known.now) (reading_of slot.now.block) (table_of state)) }
    ensures work { OnOk result (left.new + work_of (blocks_known known.now) (Some (reading_of slot.now.block)) ≡ left.old) }
{
    let table = make_table(alloc, known, node, &slot.block, left)?;
    make_state(alloc, slot, entry_before(known, slot), table)
}
