//! Calls of `base_slots` and `base_dependents`: a list of blocks that come and go from row to row,
//! and what depends on them.
use base_dependents::{Dependents, find_all, find_dependents};
use base_slots::{BlockEntry, KeptFault, Settled, Slot, Slots, State, copy_detail};
use std::alloc::{AllocError, Global};
use std::rc::RcSlice;
use test_rows::RowError::{self, Bad, Memory};
use test_rows::{NO_CALL, Row, RowResult};
use ti_compiled::{Image, Table};
use ti_source::{Code, is_block, parse};

const NO_BLOCK: RowError = Bad("there is no such block");

// A block's slot, with nothing found out yet.
fn slot_of(alloc: Global, text: &[u8]) -> RowResult<Slot> {
    if text.len() > 1_000 || !is_block(text) {
        return Err(Bad("a word is to be a block"));
    }
    let settled = Settled {
        state: State::Unresolved,
        faults: Vec::new(alloc),
    };
    Ok(Slot {
        text: Vec::from_slice(alloc, text)?,
        block: parse(alloc, text)?,
        settled,
    })
}

// Puts a block in at a position, and gives its id.
fn put(alloc: Global, slots: &mut Slots, at: usize, text: &[u8]) -> RowResult<u32> {
    if at > slots.len() || slots.len() >= 1_000 {
        return Err(NO_BLOCK);
    }
    let slot = slot_of(alloc, text)?;
    slots.make_room(&slot.block)?;
    Ok(slots.put_in(at, slot))
}

// A list of these blocks, each put in before those that are there, so many times.
fn made(alloc: Global, blocks: &[Vec<u8>], times: usize) -> RowResult<Slots> {
    let mut slots = Slots::new(alloc);
    for _ in 0..times {
        for block in blocks {
            let _id = put(alloc, &mut slots, 0, block)?;
        }
    }
    Ok(slots)
}

// Takes the block at a position out, and puts it back without memory. Gives how many names it has.
fn exchange(slots: &mut Slots, at: usize) -> RowResult<usize> {
    if at >= slots.len() {
        return Err(NO_BLOCK);
    }
    let slot = slots.take_out(at);
    let id = slots.put_in(at, slot);
    Ok(slots.slot(id).block.names.len())
}

// Takes the block at a position out for good.
fn take(slots: &mut Slots, at: usize) -> RowResult {
    if at >= slots.len() {
        return Err(NO_BLOCK);
    }
    let slot = slots.take_out(at);
    slots.forget_unused(&slot.block);
    Ok(())
}

fn say_ids(row: &mut Row<'_>, ids: &[u32]) -> RowResult {
    for id in ids {
        row.show(id)?;
    }
    Ok(())
}

// The ids that have a name, the one that owns it, and those that use it.
fn say_name(row: &mut Row<'_>, slots: &Slots) -> RowResult {
    let name = row.bytes(0)?;
    say_ids(row, slots.holders(name))?;
    row.say(b"owned")?;
    match slots.owner(name) {
        Some(id) => row.show(&id)?,
        None => row.say(b"none")?,
    }
    row.say(b"used")?;
    say_ids(row, slots.users(name))
}

// That a block has an entry, with no value, and a fault.
fn compiled_with_a_fault(alloc: Global) -> RowResult<Settled> {
    let table = Table::new(alloc);
    let Ok(image) = Image::new(alloc, b"n", &table) else {
        return Err(Memory);
    };
    let fault = KeptFault {
        line: 2,
        code: Code::BadNumber,
        detail: None,
    };
    Ok(Settled {
        state: State::Compiled(BlockEntry { table, image }),
        faults: Vec::from_array(alloc, [fault])?,
    })
}

// Whether a block has an entry, and how many faults.
fn say_has(row: &mut Row<'_>, settled: &Settled) -> RowResult {
    row.say_yes(settled.state.entry().is_some())?;
    row.show(&settled.faults.len())
}

// Gives the first block an entry and a fault. Says what it had.
fn settle(row: &mut Row<'_>, slots: &mut Slots) -> RowResult {
    let Some(id) = slots.ids().first().copied() else {
        return Err(NO_BLOCK);
    };
    let mut settled = compiled_with_a_fault(row.alloc)?;
    slots.exchange_settled(id, &mut settled);
    say_has(row, &settled)
}

// What the first block has.
fn say_first(row: &mut Row<'_>, slots: &Slots) -> RowResult {
    match slots.ids().first() {
        Some(id) => say_has(row, &slots.slot(*id).settled),
        None => Err(NO_BLOCK),
    }
}

// A copy of a detail, which no word gives.
fn say_detail(row: &mut Row<'_>) -> RowResult {
    let detail = match row.from(0).first() {
        Some(word) => Some(RcSlice::from_slice(row.alloc, word)?),
        None => None,
    };
    let copy = copy_detail(&detail)?;
    row.say_or_none(copy.as_ref().map(|detail| detail.as_slice()))
}

// A block that is found, with `:` and the positions of the owners of what it uses, or `x` for one
// that is not found.
fn found_word(
    alloc: Global,
    found: &Dependents,
    node: usize,
    at: usize,
) -> Result<String, AllocError> {
    let mut word = format!(in alloc; "{at}:")?;
    if node < found.uses.node_count() {
        for edge in found.uses.row(node) {
            match edge.and_then(|owner| found.positions.get(owner)) {
                Some(owner) => word.push_str(format!(in alloc; "{owner}")?.as_str())?,
                None => word.push_str("x")?,
            }
        }
    }
    Ok(word)
}

// The blocks that are found, in the order of the list, and how many they are.
fn say_found(row: &mut Row<'_>, found: &Dependents, count: usize) -> RowResult {
    for at in 0..count {
        if let Some(node) = found.positions.iter().position(|place| *place == at) {
            row.say_text(found_word(row.alloc, found, node, at)?.as_str())?;
        }
    }
    row.show(&found.ids.len())
}

// What depends on the first block, on one that was taken out with a name, or on any.
fn say_dependents(row: &mut Row<'_>, slots: &Slots) -> RowResult {
    let found = match (row.text(0)?, slots.ids().first()) {
        ("first", Some(id)) => find_dependents(row.alloc, slots, Some(*id), &[])?,
        ("name", _) => {
            let out = [RcSlice::from_slice(row.alloc, row.bytes(1)?)?];
            find_dependents(row.alloc, slots, None, &out)?
        }
        ("all", _) => find_all(row.alloc, slots)?,
        _ => return Err(NO_BLOCK),
    };
    say_found(row, &found, slots.len())
}

/// Makes a call of these libraries.
pub fn call(slots: &mut Slots, name: &str, row: &mut Row<'_>) -> RowResult {
    match name {
        "new" => *slots = made(row.alloc, row.from(0), 1)?,
        "copies" => *slots = made(row.alloc, row.from(1), row.count(0)?)?,
        "put" => row.show(&put(row.alloc, slots, row.count(0)?, row.bytes(1)?)?)?,
        "exchange" => row.show(&exchange(slots, row.count(0)?)?)?,
        "take" => take(slots, row.count(0)?)?,
        "ids" => say_ids(row, slots.ids())?,
        "name" => say_name(row, slots)?,
        "settle" => settle(row, slots)?,
        "first" => say_first(row, slots)?,
        "detail" => say_detail(row)?,
        "dependents" => say_dependents(row, slots)?,
        _ => return Err(NO_CALL),
    }
    Ok(())
}
