//! Which block decides what an entry has of a capability.
ghost use Rattle.std.specs.Prelude.{◌≡◌, ◌<◌, ◌++◌, ℕ, OnOk, IfOk, length, map, option_map};
ghost use Rattle.std.specs.Rc.{rc_slice_items};
ghost use Rattle.std.specs.String.{string_bytes};
ghost use Rattle.ti_source.specs.Reading.{item_of, said_of};
ghost use Rattle.ti_layout.specs.Image.{is_there};
ghost use Rattle.ti_layout.specs.Values.{content_of};
ghost use Rattle.base_meaning.specs.Owner.{owner, readings};
ghost use Rattle.source_blocks.specs.Deciding as spec;
ghost use Rattle.source_blocks.specs.Deciding.{decided_by, decider, decider_in, first_say, inherited_kind, other_decider, own_name, said_by, say_at, say_of, say_of_mention, say_of_use, source_seen, source_with, sources_from};

use crate::giving::is_owner;
use crate::holdings::cap_at;
use source_document::shown_detail;
use std::alloc::{AllocError, Global};
use std::rc::RcSlice;
use ti_base::Database;
use ti_caps::{Cap, Kind, count};
use ti_layout::Value;
use ti_source::{Item, What};

/// What an item says of a capability.
#[derive(Clone, Copy)]
pub(crate) enum Say {
    /// Nothing.
    Silent,
    /// Its value, or that it is cancelled.
    Decisive,
    /// What the block at this position says.
    HandsOn(usize),
}

/// A capability that an entry inherits.
#[derive(Clone, Copy)]
pub(crate) struct Inherited {
    /// The capability.
    pub(crate) capability: Cap,
    /// The position of the block that decides it.
    pub(crate) by: usize,
}

/// A block, and the capabilities that it decides for another.
#[derive(Debug, Drop)]
pub struct DecidingBlock {
    /// The first of the block's lookup names that it owns, in ASCII.
    pub name: String,
    /// The capabilities, in the order of the compiled entry.
    pub capabilities: Vec<Cap>,
}

// The value that a block has of a capability once its uses are expanded, also a cancel.
fn said_by(database: &Database, cap: Cap, at: usize) -> Option<&Value>
    requires { at < length database.now }
    ensures { option_map (λ value. content_of value.now) result ≡ said_by (readings database.now) cap at }
{
    match database.values(at) {
        Some(values) => values.get(cap),
        None => None,
    }
}

// Whether an entry has the value.
fn is_value(value: Option<&Value>) -> bool
    ensures { result ≡ is_there (option_map (λ found. content_of found.now) value.entry) }
{
    match value {
        None | Some(Value::Cancelled) => false,
        Some(_) => true,
    }
}

// What a mention of a capability says of one.
fn say_of_mention(cap: Cap, other: Cap) -> Say
    ensures { result ≡ say_of_mention cap other }
{
    if other == cap {
        Say::Decisive
    } else {
        Say::Silent
    }
}

// What a use of a name says of a capability.
fn say_of_use(database: &Database, cap: Cap, name: &[u8]) -> Say
    ensures within { (at : ℕ) → result ≡ Say.HandsOn at → at < length database.now }
    ensures said { result ≡ say_of_use (readings database.now) cap (owner (readings database.now) name.now) }
{
    match database.owner(name) {
        None => Say::Silent,
        Some(at) => {
            if said_by(database, cap, at).is_some() {
                Say::HandsOn(at)
            } else {
                Say::Silent
            }
        }
    }
}

// What an item says of a capability.
fn say_of(database: &Database, cap: Cap, what: &What) -> Say
    ensures within { (at : ℕ) → result ≡ Say.HandsOn at → at < length database.now }
    ensures said { result ≡ say_of (readings database.now) cap (said_of what.now) }
{
    match what {
        What::Flag(other) => say_of_mention(cap, *other),
        What::Number(other, _) => say_of_mention(cap, *other),
        What::Text(other, _) => say_of_mention(cap, *other),
        What::Cancel(other) => say_of_mention(cap, *other),
        What::Import(name) => say_of_use(database, cap, name.as_slice()),
    }
}

// What the first of some items that says something of a capability says of it.
fn first_say(database: &Database, cap: Cap, items: &[Item]) -> Say
    ensures within { (at : ℕ) → result ≡ Say.HandsOn at → at < length database.now }
    ensures said { result ≡ first_say (readings database.now) cap (map item_of items.now) }
{
    for item in items {
        match say_of(database, cap, &item.what) {
            Say::Silent => {}
            Say::Decisive => return Say::Decisive,
            Say::HandsOn(next) => return Say::HandsOn(next),
        }
    }
    Say::Silent
}

// What a block says first of a capability.
fn say_at(database: &Database, cap: Cap, at: usize) -> Say
    requires { at < length database.now }
    ensures within { (next : ℕ) → result ≡ Say.HandsOn next → next < length database.now }
    ensures said { result ≡ say_at (readings database.now) cap at }
{
    first_say(database, cap, database.items(at))
}

// The block that decides a capability for a block, if it is one of as many as there are.
fn decider_in(database: &Database, cap: Cap, at: usize) -> Option<usize>
    requires { at < length database.now }
    ensures { result ≡ decider_in (readings database.now) cap (length database.now) at }
{
    let mut here = at;
    for _passed in 0..database.len() {
        match say_at(database, cap, here) {
            Say::Silent => return None,
            Say::Decisive => return Some(here),
            Say::HandsOn(next) => here = next,
        }
    }
    None
}

// The block that decides a capability for the block at a position.
fn decider(database: &Database, cap: Cap, at: usize) -> Option<usize>
    requires { at < length database.now }
    ensures { result ≡ decider (readings database.now) cap at }
{
    match say_at(database, cap, at) {
        Say::Silent => None,
        Say::Decisive => Some(at),
        Say::HandsOn(next) => decider_in(database, cap, next),
    }
}

// The block that decides a capability for another, which has a value of it.
fn other_decider(database: &Database, cap: Cap, at: usize) -> Option<usize>
    requires { at < length database.now }
    ensures { result ≡ other_decider (readings database.now) at cap }
{
    if !is_value(said_by(database, cap, at)) {
        return None;
    }
    match decider(database, cap, at) {
        Some(by) if by != at => Some(by),
        _ => None,
    }
}

// Adds the capabilities of a kind that a block inherits.
fn push_inherited(
    found: &mut Vec<Inherited>,
    database: &Database,
    at: usize,
    kind: Kind,
) -> Result<(), AllocError>
    requires { at < length database.now }
    ensures { OnOk result (found.new.items ≡ found.old.items ++ inherited_kind (readings database.now) at kind) }
{
    for index in 0..count(kind) {
        let capability = cap_at(kind, index);
        if let Some(by) = other_decider(database, capability, at) {
            found.push(Inherited { capability, by })?;
        }
    }
    Ok(())
}

// The capabilities that a block inherits.
fn inherited_of(alloc: Global, database: &Database, at: usize) -> Result<Vec<Inherited>, AllocError>
    requires { at < length database.now }
    ensures { IfOk result (λ found. found.items ≡ spec.inherited_of (readings database.now) at) }
{
    let mut found = Vec::new(alloc);
    push_inherited(&mut found, database, at, Kind::Flag)?;
    push_inherited(&mut found, database, at, Kind::Number)?;
    push_inherited(&mut found, database, at, Kind::Text)?;
    Ok(found)
}

// Those of the capabilities that the block at a position decides.
fn decided_by(alloc: Global, by: usize, inherited: &[Inherited]) -> Result<Vec<Cap>, AllocError>
    ensures { IfOk result (λ found. found.items ≡ decided_by by inherited.now) }
{
    let mut found = Vec::new(alloc);
    for one in inherited {
        if one.by == by {
            found.push(one.capability)?;
        }
    }
    Ok(found)
}

// The first of some names that the block at a position owns, as a report shows it.
fn own_name(
    alloc: Global,
    database: &Database,
    at: usize,
    names: &[RcSlice<u8>],
) -> Result<String, AllocError>
    ensures { IfOk result (λ name. string_bytes name ≡ own_name database.now at (map rc_slice_items names.now)) }
{
    for name in names {
        if is_owner(database, name.as_slice(), at) {
            return shown_detail(alloc, name.as_slice());
        }
    }
    Ok(String::new(alloc))
}

// Adds a block with the capabilities that it decides, if there are any.
fn push_source(
    alloc: Global,
    sources: &mut Vec<DecidingBlock>,
    database: &Database,
    by: usize,
    names: &[RcSlice<u8>],
    capabilities: Vec<Cap>,
) -> Result<(), AllocError>
    ensures { OnOk result (map source_seen sources.new.items
        ≡ map source_seen sources.old.items ++ source_with (own_name database.now by (map rc_slice_items names.now)) capabilities.items) }
{
    if capabilities.is_empty() {
        return Ok(());
    }
    sources.push(DecidingBlock {
        name: own_name(alloc, database, by, names)?,
        capabilities,
    })?;
    Ok(())
}

// The blocks that decide the capabilities.
fn sources_from(
    alloc: Global,
    database: &Database,
    inherited: &[Inherited],
) -> Result<Vec<DecidingBlock>, AllocError>
    ensures { IfOk result (λ sources. map source_seen sources.items ≡ sources_from database.now inherited.now 0 database.now) }
{
    let mut sources = Vec::new(alloc);
    for by in 0..database.len() {
        let capabilities = decided_by(alloc, by, inherited)?;
        let names = database.names(by);
        push_source(alloc, &mut sources, database, by, names, capabilities)?;
    }
    Ok(sources)
}

// The blocks that decide what a block inherits.
fn sources_of(
    alloc: Global,
    database: &Database,
    at: usize,
) -> Result<Vec<DecidingBlock>, AllocError>
    requires { at < length database.now }
    ensures { IfOk result (λ sources. map source_seen sources.items ≡ spec.sources_of database.now at) }
{
    let inherited = inherited_of(alloc, database, at)?;
    sources_from(alloc, database, &inherited)
}

/// The blocks that decide what the entry of the owner of a name inherits, in the order of the
/// source, each with the capabilities in the order of the compiled entry; none if there is no such
/// entry. Each is named by the first of its lookup names that it owns.
///
/// # Errors
/// Out of memory.
pub fn sources_named(
    alloc: Global,
    database: &Database,
    name: &[u8],
) -> Result<Vec<DecidingBlock>, AllocError>
    ensures { IfOk result (λ sources. map source_seen sources.items ≡ spec.sources_named database.now name.now) }
{
    match database.owner(name) {
        Some(at) if database.compiled(at).is_some() => sources_of(alloc, database, at),
        _ => Ok(Vec::new(alloc)),
    }
}

/// A law, with no code: at most one block decides a capability.
pub fn one_block_decides()
    ensures { spec.OneBlockDecides }
{}

/// A law, with no code: a capability that a block says something of once its uses are expanded is
/// decided by some block, and that is the block that is looked for. It speaks of blocks in which
/// the leftmost mention decides, as in those of a source.
pub fn deciders_are_found()
    ensures found { spec.DecidersAreFound }
    ensures some { spec.SomeBlockDecides }
{}

/// A law, with no code: what a block says of a capability once its uses are expanded is what the
/// block says that decides it. It speaks of blocks in which the leftmost mention decides, as in
/// those of a source.
pub fn deciders_say_it()
    ensures { spec.DecidersSayIt }
{}

/// A law, with no code: a block that decides what another inherits is shown under a name that it
/// owns.
pub fn sources_own_their_names()
    ensures { spec.SourcesOwnTheirNames }
{}
