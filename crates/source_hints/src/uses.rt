//! Items after a `use=` whose entry says their capability too.
ghost use Rattle.std.specs.Prelude.{◌≡◌, ◌^◌, ◌++◌, ◌<◌, All, IfOk, OnOk, ℕ, [], Some, is_some, length, map, option_map, option_to_list};
ghost use Rattle.ti_source.specs.Items.{bytes};
ghost use Rattle.ti_source.specs.Stating.{statement_of, statement_seen};
ghost use Rattle.ti_layout.specs.Values.{content_of};
ghost use Rattle.base_meaning.specs.Owner.{readings};
ghost use Rattle.source_spans.specs.Parts.{IsWithin, part_of};
ghost use Rattle.source_block_hints.specs.Mentions.{has, number_said};
ghost use Rattle.source_hints.specs.Uses as spec;

use source_block_hints::{
    Found, Hint, HintKind, is_among, mention_in, note, number_said, push_hints, text_of,
};
use source_spans::{Part, folded, visible_items};
use std::alloc::{AllocError, Global};
use ti_base::Database;
use ti_caps::Cap;
use ti_layout::Value;
use ti_source::{Claim, Statement, statement_of, strip};

// What the block at a position says of a capability once its uses are expanded.
fn said_at(database: &Database, cap: Cap, at: usize) -> Option<&Value>
    requires { at < length database.now }
    ensures { option_map (λ value. content_of value.now) result ≡ spec.said_at (readings database.now) cap at }
{
    match database.values(at) {
        Some(values) => values.get(cap),
        None => None,
    }
}

// Whether the block at a position says something of a capability.
#[tactic(auto, using(crate::proofs::Using::none_said))]
fn block_says(database: &Database, cap: Cap, at: usize) -> bool
    ensures { result ≡ is_some (spec.said_at (readings database.now) cap at) }
{
    if at < database.len() {
        said_at(database, cap, at).is_some()
    } else {
        false
    }
}

// Whether one of the blocks at these positions says something of a capability.
fn one_says(database: &Database, uses: &[usize], cap: Cap) -> bool
    ensures { result ≡ spec.one_says (readings database.now) cap uses.now }
{
    for at in uses {
        if block_says(database, cap, *at) {
            return true;
        }
    }
    false
}

// The same, if there is a capability.
fn use_says(database: &Database, uses: &[usize], cap: Option<Cap>) -> bool
    ensures { result ≡ spec.use_says (readings database.now) uses.now cap }
{
    match cap {
        Some(cap) => one_says(database, uses, cap),
        None => false,
    }
}

// The block that owns the name that a statement uses.
fn owner_used(database: &Database, statement: &Statement<'_>) -> Option<usize>
    ensures { result ≡ spec.owner_used (readings database.now) (Some (statement_seen statement.now)) }
{
    if let Claim::Text(value) = statement.claim
        && statement.name == b"use".as_slice()
    {
        return database.owner(strip(value));
    }
    None
}

// The block that owns the name that the text of an item uses.
fn owner_in(database: &Database, text: &[u8]) -> Option<usize>
    ensures { result ≡ spec.owner_in (readings database.now) text.now }
{
    let statement = statement_of(text)?;
    owner_used(database, &statement)
}

// Adds a number, if there is one.
fn push_number(numbers: &mut Vec<usize>, number: Option<usize>) -> Result<(), AllocError>
    ensures { OnOk result (numbers.new.items ≡ numbers.old.items ++ option_to_list number) }
{
    if let Some(number) = number {
        numbers.push(number)?;
    }
    Ok(())
}

// An item that a use before it has.
fn after_found(alloc: Global, said: bool, text: &[u8]) -> Result<Vec<Found>, AllocError>
    ensures { IfOk result (λ found. found.items ≡ spec.after_found said (statement_of text.now)) }
{
    let mut found = Vec::new(alloc);
    if !said {
        return Ok(found);
    }
    if let Some(statement) = statement_of(text) {
        found.push(Found {
            kind: HintKind::SaidAfterUse,
            part: Part {
                start: 0,
                end: statement.name.len(),
            },
        })?;
    }
    Ok(found)
}

// Whether an item of this text is after a use that has its capability, and no item before says it.
fn is_after_use(database: &Database, said: &[usize], uses: &[usize], text: &[u8]) -> bool
    ensures { result ≡ spec.is_after_use (readings database.now) said.now uses.now text.now }
{
    !is_among(said, number_said(text)) && use_says(database, uses, mention_in(text))
}

// Appends the hints on an item, if items before it say the capabilities of these numbers and use the
// blocks at these positions, and notes what it says and uses.
fn push_item(
    alloc: Global,
    database: &Database,
    hints: &mut Vec<Hint>,
    said: &mut Vec<usize>,
    uses: &mut Vec<usize>,
    item: &[(u8, usize)],
) -> Result<(), AllocError>
    requires { All (λ x. x.1 < 2 ^ 63) item.now }
    ensures hints { OnOk result (hints.new.items
        ≡ hints.old.items ++ spec.use_hints (readings database.now) said.old.items uses.old.items item.now) }
    ensures said { OnOk result ((n : ℕ) → has n said.new.items
        ≡ has n (said.old.items ++ option_to_list (number_said (bytes item.now)))) }
    ensures uses { OnOk result (uses.new.items ≡ uses.old.items ++ option_to_list (spec.owner_in (readings database.now) (bytes item.now))) }
{
    let text = text_of(alloc, item)?;
    let found = after_found(alloc, is_after_use(database, said, uses, &text), &text)?;
    push_hints(hints, item, &found)?;
    note(said, number_said(&text))?;
    push_number(uses, owner_in(database, &text))
}

// The hints on the items of a folded text.
fn hints_from(
    alloc: Global,
    database: &Database,
    text: &[(u8, usize)],
    items: &[Part],
) -> Result<Vec<Hint>, AllocError>
    requires within { All (IsWithin text.now) items.now }
    requires offsets { All (λ x. x.1 < 2 ^ 63) text.now }
    ensures { IfOk result (λ hints. hints.items ≡ spec.hints_from (readings database.now) [] [] (map (part_of text.now) items.now)) }
{
    let mut hints = Vec::new(alloc);
    let mut said = Vec::new(alloc);
    let mut uses = Vec::new(alloc);
    for at in 0..items.len() {
        let part = items[at];
        let item = &text[part.start..part.end];
        push_item(alloc, database, &mut hints, &mut said, &mut uses, item)?;
    }
    Ok(hints)
}

/// The hints on the items of the block at a position of a source that are after a `use=` whose block
/// says their capability too, in their order: `ti tic` takes the use, `ti-tic` and ncurses the item. What
/// is quoted is the name. A capability that an item before says is left out: it is said twice.
///
/// # Errors
/// Out of memory.
#[tactic(auto, unfolding(crate::specs::Uses::after_uses))]
pub fn hints_after_uses(
    alloc: Global,
    database: &Database,
    at: usize,
) -> Result<Vec<Hint>, AllocError>
    requires { at < length database.now }
    ensures { IfOk result (λ hints. hints.items ≡ spec.after_uses database.now at) }
{
    let text = folded(alloc, database.text(at))?;
    let items = visible_items(alloc, &text)?;
    hints_from(alloc, database, &text, &items)
}
