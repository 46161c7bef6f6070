//! The values of the tables after changes.
ghost use Rattle.std.specs.Prelude.{◌≡◌, ◌≢◌, ◌<◌, All, IfOk, OnOk, if◌then◌else◌, option_map};
ghost use Rattle.std.specs.Str.{bytes_eq};
ghost use Rattle.ti_caps.specs.Tables.{Capability, IsCapability, capability, count_of, name_of};
ghost use Rattle.ti_layout.specs.Values.{content_of, content_seen, contents};
ghost use Rattle.ti_layout.specs.View.{view_contents};
ghost use Rattle.user_changing.specs.Changes as spec;
ghost use Rattle.user_changing.specs.Changes.{CanBeMade, edits_of};

use crate::change::Change;
use std::alloc::{AllocError, Global};
use std::rc::RcSlice;
use ti_caps::{Cap, Kind, count, name};
use ti_layout::{Content, Table, Value, View};

// What the capability of a name has after a change.
fn after_one<'a>(change: &Change<'a>, name: &[u8], held: Option<Content<'a>>) -> Option<Content<'a>>
    ensures { option_map content_seen result
        ≡ (if bytes_eq change.now.name.now name.now then option_map content_seen change.now.value else option_map content_seen held.entry) }
{
    if change.name == name {
        change.value
    } else {
        held
    }
}

// What the capability of a name has after changes: the last that names it decides.
fn after<'a>(changes: &[Change<'a>], name: &[u8], held: Option<Content<'a>>) -> Option<Content<'a>>
    ensures { option_map content_seen result ≡ spec.after (edits_of changes.now) name.now (option_map content_seen held.entry) }
{
    let mut has = held;
    for change in changes {
        has = after_one(change, name, has);
    }
    has
}

// A value with its text in memory of its own.
fn value_of(alloc: Global, content: Content<'_>) -> Result<Value, AllocError>
    ensures { IfOk result (λ value. content_of value ≡ content_seen content.entry) }
{
    Ok(match content {
        Content::True => Value::True,
        Content::Number(number) => Value::Number(number),
        Content::Text(text) => Value::Text(RcSlice::from_slice(alloc, text)?),
        Content::Cancelled => Value::Cancelled,
    })
}

// Gives a capability of a table what it has after changes of an entry.
fn give(
    alloc: Global,
    table: &mut Table,
    entry: &View<'_>,
    changes: &[Change<'_>],
    cap: Cap,
) -> Result<(), AllocError>
    requires changes { All CanBeMade (edits_of changes.now) }
    requires valid { IsCapability cap }
    ensures given { OnOk result (contents table.new cap ≡ spec.after (edits_of changes.now) (name_of cap) (view_contents entry.now cap)) }
    ensures others { OnOk result ((c : Capability) → c ≢ cap → contents table.new c ≡ contents table.old c) }
{
    // A law, with no code: the name of a capability leads back to it.
    ti_caps::laws::every_name_is_found();
    match after(changes, name(cap).as_bytes(), entry.get(cap)) {
        Some(content) => {
            let value = value_of(alloc, content)?;
            table.set(cap, Some(value))
        }
        None => table.set(cap, None),
    }
}

// Gives the capability of a kind at an index what it has after changes of an entry.
fn give_at(
    alloc: Global,
    table: &mut Table,
    entry: &View<'_>,
    changes: &[Change<'_>],
    kind: Kind,
    index: usize,
) -> Result<(), AllocError>
    requires changes { All CanBeMade (edits_of changes.now) }
    requires within { index < count_of kind }
    ensures given { OnOk result (contents table.new (capability kind index)
        ≡ spec.after (edits_of changes.now) (name_of (capability kind index)) (view_contents entry.now (capability kind index))) }
    ensures others { OnOk result ((c : Capability) → c ≢ capability kind index → contents table.new c ≡ contents table.old c) }
{
    match Cap::at(kind, index) {
        Some(cap) => give(alloc, table, entry, changes, cap),
        None => Ok(()),
    }
}

// Gives each capability of a kind what it has after changes of an entry.
fn give_kind(
    alloc: Global,
    table: &mut Table,
    entry: &View<'_>,
    changes: &[Change<'_>],
    kind: Kind,
) -> Result<(), AllocError>
    requires { All CanBeMade (edits_of changes.now) }
    ensures given { OnOk result ((c : Capability) → IsCapability c → c.kind ≡ kind
        → contents table.new c ≡ spec.after (edits_of changes.now) (name_of c) (view_contents entry.now c)) }
    ensures others { OnOk result ((c : Capability) → c.kind ≢ kind → contents table.new c ≡ contents table.old c) }
{
    for index in 0..count(kind) {
        give_at(alloc, table, entry, changes, kind, index)?;
    }
    Ok(())
}

/// The values of the tables after changes of an entry.
///
/// # Errors
/// Out of memory.
pub(crate) fn table_after(
    alloc: Global,
    entry: &View<'_>,
    changes: &[Change<'_>],
) -> Result<Table, AllocError>
    requires { All CanBeMade (edits_of changes.now) }
    ensures { IfOk result (λ table. (c : Capability) → IsCapability c
        → contents table c ≡ spec.after (edits_of changes.now) (name_of c) (view_contents entry.now c)) }
{
    let mut table = Table::new(alloc);
    give_kind(alloc, &mut table, entry, changes, Kind::Flag)?;
    give_kind(alloc, &mut table, entry, changes, Kind::Number)?;
    give_kind(alloc, &mut table, entry, changes, Kind::Text)?;
    Ok(table)
}
