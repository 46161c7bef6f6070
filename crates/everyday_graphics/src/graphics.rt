//! Whether a block lacks `acsc`, and what it says with that of a VT100.
ghost use Rattle.std.specs.Prelude.{◌≡◌, ◌<◌, IfOk, OnOk, is_some, option_map};
ghost use Rattle.ti_caps.specs.Tables.{Capability, capability, count_of};
ghost use Rattle.ti_layout.specs.Laws.{without_cancel};
ghost use Rattle.ti_layout.specs.Values.{content_of, contents};
ghost use Rattle.everyday_graphics.specs.Graphics as spec;

use std::alloc::{AllocError, Global};
use std::rc::RcSlice;
use ti_caps::{Cap, Kind};
use ti_layout::{Table, Value};

// The places of the capabilities in the list of strings.
const SMACS: usize = 25;

const RMACS: usize = 38;

const ACSC: usize = 146;

// The `acsc` of a VT100.
const VT100_ACSC: &[u8] = b"``aaffggiijjkkllmmnnooppqqrrssttuuvvwwxxyyzz{{||}}~~";

// What a table says of the string capability at a place.
fn text_at(table: &Table, index: usize) -> Option<&Value>
    requires { index < count_of Kind.Text }
    ensures { option_map (λ v. content_of v.now) result ≡ contents table.now (capability Kind.Text index) }
{
    match Cap::at(Kind::Text, index) {
        Some(cap) => table.get(cap),
        None => None,
    }
}

// Whether a value is there that is no cancel.
fn is_present(value: Option<&Value>) -> bool
    ensures { result ≡ is_some (without_cancel (option_map (λ v. content_of v.now) value.entry)) }
{
    match value {
        Some(Value::Cancelled) => false,
        Some(_) => true,
        None => false,
    }
}

/// Whether a block lacks `acsc` that says what a table has.
pub(crate) fn lacks_acsc(table: &Table) -> bool
    ensures { result ≡ spec.lacks_acsc (contents table.now) }
{
    is_present(text_at(table, SMACS))
        && is_present(text_at(table, RMACS))
        && text_at(table, ACSC).is_none()
}

// Gives a table the `acsc` of a VT100.
fn give_acsc(alloc: Global, table: &mut Table) -> Result<(), AllocError>
    ensures { OnOk result ((c : Capability) → contents table.new c ≡ spec.with_acsc (contents table.old) c) }
{
    match Cap::at(Kind::Text, ACSC) {
        Some(cap) => {
            let text = RcSlice::from_slice(alloc, VT100_ACSC)?;
            table.set(cap, Some(Value::Text(text)))
        }
        None => unreachable!(),
    }
}

/// What a table has, with the `acsc` of a VT100.
///
/// # Errors
/// Out of memory.
pub(crate) fn with_acsc(alloc: Global, table: &Table) -> Result<Table, AllocError>
    ensures { IfOk result (λ new. (c : Capability) → contents new c ≡ spec.with_acsc (contents table.now) c) }
{
    let mut new = Table::new(alloc);
    new.merge(table)?;
    give_acsc(alloc, &mut new)?;
    Ok(new)
}
