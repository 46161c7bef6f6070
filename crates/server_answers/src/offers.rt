//! The capabilities as a completion offers them.
ghost use Rattle.std.specs.Prelude.{◌≡◌, ◌<◌, ◌++◌, IfOk, OnOk, Some, map, slice_get};
ghost use Rattle.std.specs.String.{string_bytes};
ghost use Rattle.serde_json.specs.View.{view};
ghost use Rattle.ti_caps.specs.NameOrder.{in_name_order};
ghost use Rattle.ti_caps.specs.Tables.{count_of};
ghost use Rattle.source_descriptions.specs.UserDescriptions.{user_description_seen};
ghost use Rattle.source_diagnostics.specs.declared.capabilities.Capabilities.TheVariants.{UserDefined};
ghost use Rattle.server_answers.specs.Offers as spec;
ghost use Rattle.server_answers.specs.Offers.{all_capabilities, byte_at, capability_item, is_obsolete, user_detail, user_item, user_items};

use lsp_values::answers::{item_value, later_item_value, obsolete_item_value};
use serde_json::Value;
use source_descriptions::{UserDescription, detail_of, documentation_of, user_descriptions};
use source_document::Capabilities;
use source_types::{ItemKind, Range};
use std::alloc::{AllocError, Global};
use ti_caps::{Cap, Kind, by_name, count, name};

// The byte of a name at that place, or 0 after the end.
fn byte_at(name: &[u8], at: usize) -> u8
    ensures { result ≡ byte_at name.now at }
{
    match name.get(at) {
        Some(byte) => *byte,
        None => 0,
    }
}

// Whether a name is one of termcap's that is obsolete.
fn is_obsolete(name: &str) -> bool
    ensures { result ≡ is_obsolete name.now }
{
    let name = name.as_bytes();
    byte_at(name, 0) == b'O' && byte_at(name, 1) == b'T'
}

// The item of a capability.
fn capability_item(alloc: Global, cap: Cap, range: Range) -> Result<Value, AllocError>
    ensures { IfOk result (λ v. view v ≡ capability_item range cap) }
{
    let label = name(cap);
    let detail = detail_of(alloc, cap)?;
    let detail = detail.as_str();
    let documentation = documentation_of(alloc, cap)?;
    let documentation = documentation.as_str();
    let kind = ItemKind::Capability;
    if is_obsolete(label) {
        obsolete_item_value(alloc, kind, label, detail, documentation, range)
    } else {
        item_value(alloc, kind, label, detail, Some(documentation), range)
    }
}

// The capability at a place of the order by name.
fn cap_at(kind: Kind, place: usize) -> Cap
    requires { place < count_of kind }
    ensures { slice_get (in_name_order kind) place ≡ Some result }
{
    by_name(kind, place).unwrap()
}

// Appends the items of a kind, by name.
fn push_items(
    alloc: Global,
    items: &mut Vec<Value>,
    kind: Kind,
    range: Range,
) -> Result<(), AllocError>
    ensures { OnOk result (map view items.new.items
        ≡ map view items.old.items ++ map (capability_item range) (in_name_order kind)) }
{
    for place in 0..count(kind) {
        items.push(capability_item(alloc, cap_at(kind, place), range)?)?;
    }
    Ok(())
}

// The items of the capabilities of the tables: the booleans, the numbers and the strings, each by
// name.
fn items_of_tables(alloc: Global, range: Range) -> Result<Vec<Value>, AllocError>
    ensures { IfOk result (λ items. map view items.items ≡ map (capability_item range) all_capabilities) }
{
    let mut items = Vec::new(alloc);
    push_items(alloc, &mut items, Kind::Flag, range)?;
    push_items(alloc, &mut items, Kind::Number, range)?;
    push_items(alloc, &mut items, Kind::Text, range)?;
    Ok(items)
}

// What is said of a user-defined capability besides its name and its sentence.
fn user_detail(alloc: Global, said: &UserDescription) -> Result<String, AllocError>
    ensures { IfOk result (λ text. string_bytes text ≡ user_detail (user_description_seen said.now)) }
{
    let kinds = said.kinds;
    format!(in alloc; "user-defined, {kinds}")
}

// The item of a user-defined capability.
fn user_item(alloc: Global, said: &UserDescription, range: Range) -> Result<Value, AllocError>
    ensures { IfOk result (λ v. view v ≡ user_item range (user_description_seen said.now)) }
{
    let detail = user_detail(alloc, said)?;
    later_item_value(
        alloc,
        ItemKind::Capability,
        said.name.as_str(),
        detail.as_str(),
        said.documentation.as_str(),
        range,
    )
}

// Appends the items of user-defined capabilities.
fn push_user_items(
    alloc: Global,
    items: &mut Vec<Value>,
    all: &[UserDescription],
    range: Range,
) -> Result<(), AllocError>
    ensures { OnOk result (map view items.new.items
        ≡ map view items.old.items ++ map (user_item range) (map user_description_seen all.now)) }
{
    for said in all {
        items.push(user_item(alloc, said, range)?)?;
    }
    Ok(())
}

// Appends the items of the user-defined capabilities that are known.
fn push_known(alloc: Global, items: &mut Vec<Value>, range: Range) -> Result<(), AllocError>
    ensures { OnOk result (map view items.new.items ≡ map view items.old.items ++ user_items UserDefined range) }
{
    let all = user_descriptions(alloc)?;
    push_user_items(alloc, items, all.as_slice(), range)
}

/// The items of a completion that offer each capability that a source may have in place of a range:
/// the booleans, the numbers and the strings, each by name, and then the user-defined ones that are
/// known.
///
/// # Errors
/// Out of memory.
pub fn capability_items(
    alloc: Global,
    capabilities: Capabilities,
    range: Range,
) -> Result<Vec<Value>, AllocError>
    ensures { IfOk result (λ items. map view items.items ≡ spec.capability_items capabilities range) }
{
    let mut items = items_of_tables(alloc, range)?;
    match capabilities {
        Capabilities::Profile => {}
        Capabilities::UserDefined => push_known(alloc, &mut items, range)?,
    }
    Ok(items)
}
