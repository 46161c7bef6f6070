//! The names of installed entries as a completion offers them.
ghost use Rattle.std.specs.Prelude.{◌≡◌, ◌++◌, IfOk, OnOk, map};
ghost use Rattle.std.specs.List.{flat_map};
ghost use Rattle.std.specs.String.{string_bytes};
ghost use Rattle.serde_json.specs.View.{view};
ghost use Rattle.server_answers.specs.InstalledOffers.{if_offered, installed_item, installed_items, is_offered, typed_in};

use crate::searching::begins_alike;
use lsp_values::answers::later_item_value;
use serde_json::Value;
use source_document::{Capabilities, Document};
use source_installed::Installed;
use source_places::offset_of;
use source_types::{ItemKind, Range};
use std::alloc::{AllocError, Global};
use ti_base::Database;

// What is said of an installed entry.
const DOCUMENTATION: &str =
    "An entry that is installed. `ti-tic` takes it if no block of the file has the name.";

// The part of a text in a range.
fn typed_in(text: &[u8], range: Range) -> &[u8]
    ensures { result.now ≡ typed_in text.now range }
{
    let start = offset_of(text, range.start);
    let end = offset_of(text, range.end);
    let before = &text[..end];
    &before[start.min(end)..]
}

// Whether an installed name is offered for what is typed: it begins so, whatever the case of its
// letters, and no block has it.
fn is_offered(database: &Database, typed: &[u8], name: &str) -> bool
    ensures { result ≡ is_offered database.now typed.now name.now }
{
    let name = name.as_bytes();
    begins_alike(name, typed) && database.owner(name).is_none()
}

// The item of an installed name.
fn installed_item(alloc: Global, name: &str, range: Range) -> Result<Value, AllocError>
    ensures { IfOk result (λ v. view v ≡ installed_item range name.now) }
{
    later_item_value(
        alloc,
        ItemKind::Entry,
        name,
        "installed entry",
        DOCUMENTATION,
        range,
    )
}

// Adds the item of an installed name, if it is offered for what is typed.
fn push_if_offered(
    alloc: Global,
    items: &mut Vec<Value>,
    name: &str,
    database: &Database,
    typed: &[u8],
    range: Range,
) -> Result<(), AllocError>
    ensures { OnOk result (map view items.new.items ≡ map view items.old.items ++ if_offered database.now typed.now range name.now) }
{
    if is_offered(database, typed, name) {
        items.push(installed_item(alloc, name, range)?)?;
    }
    Ok(())
}

// Adds the items of the installed names that are offered for what is typed.
fn push_offered(
    alloc: Global,
    items: &mut Vec<Value>,
    names: &[String],
    database: &Database,
    typed: &[u8],
    range: Range,
) -> Result<(), AllocError>
    ensures { OnOk result (map view items.new.items
        ≡ map view items.old.items ++ flat_map (if_offered database.now typed.now range) (map string_bytes names.now)) }
{
    for name in names {
        push_if_offered(alloc, items, name.as_str(), database, typed, range)?;
    }
    Ok(())
}

/// Adds the items of the installed names that complete a name that is used, in place of a range of a
/// source that may have these capabilities; none in the profile.
///
/// # Errors
/// Out of memory.
pub fn push_installed(
    alloc: Global,
    items: &mut Vec<Value>,
    capabilities: Capabilities,
    installed: &Installed,
    document: &Document,
    range: Range,
) -> Result<(), AllocError>
    ensures { OnOk result (map view items.new.items
        ≡ map view items.old.items ++ installed_items capabilities installed.now document.now range) }
{
    match capabilities {
        Capabilities::Profile => Ok(()),
        Capabilities::UserDefined => {
            let typed = typed_in(document.text(), range);
            let database = document.database();
            push_offered(alloc, items, installed.names(), database, typed, range)
        }
    }
}
