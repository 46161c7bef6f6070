//! What is offered in place of a user-defined name that is not known.
ghost use Rattle.std.specs.Prelude.{◌≡◌, ◌<◌, ◌++◌, ◌^◌, All, IfOk, OnOk, map};
ghost use Rattle.source_descriptions.specs.UserDescriptions.{user_description_seen};
ghost use Rattle.source_edits.specs.Edits.{edit_seen, renames};
ghost use Rattle.source_fixes.specs.UserNames.{user_names, user_renames, user_renames_by};

use source_descriptions::{UserDescription, user_descriptions};
use source_document::Capabilities;
use source_edits::{Edit, bytes_of, push_nearest, written_name};
use source_hints::is_unknown_name;
use std::alloc::{AllocError, Global};

// The names that these are about.
fn names_in(alloc: Global, all: &[UserDescription]) -> Result<Vec<&[u8]>, AllocError>
    ensures { IfOk result (λ names. map (λ name. name.now) names.items ≡ map (λ said. (user_description_seen said).name) all.now) }
{
    let mut names = Vec::with_capacity(alloc, all.len())?;
    for said in all {
        names.push(said.name.as_bytes())?;
    }
    Ok(names)
}

// Adds the nearest of the names that are known in place of one.
fn push_renames(
    alloc: Global,
    edits: &mut Vec<Edit>,
    name: &[(u8, usize)],
) -> Result<(), AllocError>
    requires { All (λ x. x.1 < 2 ^ 63) name.now }
    ensures { OnOk result (map edit_seen edits.new.items ≡ map edit_seen edits.old.items ++ renames name.now user_names) }
{
    let all = user_descriptions(alloc)?;
    let names = names_in(alloc, &all)?;
    push_nearest(alloc, edits, name, &names)
}

// Adds the nearest of the names that are known in place of that of an item, if that is user-defined
// and not known.
fn push_if_unknown(
    alloc: Global,
    edits: &mut Vec<Edit>,
    item: &[(u8, usize)],
) -> Result<(), AllocError>
    requires { All (λ x. x.1 < 2 ^ 63) item.now }
    ensures { OnOk result (map edit_seen edits.new.items ≡ map edit_seen edits.old.items ++ user_renames item.now) }
{
    let name = written_name(item);
    let bytes = bytes_of(alloc, name)?;
    if !is_unknown_name(&bytes) {
        return Ok(());
    }
    push_renames(alloc, edits, name)
}

/// Adds the same in a source with these capabilities.
///
/// # Errors
/// Out of memory.
pub(crate) fn push_user_names(
    alloc: Global,
    edits: &mut Vec<Edit>,
    capabilities: Capabilities,
    item: &[(u8, usize)],
) -> Result<(), AllocError>
    requires { All (λ x. x.1 < 2 ^ 63) item.now }
    ensures { OnOk result (map edit_seen edits.new.items ≡ map edit_seen edits.old.items ++ user_renames_by capabilities item.now) }
{
    match capabilities {
        Capabilities::Profile => Ok(()),
        Capabilities::UserDefined => push_if_unknown(alloc, edits, item),
    }
}
