//! What is offered against a use of a name that no block has.
ghost use Rattle.std.specs.Prelude.{◌≡◌, ◌<◌, ◌++◌, ◌^◌, All, IfOk, OnOk, length, map, option_map};
ghost use Rattle.ti_source.specs.Parsing.{reading_of_text};
ghost use Rattle.base_meaning.specs.OwnNames.{own_names};
ghost use Rattle.base_meaning.specs.Owner.{readings};
ghost use Rattle.source_spans.specs.Subjects.{used_name};
ghost use Rattle.source_document.specs.Diagnostics.{text_at};
ghost use Rattle.source_edits.specs.Edits.{edit_seen};
ghost use Rattle.source_fixes.specs.Fixes as spec;
ghost use Rattle.source_fixes.specs.Fixes.{others_in, used_edits};

use crate::giving::given_names;
use source_blocks::is_owner;
use source_edits::{Edit, bytes_of, push_nearest, used_of};
use std::alloc::{AllocError, Global};
use ti_base::{Database, distinct_names};

// Adds the names that the block at that position owns, each once.
fn push_owned<'a>(
    alloc: Global,
    names: &mut Vec<&'a [u8]>,
    database: &'a Database,
    at: usize,
) -> Result<(), AllocError>
    requires { at < length database.now }
    ensures { OnOk result (map (λ name. name.now) names.new.items
        ≡ map (λ name. name.now) names.old.items ++ own_names (readings database.now) at (reading_of_text (text_at database.now at)).names) }
{
    let once = distinct_names(alloc, database.names(at))?;
    for name in &once {
        let name = name.as_slice();
        if is_owner(database, name, at) {
            names.push(name)?;
        }
    }
    Ok(())
}

// Adds them unless it is the block at the position `own`.
fn push_other<'a>(
    alloc: Global,
    names: &mut Vec<&'a [u8]>,
    database: &'a Database,
    own: usize,
    at: usize,
) -> Result<(), AllocError>
    requires { at < length database.now }
    ensures { OnOk result (map (λ name. name.now) names.new.items
        ≡ map (λ name. name.now) names.old.items ++ others_in database.now own (at, text_at database.now at)) }
{
    if at == own {
        return Ok(());
    }
    push_owned(alloc, names, database, at)
}

// The lookup names of all blocks but the one at that position.
fn other_names(alloc: Global, database: &Database, own: usize) -> Result<Vec<&[u8]>, AllocError>
    ensures { IfOk result (λ names. map (λ name. name.now) names.items ≡ spec.other_names database.now own) }
{
    let mut names = Vec::new(alloc);
    for at in 0..database.len() {
        push_other(alloc, &mut names, database, own, at)?;
    }
    Ok(names)
}

/// Adds the nearest lookup names that a source can give in place of one that an item of the block at
/// that position uses, if no block has it.
pub(crate) fn push_used(
    alloc: Global,
    edits: &mut Vec<Edit>,
    database: &Database,
    at: usize,
    item: &[(u8, usize)],
) -> Result<(), AllocError>
    requires { All (λ x. x.1 < 2 ^ 63) item.now }
    ensures { OnOk result (map edit_seen edits.new.items ≡ map edit_seen edits.old.items ++ used_edits database.now at (used_name item.now)) }
{
    let Some(name) = used_of(item) else {
        return Ok(());
    };
    let bytes = bytes_of(alloc, name)?;
    if database.owner(&bytes).is_some() {
        return Ok(());
    }
    let others = other_names(alloc, database, at)?;
    let given = given_names(alloc, &others)?;
    push_nearest(alloc, edits, name, &given)
}
