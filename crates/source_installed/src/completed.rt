//! A source with blocks of names after it.
ghost use Rattle.std.specs.Prelude.{◌≡◌, ◌++◌, IfOk, OnOk, map};
ghost use Rattle.std.specs.List.{flat_map};
ghost use Rattle.std.specs.String.{string_bytes};
ghost use Rattle.source_blocks.specs.Places.{missing_newline};
ghost use Rattle.source_installed.specs.Completed as spec;
ghost use Rattle.source_installed.specs.Completed.{block_of};

use std::alloc::{AllocError, Global};
use tools_sources::is_ended;

// Adds the newline that a text lacks at its end, if it lacks one.
fn end_line(text: &mut Vec<u8>) -> Result<(), AllocError>
    ensures { OnOk result (text.new.items ≡ text.old.items ++ missing_newline text.old.items) }
{
    if !is_ended(text) {
        text.push(b'\n')?;
    }
    Ok(())
}

// Adds a block that has nothing but a name.
fn push_block(text: &mut Vec<u8>, name: &str) -> Result<(), AllocError>
    ensures { OnOk result (text.new.items ≡ text.old.items ++ block_of name.now) }
{
    text.extend_from_slice(name.as_bytes())?;
    text.extend_from_slice(b",\n")
}

// Adds such a block for each name.
fn push_blocks(text: &mut Vec<u8>, names: &[String]) -> Result<(), AllocError>
    ensures { OnOk result (text.new.items ≡ text.old.items ++ flat_map block_of (map string_bytes names.now)) }
{
    for name in names {
        push_block(text, name.as_str())?;
    }
    Ok(())
}

/// A text with a block after it for each name, which has nothing but the name.
///
/// # Errors
/// Out of memory.
pub(crate) fn completed(alloc: Global, text: &[u8], names: &[String]) -> Result<Vec<u8>, AllocError>
    ensures { IfOk result (λ all. all.items ≡ spec.completed text.now (map string_bytes names.now)) }
{
    let mut all = Vec::from_slice(alloc, text)?;
    end_line(&mut all)?;
    push_blocks(&mut all, names)?;
    Ok(all)
}
