//! Which names lead to a block: those that it owns, and that an item `use=` can give.
ghost use Rattle.std.specs.Prelude.{◌≡◌, IfOk};
ghost use Rattle.base_meaning.specs.Owner.{is_owner, readings};
ghost use Rattle.source_blocks.specs.Giving as spec;

use source_spans::uses_of;
use std::alloc::{AllocError, Global};
use ti_base::Database;
use ti_source::is_lookup_name;

/// Whether a name belongs to the block at that position.
pub fn is_owner(database: &Database, name: &[u8], at: usize) -> bool
    ensures { result ≡ is_owner (readings database.now) name.now at }
{
    match database.owner(name) {
        Some(place) => place == at,
        None => false,
    }
}

// A block that has a name and uses it.
fn block_with(alloc: Global, name: &[u8]) -> Result<Vec<u8>, AllocError>
    ensures { IfOk result (λ block. block.items ≡ spec.block_with name.now) }
{
    let mut block = Vec::from_slice(alloc, name)?;
    block.extend_from_slice(b",use=")?;
    block.extend_from_slice(name)?;
    block.extend_from_slice(b",")?;
    Ok(block)
}

/// Whether a block can have a name and another can use it, as the source is written.
///
/// # Errors
/// Out of memory.
pub fn can_be_given(alloc: Global, name: &[u8]) -> Result<bool, AllocError>
    ensures { IfOk result (λ can. can ≡ spec.can_be_given name.now) }
{
    if !is_lookup_name(name) {
        return Ok(false);
    }
    let block = block_with(alloc, name)?;
    let uses = uses_of(alloc, &block)?;
    for found in &uses {
        if found.name.as_slice() == name {
            return Ok(true);
        }
    }
    Ok(false)
}
