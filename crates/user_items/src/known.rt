//! The items of a block that has been read.
ghost use Rattle.std.specs.Prelude.{◌≡◌, ◌++◌, IfOk, OnOk, map, flat_map, option_map};
ghost use Rattle.std.specs.List.{list_any};
ghost use Rattle.std.specs.Rc.{rc_slice_items};
ghost use Rattle.ti_source.specs.Reading.{fault_of, item_of};
ghost use Rattle.ti_source.specs.Parsing.{reading_of_text};
ghost use Rattle.user_items.specs.Laws.{is_local_warning, is_unknown, is_warning_with, use_in};
ghost use Rattle.user_items.specs.Parsing.{user_reading_of_text};
ghost use Rattle.user_items.specs.Reading.{user_item_of, user_reading_of};

use crate::laws;
use crate::names::is_user_defined_name;
use crate::reading::{UserItem, UserItems, UserWhat, user_items};
use std::alloc::{AllocError, Global};
use std::rc::RcSlice;
use ti_source::{Code, Item, Local, What};

// Whether a code is that of an unknown name.
fn is_unknown(code: Code) -> bool
    ensures { result ≡ is_unknown code }
{
    matches!(code, Code::UnknownCapability)
}

/// Whether a fault with this code and detail is the warning (W1) of an unknown name that is
/// user-defined. It takes no memory.
pub fn is_user_warning(code: Code, detail: &Option<RcSlice<u8>>) -> bool
    ensures { result ≡ is_warning_with code (option_map rc_slice_items detail.now) }
{
    match detail {
        Some(name) => is_unknown(code) && is_user_defined_name(name.as_slice()),
        None => false,
    }
}

// Whether one of the faults is such a warning.
fn has_user_warning(faults: &[Local]) -> bool
    ensures { result ≡ list_any is_local_warning (map fault_of faults.now) }
{
    for fault in faults {
        if is_user_warning(fault.code, &fault.detail) {
            return true;
        }
    }
    false
}

// Adds an item, if it is a use.
fn add_use(item: &Item, uses: &mut Vec<UserItem>) -> Result<(), AllocError>
    ensures { OnOk result (map user_item_of uses.new.items ≡ map user_item_of uses.old.items ++ use_in (item_of item.now)) }
{
    if let What::Import(name) = &item.what {
        uses.push(UserItem {
            ordinal: item.ordinal,
            line: item.line,
            what: UserWhat::Import(name.clone()?),
        })?;
    }
    Ok(())
}

// The uses among items. Their names are shared.
fn uses_among(alloc: Global, items: &[Item]) -> Result<Vec<UserItem>, AllocError>
    ensures { IfOk result (λ uses. map user_item_of uses.items ≡ flat_map use_in (map item_of items.now)) }
{
    let mut uses = Vec::new(alloc);
    for item in items {
        add_use(item, &mut uses)?;
    }
    Ok(uses)
}

/// The same as `user_items`, for a caller who has the items and faults of the block that
/// `ti_source::parse` gives: most blocks define no name, and so are not read again.
///
/// # Errors
/// Out of memory.
pub fn known_user_items(
    alloc: Global,
    block: &[u8],
    items: &[Item],
    faults: &[Local],
) -> Result<UserItems, AllocError>
    requires items { map item_of items.now ≡ (reading_of_text block.now).items }
    requires faults { map fault_of faults.now ≡ (reading_of_text block.now).faults }
    ensures { IfOk result (λ read. user_reading_of read ≡ user_reading_of_text block.now) }
{
    if has_user_warning(faults) {
        let read = user_items(alloc, block)?;
        return Ok(read);
    }
    // A law, with no code.
    laws::blocks_without_warnings_have_uses_alone();
    Ok(UserItems {
        items: uses_among(alloc, items)?,
        faults: Vec::new(alloc),
    })
}
