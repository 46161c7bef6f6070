//! The items of a block one after another, each as its text, for readers of further names.
ghost use Rattle.std.specs.Prelude.{◌≡◌, ◌+◌, ◌≤◌, IfOk, length, option_map};
ghost use Rattle.std.specs.Option.{option_map_or};
ghost use Rattle.ti_source.specs.Items.{item_piece};
ghost use Rattle.ti_source.specs.Walking.{block_items};
ghost use Rattle.ti_source.specs.Walking.{TakesNext};

use crate::folding::Folded;
use crate::items::{RawItem, read_field, read_item};
use std::alloc::{AllocError, Global};
use std::marker::Model;

/// A walk over the items of a block, from left to right.
#[derive(Drop)]
pub struct ItemWalk<'a> {
    source: Folded<'a>,
    // Whether an item is left.
    more: bool,
}

impl<'a> Model for ItemWalk<'a> {
    ghost use Rattle.std.specs.Prelude.{List, [], if◌then◌else◌};
    ghost use Rattle.ti_text.specs.Ascii as ascii;
    ghost use Rattle.ti_source.specs.Folding.{PlacedByte};
    ghost use Rattle.ti_source.specs.declared.items.Escape.TheVariants as escape;
    ghost use Rattle.ti_source.specs.inside.Items.{items_of};

    ghost Value = { List (List PlacedByte) };

    ghost view = { λ w. if w.more then items_of escape.Nothing ascii.comma w.source else [] };
}

impl<'a> ItemWalk<'a> {
    /// The items after the names field of a block.
    ///
    /// # Errors
    /// Out of memory.
    pub fn new(alloc: Global, block: &'a [u8]) -> Result<ItemWalk<'a>, AllocError>
        ensures items { IfOk result (λ walk. walk ≡ block_items block.now) }
        ensures few { IfOk result (λ walk. length walk ≤ length block.now + 1) }
    {
        let mut source = Folded::new(block);
        read_field(alloc, &mut source)?;
        Ok(ItemWalk { source, more: true })
    }

    /// Takes the next item, if one is left. Its text, without white space at its front, is part of
    /// the block, or is left in `room`.
    ///
    /// # Errors
    /// Out of memory.
    pub fn take(&mut self, room: &mut Vec<u8>) -> Result<Option<RawItem<'a>>, AllocError>
        ensures { IfOk result (λ item. TakesNext self.old (option_map (λ i. item_piece (option_map_or (λ t. t.now) i.whole room.new.items) i.line) item) self.new) }
    {
        if !self.more {
            return Ok(None);
        }
        let item = read_item(&mut self.source, room)?;
        self.more = !item.last;
        Ok(Some(item))
    }
}
