//! The blocks of a source, each in a slot under an id that stays with it.
ghost use Rattle.std.specs.Prelude.{◌≡◌, ℕ, [], None, Some, IfOk, option_map};
ghost use Rattle.std.specs.Rc.{rc_slice_items};

use crate::entries::BlockEntry;
use crate::positions::positions_of;
use base_index::{BlockOrder, NameIndex};
use std::alloc::{AllocError, Global};
use std::marker::Model;
use std::mem;
use std::rc::RcSlice;
use ti_compiled::Table;
use ti_source::{Code, Parsed};

/// A fault of a block, any but that of a name which an earlier block owns. It does not depend on
/// the position of the block.
#[derive(Debug, Drop)]
pub struct KeptFault {
    /// The line in the block, counted from 1.
    pub line: usize,
    /// What is wrong.
    pub code: Code,
    /// The name that it is about, if it is about one.
    pub detail: Option<RcSlice<u8>>,
}

/// A copy of the detail. Its bytes are shared.
///
/// # Errors
/// Out of memory.
pub fn copy_detail(detail: &Option<RcSlice<u8>>) -> Result<Option<RcSlice<u8>>, AllocError>
    ensures { IfOk result (λ d. option_map rc_slice_items d ≡ option_map rc_slice_items detail.now) }
{
    Ok(match detail {
        Some(bytes) => Some(bytes.clone()?),
        None => None,
    })
}

/// What becomes of a block.
#[derive(Drop)]
pub enum State {
    /// It does not resolve.
    Unresolved,
    /// It resolves to these values, and its entry is over the limit.
    TooLarge(Table),
    /// It resolves, and this is its entry.
    Compiled(BlockEntry),
}

impl State {
    ghost use Rattle.base_slots.specs.Settled.{slot_entry};

    /// The entry, if the block has one.
    pub fn entry(&self) -> Option<&BlockEntry>
        ensures { option_map (λ entry. entry.now) result ≡ slot_entry self.now }
    {
        match self {
            State::Compiled(entry) => Some(entry),
            _ => None,
        }
    }
}

/// What was found out about a block in its list.
#[derive(Drop)]
pub struct Settled {
    /// What becomes of it.
    pub state: State,
    /// Its faults but those of names that earlier blocks own, in order.
    pub faults: Vec<KeptFault>,
}

/// A block of the list.
#[derive(Drop)]
pub struct Slot {
    /// Its text.
    pub text: Vec<u8>,
    /// The block as it is read.
    pub block: Parsed,
    /// What was found out about it.
    pub settled: Settled,
}

/// The blocks of a source, in the order of their list, each under an id that remains with it while
/// others come and go.
#[derive(Drop)]
pub struct Slots {
    // The ids in the order of the list.
    pub(crate) order: BlockOrder,
    // The blocks that have a name, and those that use it.
    pub(crate) names: NameIndex,
    // The slot of each id of the list.
    pub(crate) slots: Vec<Option<Slot>>,
}

impl Model for Slots {
    ghost use Rattle.base_slots.specs.Listing.{Listing};

    ghost Value = { Listing };

    ghost use Rattle.base_slots.specs.inside.Fields.{listing_of, IsIndexed};

    ghost view = { listing_of };

    ghost invariant = { IsIndexed };
}

impl Slots {
    ghost use Rattle.std.specs.Prelude.{◌<◌, length, slice_get, IfOk};
    ghost use Rattle.base_meaning.specs.Owner.{owner};
    ghost use Rattle.ti_text.specs.Lists.{AreDistinct, Has};
    ghost use Rattle.base_slots.specs.Positions.{ArePositions};
    ghost use Rattle.base_slots.specs.Slots.{blocks_of, holders_of, ids_of, settled_in, slots_of, users_of, IsOwnerId, StandsAt};

    /// No blocks. Takes no memory.
    pub fn new(alloc: Global) -> Slots
        ensures placed { result.placed ≡ [] }
        ensures free { result.free ≡ [] }
    {
        Slots {
            order: BlockOrder::new(alloc),
            names: NameIndex::new(alloc),
            slots: Vec::new(alloc),
        }
    }

    /// How many blocks there are.
    pub fn len(&self) -> usize
        ensures { result ≡ length self.now.placed }
    {
        self.ids().len()
    }

    /// The ids in the order of the list. None is there twice.
    pub fn ids(&self) -> &[u32]
        ensures ids { result.now ≡ ids_of self.now }
        ensures distinct { AreDistinct (ids_of self.now) }
    {
        self.order.ids()
    }

    /// The position of a block, in time logarithmic in the list's length.
    pub fn position(&self, id: u32) -> usize
        requires { Has (ids_of self.now) id }
        ensures position { StandsAt self.now result id }
        ensures distinct { AreDistinct (ids_of self.now) }
    {
        self.order.position(id)
    }

    /// The position of each of these blocks.
    ///
    /// # Errors
    /// Out of memory.
    pub fn positions(&self, alloc: Global, ids: &[u32]) -> Result<Vec<usize>, AllocError>
        requires { (i id : ℕ) → slice_get ids.now i ≡ Some id → Has (ids_of self.now) id }
        ensures positions { IfOk result (λ positions. ArePositions (ids_of self.now) ids.now positions.items) }
        ensures distinct { AreDistinct (ids_of self.now) }
    {
        positions_of(alloc, &self.order, ids)
    }

    /// The slot of a block.
    pub fn slot(&self, id: u32) -> &Slot
        requires { Has (ids_of self.now) id }
        ensures slot { (at : ℕ) → StandsAt self.now at id → slice_get (slots_of self.now) at ≡ Some result.now }
        ensures distinct { AreDistinct (ids_of self.now) }
    {
        self.slots[id as usize].as_ref().unwrap()
    }

    /// The id of the block that a name belongs to: the first in the list that has it.
    pub fn owner(&self, name: &[u8]) -> Option<u32>
        ensures some { (id : ℕ) → result ≡ Some id → IsOwnerId self.now name.now id }
        ensures none { result ≡ None → owner (blocks_of self.now) name.now ≡ None }
    {
        self.holders(name).first().copied()
    }

    /// The ids of the blocks that have a name, in the order of the list.
    pub fn holders(&self, name: &[u8]) -> &[u32]
        ensures { result.now ≡ holders_of self.now name.now }
    {
        self.names.holders(name)
    }

    /// The ids of the blocks that use a name, in the order of the list.
    pub fn users(&self, name: &[u8]) -> &[u32]
        ensures { result.now ≡ users_of self.now name.now }
    {
        self.names.users(name)
    }

    /// Puts what was found out about a block in the place of what is stored. All else stays. What
    /// was stored is handed back, of which no clause says anything.
    pub fn exchange_settled(&mut self, id: u32, settled: &mut Settled)
        requires { Has (ids_of self.old) id }
        ensures { self.new ≡ settled_in self.old id settled.old }
    {
        let slot = self.slots[id as usize].as_mut().unwrap();
        mem::swap(&mut slot.settled, settled);
    }
}
