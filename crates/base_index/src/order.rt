//! The ids of blocks in the order of their list.
ghost use Rattle.std.specs.Prelude.{◌≡◌, ◌<◌, ◌≤◌, ◌+◌, ◌^◌, ◌++◌, ◌∷◌, ◌↔◌, [], ℕ, Some, slice_get, length, insert, remove, vec_capacity, IsTrue, OnOk, OnErr};
ghost use Rattle.ti_text.specs.Lists.{Has, AreBelow, AreDistinct};
ghost use Rattle.base_index.specs.Listing.{AreAmong, ListsBefore};

use crate::labels::{label_of, make_label};
use std::alloc::{AllocError, Global};
use std::marker::Model;

/// Ids in the order of a list. An id stays with its block while others come and go, and is used
/// again after its block has gone. Its position in the list is found by a label that rises along
/// the list, as is which of two ids comes first.
#[derive(Drop)]
pub struct BlockOrder {
    /// The ids in the order of the list.
    ids: Vec<u32>,
    // The label of each id.
    labels: Vec<u64>,
    /// The ids that are not in the list.
    free: Vec<u32>,
}

impl Model for BlockOrder {
    ghost use Rattle.std.specs.Prelude.{ℕ, vec_capacity};
    ghost use Rattle.base_index.specs.inside.Order.{Ids, IsOrder};

    ghost Value = { Ids };

    ghost view = { λ o. record { listed = o.ids.items; free = o.free.items } };

    ghost invariant = { λ o. IsOrder o.ids.items o.labels.items o.free.items (vec_capacity o.ids) (vec_capacity o.free) };
}

impl BlockOrder {
    /// No ids. It takes no memory.
    pub fn new(alloc: Global) -> BlockOrder
        ensures listed { result.listed ≡ [] }
        ensures free { result.free ≡ [] }
    {
        BlockOrder {
            ids: Vec::new(alloc),
            labels: Vec::new(alloc),
            free: Vec::new(alloc),
        }
    }

    /// The ids in the order of the list.
    pub fn ids(&self) -> &[u32]
        ensures ids { result.now ≡ self.now.listed }
        ensures distinct { AreDistinct self.now.listed }
    {
        &self.ids
    }

    /// How many ids there are, those in the list and those that are free. Each is below that
    /// number.
    pub fn count(&self) -> usize
        ensures count { result ≡ length self.now.listed + length self.now.free }
        ensures listed { AreBelow self.now.listed result }
        ensures free { AreBelow self.now.free result }
    {
        self.labels.len()
    }

    /// The position of an id of the list, in time logarithmic in the list's length.
    pub fn position(&self, id: u32) -> usize
        requires { Has self.now.listed id }
        ensures { slice_get self.now.listed result ≡ Some id }
    {
        self.count_before(&self.ids, id)
    }

    /// Whether one id is before another in the list.
    pub fn is_before(&self, one: u32, other: u32) -> bool
        requires one { Has self.now.listed one }
        requires other { Has self.now.listed other }
        ensures { (i j : ℕ) → slice_get self.now.listed i ≡ Some one → slice_get self.now.listed j ≡ Some other
            → IsTrue result ↔ (i < j) }
    {
        self.labels[one as usize] < self.labels[other as usize]
    }

    /// How many ids of a list, which are in the order of all, come before an id, by a binary
    /// search.
    pub(crate) fn count_before(&self, list: &[u32], id: u32) -> usize
        requires stands { Has self.now.listed id }
        requires among { AreAmong list.now self.now.listed }
        ensures within { result ≤ length list.now }
        ensures count { ListsBefore self.now.listed list.now id result }
        ensures distinct { AreDistinct self.now.listed }
    {
        let labels = &self.labels;
        let label = label_of(labels, id);
        list.partition_point(|other| label_of(labels, *other) < label)
    }

    /// Makes sure that an id is free, so that one can be put in. Nothing else changes.
    ///
    /// # Errors
    /// Out of memory; then nothing changes.
    pub fn reserve(&mut self) -> Result<(), AllocError>
        requires { length self.old.listed < 2 ^ 31 }
        ensures listed { self.new.listed ≡ self.old.listed }
        ensures ok { OnOk result (0 < length self.new.free) }
        ensures kept { 0 < length self.old.free → self.new.free ≡ self.old.free }
        ensures one { length self.new.free ≤ length self.old.free + 1 }
        ensures err { OnErr result (self.new ≡ self.old) }
    {
        if self.free.is_empty() {
            let id = self.labels.len();
            self.ids.reserve(1)?;
            self.free.reserve(id + 1)?;
            self.labels.push(0)?;
            self.free.push_reserved(id as u32);
        }
        Ok(())
    }

    /// Puts the id that was freed last in at a position, and gives it. It takes no memory.
    pub fn insert(&mut self, position: usize) -> u32
        requires within { position ≤ length self.old.listed }
        requires room { 0 < length self.old.free }
        ensures listed { self.new.listed ≡ insert self.old.listed position result }
        ensures free { self.old.free ≡ self.new.free ++ result ∷ [] }
        ensures fresh { ¬ Has self.old.listed result }
        ensures known { result < length self.old.listed + length self.old.free }
    {
        let label = make_label(&self.ids, &mut self.labels, position);
        let id = self.free.pop().unwrap();
        self.labels[id as usize] = label;
        self.ids.insert(position, id).unwrap();
        id
    }

    /// Takes the id at a position out, and gives it. It is free from then on.
    pub fn remove(&mut self, position: usize) -> u32
        requires { position < length self.old.listed }
        ensures id { slice_get self.old.listed position ≡ Some result }
        ensures listed { self.new.listed ≡ remove self.old.listed position }
        ensures free { self.new.free ≡ self.old.free ++ result ∷ [] }
    {
        let id = self.ids.remove(position);
        self.free.push_reserved(id);
        id
    }
}
