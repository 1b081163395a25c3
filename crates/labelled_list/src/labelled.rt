// A list in a time that grows with the logarithm of its length.
ghost use Rattle.std.specs.Prelude.{◌≡◌, ◌≢◌, ◌<◌, ◌≤◌, ◌+◌, ◌++◌, ◌∷◌, ◌^◌, [], List, length, filter, insert, remove, slice_index_or, slice_set, MatchOption, IfOk, OnOk, OnErr};
ghost use Rattle.std.specs.List.{AllByRecursion};
ghost use Rattle.std.specs.List.Sorted.{IsPartitionedBy};
ghost use Rattle.labelled_list.specs.declared.coded.Coded.{Coded};
ghost use Rattle.labelled_list.specs.Labels.{AreDistinct, IsLabelled, SitsAt, in_order, items_of};
ghost use Rattle.labelled_list.specs.declared.slot.Standing.{Standing};

use crate::coded::Coded;
use crate::codes::TupleCodes;
use crate::labels::make_label;
use crate::places::{
    CodesPosition, Tuples, count_at, item_of_slot, label_at, position_of_entry, write,
};
use crate::slot::{Slot, Standing};
use beas_core::{Duplicate, NoMemory};
use blocked_list::{Before, BlockedList, Walk};
use indexmap::IndexMap;
use seeded_hash::SeededHashing;
use std::alloc::Global;
use std::marker::Model;

/// Distinct tuples, each with how many rows have it.
#[derive(Drop)]
pub struct LabelledList {
    slots: BlockedList<Slot>,
    tuples: Tuples,
}

impl Model for LabelledList {
    ghost use Rattle.std.specs.Prelude.{List};
    ghost use Rattle.labelled_list.specs.declared.coded.Coded.{Coded};
    ghost use Rattle.labelled_list.specs.Labels.{items_of, IsLabelled};

    ghost Value = { List Coded };

    ghost view = { λ s. items_of s.tuples.entries s.slots };

    ghost invariant = { λ s. IsLabelled s.tuples.entries s.slots };
}

/// A labelled list has these two fields and no other, so each tuple once: with a further field this would not compile.
fn list_fields(list: &LabelledList) {
    let LabelledList {
        slots: _slots,
        tuples: _tuples,
    } = list;
}

/// Puts a tuple that isn't there in at a place. After an error all is as before.
fn put(
    tuples: &mut Tuples,
    slots: &mut BlockedList<Slot>,
    alloc: Global,
    at: usize,
    key: TupleCodes,
    standing: Standing,
) -> Result<(), NoMemory>
    requires labelled { IsLabelled tuples.old.entries slots.old }
    requires within { at ≤ length slots.old }
    requires room { length slots.old + 1 < 2 ^ 32 }
    requires absent { AllByRecursion (λ (item : Coded). item.codes ≢ key) (items_of tuples.old.entries slots.old) }
    requires sits { SitsAt (in_order tuples.old.entries slots.old) at standing.label }
    ensures labelled { IsLabelled tuples.new.entries slots.new }
    ensures ok { OnOk result (in_order tuples.new.entries slots.new
        ≡ insert (in_order tuples.old.entries slots.old) at (key, standing)) }
    ensures err { OnErr result (items_of tuples.new.entries slots.new ≡ items_of tuples.old.entries slots.old) }
{
    let entry = tuples.len() as u32;
    slots.insert(alloc, at, Slot { entry })?;
    match tuples.insert(key, standing) {
        Ok(_) => Ok(()),
        Err(_) => {
            slots.remove(at);
            Err(NoMemory)
        }
    }
}

/// A list of the tuples that the slots name, in their order.
fn copy_of(
    alloc: Global,
    tuples: &Tuples,
    slots: &BlockedList<Slot>,
) -> Result<LabelledList, NoMemory>
    requires { IsLabelled tuples.now.entries slots.now }
    ensures { IfOk result (λ copy. copy ≡ items_of tuples.now.entries slots.now) }
{
    let mut copy = LabelledList::new(alloc, *tuples.hasher());
    let mut walk = Walk::over(slots);
    for i in 0..tuples.len() {
        copy.insert(alloc, i, item_of_slot(alloc, tuples, walk.get(i))?)?;
    }
    Ok(copy)
}

impl LabelledList {
    /// A list of no tuples, whose codes will be hashed in this way. It takes no memory.
    pub fn new(alloc: Global, hashing: SeededHashing) -> LabelledList
        ensures { result ≡ [] }
    {
        LabelledList {
            slots: BlockedList::new(alloc),
            tuples: IndexMap::with_hasher(alloc, hashing),
        }
    }

    /// How many tuples there are, of which no two have the same codes. It takes no memory.
    pub fn len(&self) -> usize
        ensures len { result ≡ length self.now }
        ensures few { result < 2 ^ 32 }
        ensures distinct { AreDistinct self.now }
    {
        self.tuples.len()
    }

    /// The codes of the tuple at a place. It takes no memory.
    pub fn codes(&self, at: usize) -> &[u64]
        requires { at < length self.now }
        ensures { (d : Coded) → result.now ≡ (slice_index_or self.now at d).codes }
    {
        match self.tuples.get_index(self.slots.get(at).entry as usize) {
            Some((codes, _)) => codes.as_slice(),
            None => unreachable!(),
        }
    }

    /// How many rows have the tuple at a place. It takes no memory.
    pub fn count(&self, at: usize) -> u32
        requires { at < length self.now }
        ensures { (d : Coded) → result ≡ (slice_index_or self.now at d).count }
    {
        count_at(&self.tuples, &self.slots, at)
    }

    /// Where a tuple is by its codes alone. It takes no memory.
    pub fn position_of(&self, codes: &[u64]) -> Option<usize>
        ensures { MatchOption result
            (AllByRecursion (λ (item : Coded). item.codes ≢ codes.now) self.now)
            (λ at. (at < length self.now) × ((d : Coded) → (slice_index_or self.now at d).codes ≡ codes.now)) }
    {
        match self.tuples.get_index_of(codes) {
            None => None,
            Some(entry) => Some(position_of_entry(&self.tuples, &self.slots, entry)),
        }
    }

    /// How many tuples stand before a place, where they are the first ones. It takes no memory.
    pub fn partition_point<B: Before<TupleCodes>>(&self, wanted: &B) -> usize
        requires { IsPartitionedBy (λ (item : Coded). B.before wanted.now item.codes) self.now }
        ensures { result ≡ length (filter (λ (item : Coded). B.before wanted.now item.codes) self.now) }
    {
        self.slots.partition_point(&CodesPosition {
            tuples: &self.tuples,
            wanted,
        })
    }

    /// Puts a tuple that isn't there in at a place. After an error all is as before.
    pub fn insert(&mut self, alloc: Global, at: usize, tuple: Coded) -> Result<(), NoMemory>
        requires within { at ≤ length self.old }
        requires room { length self.old + 1 < 2 ^ 32 }
        requires absent { AllByRecursion (λ (item : Coded). item.codes ≢ tuple.codes) self.old }
        ensures ok { OnOk result (self.new ≡ insert self.old at tuple) }
        ensures err { OnErr result (self.new ≡ self.old) }
    {
        let Coded { codes, count } = tuple;
        let label = make_label(&mut self.tuples, &self.slots, at);
        let standing = Standing { count, label };
        put(
            &mut self.tuples,
            &mut self.slots,
            alloc,
            at,
            codes,
            standing,
        )
    }

    /// Writes how many rows have the tuple at a place. It takes no memory.
    pub fn recount(&mut self, at: usize, count: u32)
        requires { at < length self.old }
        ensures { (d : Coded) → self.new ≡ slice_set self.old at (record { codes = (slice_index_or self.old at d).codes; count = count }) }
    {
        let label = label_at(&self.tuples, &self.slots, at);
        write(&mut self.tuples, &self.slots, at, Standing { count, label });
    }

    /// Drops the tuple at a place. It takes no memory.
    pub fn remove(&mut self, at: usize)
        requires { at < length self.old }
        ensures { self.new ≡ remove self.old at }
    {
        let entry = self.slots.get(at).entry;
        let last = self.tuples.len() - 1;
        // The last tuple of the map comes to the place of the one that goes, so its slot names that place from now on.
        let place = position_of_entry(&self.tuples, &self.slots, last);
        self.slots.recount(place, entry);
        self.slots.remove(at);
        self.tuples.swap_remove_index(entry as usize);
    }

    /// A list of these tuples, whose codes are hashed in this way, in a time that grows with their number.
    pub fn over(
        alloc: Global,
        hashing: SeededHashing,
        tuples: &BlockedList<Coded>,
    ) -> Result<LabelledList, NoMemory>
        requires few { length tuples.now < 2 ^ 32 }
        requires distinct { AreDistinct tuples.now }
        ensures { IfOk result (λ list. list ≡ tuples.now) }
    {
        let mut list = LabelledList::new(alloc, hashing);
        let mut walk = Walk::over(tuples);
        for i in 0..tuples.len() {
            list.insert(alloc, i, walk.get(i).copy(alloc)?)?;
        }
        Ok(list)
    }

    /// An equal list, hashed alike, in a time that grows with its length.
    pub fn copy(&self, alloc: Global) -> Result<LabelledList, NoMemory>
        ensures { IfOk result (λ copy. copy ≡ self.now) }
    {
        copy_of(alloc, &self.tuples, &self.slots)
    }
}
