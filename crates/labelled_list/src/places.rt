// Where a tuple stands in the list, by its place in the map.
ghost use Rattle.std.specs.Prelude.{◌≡◌, ◌<◌, length, nat_lt, slice_index_or, slice_set, IfOk};
ghost use Rattle.indexmap.specs.IndexMap.{set_value_at};
ghost use Rattle.labelled_list.specs.Labels.{ArePlaces, IsLabelled, entry_at, in_order, item_of, no_tuple, passes};
ghost use Rattle.labelled_list.specs.declared.slot.Slot.{Slot};

use crate::coded::Coded;
use crate::codes::TupleCodes;
use crate::slot::{Slot, Standing};
use beas_core::NoMemory;
use blocked_list::{Before, BlockedList};
use indexmap::IndexMap;
use seeded_hash::SeededHashing;
use std::alloc::Global;

/// Each tuple's count and label by its codes.
pub type Tuples = IndexMap<TupleCodes, Standing, SeededHashing>;

/// The place of a label.
#[derive(Drop)]
struct LabelPlace<'a> {
    tuples: &'a Tuples,
    label: u64,
}

impl Before<Slot> for LabelPlace<'_> {
    ghost before = { λ wanted slot. nat_lt (entry_at wanted.tuples.now.entries slot).1.label wanted.label };

    fn is_before(&self, slot: &Slot) -> bool {
        match self.tuples.get_index(slot.entry as usize) {
            Some((_, standing)) => standing.label < self.label,
            None => 0 < self.label,
        }
    }
}

/// The place of a tuple by what a search tells of its codes.
#[derive(Drop)]
pub struct CodesPosition<'a, B> {
    pub tuples: &'a Tuples,
    pub wanted: &'a B,
}

impl<B: Before<TupleCodes>> Before<Slot> for CodesPosition<'_, B> {
    ghost before = { λ place slot. passes (B.before place.wanted.now) place.tuples.now.entries slot };

    fn is_before(&self, slot: &Slot) -> bool {
        match self.tuples.get_index(slot.entry as usize) {
            Some((codes, _)) => self.wanted.is_before(codes),
            None => false,
        }
    }
}

/// Which slot names this place of the map, by its label.
pub fn position_of_entry(tuples: &Tuples, slots: &BlockedList<Slot>, entry: usize) -> usize
    requires labelled { IsLabelled tuples.now.entries slots.now }
    requires within { entry < length tuples.now.entries }
    ensures within { result < length slots.now }
    ensures named { (d : Slot) → (slice_index_or slots.now result d).entry ≡ entry }
{
    let label = tuples[entry].label;
    slots.partition_point(&LabelPlace { tuples, label })
}

/// The label of the tuple at a place.
pub fn label_at(tuples: &Tuples, slots: &BlockedList<Slot>, at: usize) -> u64
    requires places { ArePlaces (length tuples.now.entries) slots.now }
    requires within { at < length slots.now }
    ensures { result ≡ (slice_index_or (in_order tuples.now.entries slots.now) at no_tuple).1.label }
{
    tuples[slots.get(at).entry as usize].label
}

/// How many rows have the tuple at a place.
pub fn count_at(tuples: &Tuples, slots: &BlockedList<Slot>, at: usize) -> u32
    requires places { ArePlaces (length tuples.now.entries) slots.now }
    requires within { at < length slots.now }
    ensures { result ≡ (slice_index_or (in_order tuples.now.entries slots.now) at no_tuple).1.count }
{
    tuples[slots.get(at).entry as usize].count
}

/// The codes and the count of the tuple that a slot names.
pub fn item_of_slot(alloc: Global, tuples: &Tuples, slot: &Slot) -> Result<Coded, NoMemory>
    requires { slot.now.entry < length tuples.now.entries }
    ensures { IfOk result (λ item. item ≡ item_of (entry_at tuples.now.entries slot.now)) }
{
    match tuples.get_index(slot.entry as usize) {
        Some((codes, standing)) => Coded::of(alloc, codes.as_slice(), standing.count),
        None => unreachable!(),
    }
}

/// Writes the count and the label of the tuple at a place.
pub fn write(tuples: &mut Tuples, slots: &BlockedList<Slot>, at: usize, standing: Standing)
    requires places { ArePlaces (length tuples.old.entries) slots.now }
    requires within { at < length slots.now }
    ensures same_length { length tuples.new.entries ≡ length tuples.old.entries }
    ensures written { in_order tuples.new.entries slots.now ≡ slice_set (in_order tuples.old.entries slots.now) at
        ((slice_index_or (in_order tuples.old.entries slots.now) at no_tuple).0, standing) }
{
    let entry = slots.get(at).entry as usize;
    let Some(place) = tuples.get_index_mut(entry) else {
        unreachable!()
    };
    *place = standing;
}

/// Writes the label of the tuple that a slot names, whose count stays.
pub fn write_label(tuples: &mut Tuples, slot: &Slot, label: u64)
    requires within { slot.now.entry < length tuples.old.entries }
    ensures same_length { length tuples.new.entries ≡ length tuples.old.entries }
    ensures relabelled { tuples.new.entries ≡ set_value_at tuples.old.entries slot.now.entry
        (record { count = (entry_at tuples.old.entries slot.now).1.count; label = label }) }
{
    let entry = slot.entry as usize;
    let count = tuples[entry].count;
    let Some(place) = tuples.get_index_mut(entry) else {
        unreachable!()
    };
    *place = Standing { count, label };
}
