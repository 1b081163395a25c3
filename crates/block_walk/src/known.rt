// What the probes of a walk found.
ghost use Rattle.std.specs.Prelude.{◌≡◌, ◌+◌, ◌<◌, ◌++◌, ◌∷◌, ◌↔◌, [], length, IfOk, IfSome, IfNone, IsTrue, OnOk, Some, slice_index_or};
ghost use Rattle.std.specs.Option.{option_copied};
ghost use Rattle.beas_core.specs.Derivations.{access_in, is_live};
ghost use Rattle.beas_core.specs.Groups.{group_of};
ghost use Rattle.beas_core.specs.Reads.{probe_reads};
ghost use Rattle.beas_core.proofs.Sets.{Has};
ghost use Rattle.block_walk.specs.Kept.{Entry};
ghost use Rattle.plan_ops.specs.Sieves.{sieved};
ghost use Rattle.plan_ops.specs.Stages.{IsStage};
ghost use Rattle.block_walk.specs.Entries.{IsIndex, IsKnown, entries_in, entry_of, kept_in, kept_of, key_alone};
ghost use Rattle.place_chains.specs.Fitting.{IsFitting, IsRun};
ghost use Rattle.place_chains.specs.Hashing.{hash_of};
ghost use Rattle.place_chains.specs.TupleOrder.{IsOrder, values_at};

use crate::fetching::{Gathered, fetch};
use crate::group::Group;
use crate::ordered::OrderedKeys;
use beas_core::{AccessId, AccessPort, NoMemory, Normal, Steps, Value};
use place_chains::{Fitting, HashChains, TupleOrder, value_or};
use plan_ops::{Shared, Stage};
use std::alloc::Global;
use std::sync::ledger::Ledger;

/// Where the values of an entry stand: those of its tuples that are kept, one after another from a place on. Each begins with the
/// key; where none is kept, the key stands there by itself.
#[derive(Drop)]
pub struct Spot {
    pub step: usize,
    pub from: usize,
    pub width: usize,
    pub count: usize,
    pub key_width: usize,
    /// Which of the indexes is that of its tuples, if they have one.
    pub index: Option<usize>,
    /// All tuples that were found.
    pub all: Group,
}

/// The order of an entry's tuples by their values at some places.
#[derive(Drop)]
pub struct TupleIndex {
    pub positions: Vec<usize>,
    pub order: TupleOrder,
}

/// What the probes of a walk found, each with its step and key, in the order in which they were made. A step and a key are found
/// again by their hash; a map would keep each key as a piece of memory of its own. Only where a bucket of
/// hashes has many entries, as where keys were chosen to collide, further ones of it are in such maps.
#[derive(Drop)]
pub struct Known {
    /// All values of keys and tuples.
    pub values: Vec<Value>,
    pub spots: Vec<Spot>,
    /// The hash of each entry's step and key, or one that is made up where the entry is among the ordered keys.
    pub chains: HashChains,
    pub ordered: OrderedKeys,
    pub indexes: Vec<TupleIndex>,
}

/// Where the entry stands that a key finds, and how many reads the probe took that was made for it: none where the key was probed
/// before.
#[derive(Clone, Copy)]
pub struct Found {
    pub place: usize,
    pub reads: Option<usize>,
}

// For so many values and entries there is room from the start, so that a small query's walk seldom moves them.
const VALUES: usize = 96;

const ENTRIES: usize = 24;

// Fewer tuples are soon read one after another.
const MANY: usize = 32;

// Empties a key of which so many tuples are kept. A tuple that is kept begins with the key's values. If none is kept, because
// the probe found none or the sieve refuses all, the key's values are added by themselves, so that the key is found again.
#[inline(always)]
fn keep_key(count: usize, key: &mut Vec<Value>, values: &mut Vec<Value>) -> Result<(), NoMemory>
    ensures key { OnOk result (key.new.items ≡ []) }
    ensures values { OnOk result (values.new.items ≡ values.old.items ++ key_alone count key.old.items) }
{
    if count == 0 {
        values.append(key)?;
    } else {
        key.clear();
    }
    Ok(())
}

impl Known {
    /// Nothing was probed yet.
    pub fn new(alloc: Global) -> Result<Known, NoMemory>
        ensures known { IfOk result IsKnown }
        ensures empty { IfOk result (λ known. entries_in known ≡ []) }
    {
        Ok(Known {
            values: Vec::with_capacity(alloc, VALUES)?,
            spots: Vec::with_capacity(alloc, ENTRIES)?,
            chains: HashChains::new(alloc),
            ordered: OrderedKeys::new(alloc),
            indexes: Vec::new(alloc),
        })
    }

    // Whether the entry at a place is that of a step and a key.
    fn is_at(&self, place: usize, step: usize, key: &[Value]) -> bool
        requires known { IsKnown self.now }
        requires place { place < length (entries_in self.now) }
        ensures { IsTrue result ↔ ((entry_of self.now place).0 ≡ (step, key.now)) }
    {
        let spot = &self.spots[place];
        spot.step == step && &self.values[spot.from..spot.from + spot.key_width] == key
    }

    /// The entry of a step and a key, whose hash is given.
    #[inline(always)]
    pub fn find(&self, step: usize, key: &[Value], hash: u64) -> Option<usize>
        requires known { IsKnown self.now }
        requires hash { hash ≡ hash_of step key.now }
        ensures there { IfSome result (λ place. place < length (entries_in self.now)) }
        ensures key { IfSome result (λ place. (entry_of self.now place).0 ≡ (step, key.now)) }
        ensures none { IfNone result ((e : Entry) → Has (entries_in self.now) e → e.0 ≡ (step, key.now) → ⊥) }
    {
        let mut at = self.chains.latest(hash);
        'places: while let Some(place) = at {
            if self.is_at(place, step, key) {
                return Some(place);
            }
            at = self.chains.earlier(place);
        }
        self.ordered.get(step, key)
    }

    /// How many of an entry's tuples are kept.
    pub fn count(&self, place: usize) -> usize
        requires { place < length (entries_in self.now) }
        ensures { result ≡ length (kept_of self.now place) }
    {
        self.spots[place].count
    }

    /// A tuple of an entry that is kept.
    pub fn tuple(&self, place: usize, at: usize) -> &[Value]
        requires known { IsKnown self.now }
        requires place { place < length (entries_in self.now) }
        requires at { at < length (kept_of self.now place) }
        ensures { result.now ≡ slice_index_or (kept_of self.now place) at [] }
    {
        let spot = &self.spots[place];
        let from = spot.from + at * spot.width;
        &self.values[from..from + spot.width]
    }

    // The index of an entry's tuples at some places.
    fn index_of(
        &self,
        alloc: Global,
        place: usize,
        places: &[usize],
    ) -> Result<TupleIndex, NoMemory>
        requires known { IsKnown self.now }
        requires place { place < length (entries_in self.now) }
        ensures { IfOk result (IsIndex (kept_of self.now place)) }
    {
        let zero = Value::Int(0);
        let value = |i: usize, at: usize|
            requires known { IsKnown self.now }
            requires place { place < length (entries_in self.now) }
            requires tuple { i < length (kept_of self.now place) }
            ensures { result.now ≡ slice_index_or (slice_index_or (kept_of self.entry.now place) i []) at zero }
        { value_or(self.tuple(place, i), at, &zero) };
        let order = TupleOrder::new(alloc, self.count(place), &value, &zero, places)?;
        let positions = places.to_vec(alloc)?;
        Ok(TupleIndex { positions, order })
    }

    // Makes the index of an entry's tuples at some places.
    fn make_index(&mut self, alloc: Global, place: usize, places: &[usize]) -> Result<(), NoMemory>
        requires known { IsKnown self.old }
        requires place { place < length (entries_in self.old) }
        ensures known { OnOk result (IsKnown self.new) }
        ensures entries { OnOk result (entries_in self.new ≡ entries_in self.old) }
        ensures kept { OnOk result (kept_in self.new ≡ kept_in self.old) }
    {
        let index = self.index_of(alloc, place, places)?;
        let at = self.indexes.len();
        self.indexes.push(index)?;
        self.spots[place].index = Some(at);
        Ok(())
    }

    /// Makes an index of an entry's tuples at some places, if there are places, the tuples are many and have none.
    #[inline(always)]
    pub fn index(&mut self, alloc: Global, place: usize, places: &[usize]) -> Result<(), NoMemory>
        requires known { IsKnown self.old }
        requires place { place < length (entries_in self.old) }
        ensures known { OnOk result (IsKnown self.new) }
        ensures entries { OnOk result (entries_in self.new ≡ entries_in self.old) }
        ensures kept { OnOk result (kept_in self.new ≡ kept_in self.old) }
    {
        if places.is_empty() {
            return Ok(());
        }
        let spot = &self.spots[place];
        if spot.count < MANY || spot.index.is_some() {
            return Ok(());
        }
        self.make_index(alloc, place, places)
    }

    // The order of an entry's tuples by their values at some places, if there is an index of these places.
    #[inline(always)]
    fn order(&self, place: usize, places: &[usize]) -> Option<&TupleOrder>
        requires known { IsKnown self.now }
        requires place { place < length (entries_in self.now) }
        ensures { IfSome (option_copied result) (IsOrder places.now (kept_of self.now place)) }
    {
        let at = self.spots[place].index?;
        let index = &self.indexes[at];
        if index.positions.as_slice() == places {
            Some(&index.order)
        } else {
            None
        }
    }

    // The numbers of an entry's tuples that share a row's values, where this is their order.
    fn run<'a>(
        &self,
        place: usize,
        order: &'a TupleOrder,
        shared: &Shared,
        row: &[Value],
    ) -> &'a [usize]
        requires known { IsKnown self.now }
        requires place { place < length (entries_in self.now) }
        requires order { IsOrder shared.now.1 (kept_of self.now place) order.now }
        ensures { IsRun shared.now.1 (kept_of self.now place) (values_at shared.now.0 row.now) 0 result.now }
    {
        let zero = Value::Int(0);
        let value = |i: usize, at: usize|
            requires known { IsKnown self.now }
            requires place { place < length (entries_in self.now) }
            requires tuple { i < length (kept_of self.now place) }
            ensures { result.now ≡ slice_index_or (slice_index_or (kept_of self.entry.now place) i []) at zero }
        { value_or(self.tuple(place, i), at, &zero) };
        let count = self.count(place);
        order.run(count, &value, &zero, shared.tuple(), shared.row(), row)
    }

    /// The tuples of an entry that may share a row's values: all, or by an index those alone that do.
    #[inline(always)]
    pub fn fitting(&self, place: usize, shared: &Shared, row: &[Value]) -> Fitting<'_>
        requires known { IsKnown self.now }
        requires place { place < length (entries_in self.now) }
        ensures first { result.from ≡ 0 }
        ensures fits { IsFitting shared.now.1 (kept_of self.now place) (values_at shared.now.0 row.now) result }
    {
        let run = match self.order(place, shared.tuple()) {
            Some(order) => Some(self.run(place, order, shared, row)),
            None => None,
        };
        Fitting::among(self.count(place), run)
    }

    /// Probes a key, whose hash with the step is given, and keeps what it finds, as the last entry: of its tuples those that the
    /// step's sieve keeps. No value is left in `key`. It counts the greater of 1 and the number of all tuples, out of memory too.
    /// Where a piece of memory is full all that was kept may move. After an error nothing of it may be asked.
    pub fn fetch<P: AccessPort, L: Ledger>(
        &mut self,
        alloc: Global,
        port: &P,
        block: &Normal,
        id: AccessId,
        stage: &Stage,
        one: bool,
        step: usize,
        key: &mut Vec<Value>,
        hash: u64,
        steps: &mut Steps<L>,
    ) -> Result<Found, NoMemory>
        requires known { IsKnown self.old }
        requires live { IsTrue (is_live (P.accesses port.now) id) }
        requires access { stage.now.access.value ≡ access_in (P.accesses port.now) id }
        requires stage { IsStage block.now stage.now }
        requires width { length key.old.items ≡ length (access_in (P.accesses port.now) id).key }
        requires hash { hash ≡ hash_of step key.old.items }
        ensures known { OnOk result (IsKnown self.new) }
        ensures place { IfOk result (λ found. found.place ≡ length (entries_in self.old)) }
        ensures reads { IfOk result (λ found. found.reads
            ≡ Some (probe_reads (P.rows port.now) (access_in (P.accesses port.now) id) key.old.items)) }
        ensures key { OnOk result (key.new.items ≡ []) }
        ensures entries { let access = access_in (P.accesses port.now) id in
            OnOk result (entries_in self.new ≡ entries_in self.old
            ++ ((step, key.old.items), group_of (P.rows port.now access.table) access key.old.items) ∷ []) }
        ensures kept { let access = access_in (P.accesses port.now) id in
            OnOk result (kept_in self.new ≡ kept_in self.old ++ sieved block.now stage.now.sieve one
            (group_of (P.rows port.now access.table) access key.old.items) ∷ []) }
        ensures cost { steps.new
            ≡ steps.old + probe_reads (P.rows port.now) (access_in (P.accesses port.now) id) key.old.items }
    {
        let from = self.values.len();
        let values = &mut self.values;
        let Gathered { found, kept, all } = fetch(
            alloc, port, block, id, stage, one, key, values, steps,
        )?;
        let place = self.spots.len();
        let key_width = key.len();
        self.spots.push(Spot {
            step,
            from,
            width: stage.join.picked.width(),
            count: kept,
            key_width,
            index: None,
            all,
        })?;
        let hash = self
            .ordered
            .hash_for(alloc, &self.chains, step, key, place, hash)?;
        keep_key(kept, key, &mut self.values)?;
        self.chains.push(alloc, hash)?;
        let reads = Some(found.max(1));
        Ok(Found { place, reads })
    }
}
