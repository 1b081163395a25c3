// The index of one access constraint over codes, whatever holds the codes of its keys.
ghost use Rattle.std.specs.Prelude.{◌≡◌, ◌+◌, ◌<◌, ◌≤◌, ◌^◌, ◌↔◌, ◌++◌, ◌∷◌, [], ℕ, List, length, map, slice_index_or, IsTrue, false, IfOk, IfSome, MatchOption, OnOk, OnErr, if◌then◌else◌};
ghost use Rattle.beas_core.specs.declared.value.Value.{Value};
ghost use Rattle.beas_core.specs.Groups.{Holds, greatest, group_of, member_columns, has_column};
ghost use Rattle.access_index.specs.Index.{IsIndexOf, WouldHold};
ghost use Rattle.code_index.specs.Codes.{AreDistinct};
ghost use Rattle.code_index.specs.Reading.{read, read_index, pick, AllKnown, Spells, IsInOrderFor, codes_at, code_in};
ghost use Rattle.code_index.specs.Taking.{CountsWhere, HoldsWhere};

use crate::asked::{AskedCodes, AskedRow};
use crate::codes::column_position;
use crate::group::{count_down, count_up, has_room, may_begin, may_come, of_one, put_copy};
use crate::interner::Interner;
use crate::own_codes::{GroupKey, OwnCodes};
use crate::tuples::Group;
use beas_core::{Access, ColumnId, Duplicate, List, NoMemory};
use indexmap::IndexMap;
use labelled_list::TupleCodes;
use seeded_hash::SeededHashing;
use std::alloc::Global;
use std::marker::Model;

/// The index of one access constraint over rows of codes.
#[derive(Drop)]
pub struct KeyedIndex<W: OwnCodes> {
    access: Access,
    total: u32,
    groups: IndexMap<GroupKey<W>, Group, SeededHashing>,
}

/// The index of one access constraint whose key has `K` columns.
pub type FixedIndex<const K: usize> = KeyedIndex<[u64; K]>;

/// The index of one access constraint whose key has up to 64 columns.
pub type LongIndex = KeyedIndex<TupleCodes>;

impl<W: OwnCodes> Model for KeyedIndex<W> {
    ghost use Rattle.std.specs.Prelude.{◌≡◌, ◌≤◌, length};
    ghost use Rattle.code_index.specs.Reading.{CodeIndex, IsOrdered};

    ghost Value = { CodeIndex };

    ghost view = { λ s. record { access = s.access; total = s.total; groups = s.groups.entries } };

    ghost invariant = { λ s. W.fits (length s.access.key)
        × IsOrdered (record { access = s.access; total = s.total; groups = s.groups.entries }) };
}

/// An index has these three fields and no other, so each tuple in its group alone: with a further field this would not
/// compile.
fn index_fields<W: OwnCodes>(index: &KeyedIndex<W>) {
    let KeyedIndex {
        access: _access,
        total: _total,
        groups: _groups,
    } = index;
}

/// The same groups under the same keys.
fn copy_groups<W: OwnCodes>(
    alloc: Global,
    groups: &IndexMap<GroupKey<W>, Group, SeededHashing>,
) -> Result<IndexMap<GroupKey<W>, Group, SeededHashing>, NoMemory>
    ensures { IfOk result (λ copy. copy.entries ≡ groups.now.entries) }
{
    let mut copy = IndexMap::with_capacity_and_hasher(alloc, groups.len(), *groups.hasher())?;
    for i in 0..groups.len() {
        let Some((key, group)) = groups.get_index(i) else {
            unreachable!()
        };
        put_copy(alloc, &mut copy, key.copy(alloc)?, group)?;
    }
    Ok(copy)
}

impl<W: OwnCodes> KeyedIndex<W> {
    /// An index of no rows. Its keys will be hashed with the seed 0.
    pub fn new(alloc: Global, access: Access) -> KeyedIndex<W>
        requires { W.fits (length access.key) }
        ensures access { result.access ≡ access }
        ensures none { result.groups ≡ [] }
        ensures total { result.total ≡ 0 }
        ensures in_order { (codes : List Value) → AreDistinct codes → IsInOrderFor codes result }
        ensures index { (codes : List Value) → IsIndexOf (read_index codes result) [] }
    {
        KeyedIndex::with_hashing(alloc, access, SeededHashing::seeded(0))
    }

    /// An index of no rows, whose keys will be hashed as an interner's values are.
    pub fn with_hashing(alloc: Global, access: Access, hashing: SeededHashing) -> KeyedIndex<W>
        requires { W.fits (length access.key) }
        ensures access { result.access ≡ access }
        ensures none { result.groups ≡ [] }
        ensures total { result.total ≡ 0 }
        ensures in_order { (codes : List Value) → AreDistinct codes → IsInOrderFor codes result }
        ensures index { (codes : List Value) → IsIndexOf (read_index codes result) [] }
    {
        KeyedIndex {
            access,
            total: 0,
            groups: IndexMap::with_hasher(alloc, hashing),
        }
    }

    /// Recalls that an index is of fewer than 2^32 rows. The call is there for its clause and changes nothing.
    fn recall_few_rows(&self)
        ensures { self.now.total < 2 ^ 32 }
    {
        let _total = self.total;
    }

    /// The constraint. It takes no memory.
    pub fn access(&self) -> &Access
        ensures { result.now ≡ self.now.access }
    {
        &self.access
    }

    /// Counts one row more, wherever among the rows it stands. `words` has its code in each column of the key and of what
    /// is fetched; its other places play no part. After an error the index is as it was.
    pub fn add(&mut self, alloc: Global, codes: &Interner, words: &[u64]) -> Result<(), NoMemory>
        requires in_order { IsInOrderFor codes.now self.old }
        requires known { AllKnown codes.now (pick (member_columns self.old.access) words.now) }
        requires room { self.old.total + 1 < 2 ^ 32 }
        ensures access { self.new.access ≡ self.old.access }
        ensures total { OnOk result (self.new.total ≡ self.old.total + 1) }
        ensures in_order { IsInOrderFor codes.now self.new }
        ensures ok { OnOk result ((row : List Value) (front back : List (List Value))
            → Spells codes.now (member_columns self.old.access) words.now row
            → IsIndexOf (read_index codes.now self.old) (front ++ back)
            → IsIndexOf (read_index codes.now self.new) (front ++ row ∷ back)) }
        ensures err { OnErr result (self.new ≡ self.old) }
    {
        self.add_where(alloc, codes, words, false)?;
        Ok(())
    }

    /// Whether the tuple of a row with these codes is there or its group has fewer members than the bound. It takes no
    /// memory.
    pub fn would_hold(&self, words: &[u64]) -> bool
        ensures exactly { (codes row : List Value) → IsInOrderFor codes self.now
            → Spells codes (member_columns self.now.access) words.now row
            → (IsTrue result ↔ WouldHold (read_index codes self.now) row) }
        ensures holds { (codes row : List Value) (rows : List (List Value)) → IsInOrderFor codes self.now
            → Spells codes (member_columns self.now.access) words.now row
            → IsIndexOf (read_index codes self.now) rows → Holds rows self.now.access
            → (IsTrue result ↔ Holds (rows ++ row ∷ []) self.now.access) }
    {
        let asked = AskedRow {
            columns: self.access.key.as_slice(),
            codes: words,
        };
        match self.groups.get(asked) {
            None => self.access.bound > 0,
            Some(group) => has_room(group, &self.access, words),
        }
    }

    /// Counts one row more, wherever among the rows it stands, where its tuple is there or its group has fewer members than
    /// the bound, and else it stays the index of its rows. The group is looked up once. After an error the index is as it was.
    pub fn add_if_holds(
        &mut self,
        alloc: Global,
        codes: &Interner,
        row_codes: &[u64],
    ) -> Result<bool, NoMemory>
        requires in_order { IsInOrderFor codes.now self.old }
        requires known { AllKnown codes.now (pick (member_columns self.old.access) row_codes.now) }
        requires room { self.old.total + 1 < 2 ^ 32 }
        ensures access { self.new.access ≡ self.old.access }
        ensures total { IfOk result (λ held. self.new.total ≡ self.old.total + (if held then 1 else 0)) }
        ensures in_order { IsInOrderFor codes.now self.new }
        ensures index { IfOk result (λ held. CountsWhere held codes.now row_codes.now self.old self.new) }
        ensures holds { IfOk result (λ held. HoldsWhere held codes.now row_codes.now self.old) }
        ensures err { OnErr result (self.new ≡ self.old) }
    {
        self.add_where(alloc, codes, row_codes, true)
    }

    /// Counts one row more, wherever among the rows it stands. Where it is bounded, it does so only if the row's tuple is
    /// there or its group has fewer members than the bound, and else it stays the index of its rows. The group is looked up
    /// once. After an error the index is as it was.
    fn add_where(
        &mut self,
        alloc: Global,
        codes: &Interner,
        row_codes: &[u64],
        bounded: bool,
    ) -> Result<bool, NoMemory>
        requires in_order { IsInOrderFor codes.now self.old }
        requires known { AllKnown codes.now (pick (member_columns self.old.access) row_codes.now) }
        requires room { self.old.total + 1 < 2 ^ 32 }
        ensures access { self.new.access ≡ self.old.access }
        ensures total { IfOk result (λ held. self.new.total ≡ self.old.total + (if held then 1 else 0)) }
        ensures in_order { IsInOrderFor codes.now self.new }
        ensures index { IfOk result (λ held. CountsWhere held codes.now row_codes.now self.old self.new) }
        ensures holds { IfOk result (λ held. IsTrue bounded → HoldsWhere held codes.now row_codes.now self.old) }
        ensures all { IfOk result (λ held. bounded ≡ false → IsTrue held) }
        ensures err { OnErr result (self.new ≡ self.old) }
    {
        let asked = AskedRow {
            columns: self.access.key.as_slice(),
            codes: row_codes,
        };
        if let Some(group) = self.groups.get_mut(asked) {
            if !may_come(bounded, group, &self.access, row_codes) {
                return Ok(false);
            }
            count_up(alloc, codes, group, &self.access, row_codes)?;
            self.total += 1;
            return Ok(true);
        }
        if !may_begin(bounded, &self.access) {
            return Ok(false);
        }
        let group = of_one(alloc, &self.access, row_codes)?;
        let key = GroupKey::of_row(alloc, self.access.key.as_slice(), row_codes)?;
        self.groups.insert(key, group)?;
        self.total += 1;
        Ok(true)
    }

    /// Counts one row with these codes fewer, wherever among the rows it stood. The tuple goes with its last row. It takes
    /// no memory.
    pub fn remove(&mut self, words: &[u64])
        ensures access { self.new.access ≡ self.old.access }
        ensures total { self.new.total ≤ self.old.total }
        ensures in_order { (codes : List Value) → IsInOrderFor codes self.old → IsInOrderFor codes self.new }
        ensures rest { (codes row : List Value) (front back : List (List Value)) → IsInOrderFor codes self.old
            → Spells codes (member_columns self.old.access) words.now row
            → IsIndexOf (read_index codes self.old) (front ++ row ∷ back)
            → IsIndexOf (read_index codes self.new) (front ++ back) }
    {
        let asked = AskedRow {
            columns: self.access.key.as_slice(),
            codes: words,
        };
        let group = match self.groups.get_mut(asked) {
            Some(group) => group,
            None => return,
        };
        let at = match group.position_of(&self.access, words) {
            Some(at) => at,
            None => return,
        };
        let rows = group.count(at) as usize;
        if group.len().max(rows) > 1 {
            count_down(group, at);
            self.total -= 1;
            return;
        }
        self.groups.swap_remove(AskedRow {
            columns: self.access.key.as_slice(),
            codes: words,
        });
        self.total -= 1;
    }

    /// The place and the length of a key's group, or none where it is empty. It takes no memory.
    pub fn find(&self, key: &[u64]) -> Option<(u64, u32)>
        requires { length key.now ≡ length self.now.access.key }
        ensures len { IfSome result (λ found. found.1 ≡ length (codes_at self.now found.0)) }
        ensures group { (codes : List Value) (rows : List (List Value)) → IsInOrderFor codes self.now
            → AllKnown codes key.now → IsIndexOf (read_index codes self.now) rows
            → MatchOption result (group_of rows self.now.access (read codes key.now) ≡ [])
            (λ found. map (read codes) (codes_at self.now found.0)
            ≡ group_of rows self.now.access (read codes key.now)) }
        ensures some { IfSome result (λ found. 0 < found.1) }
        ensures stands { IfSome result (λ found. found.0 < length self.now.groups) }
    {
        // Each group has fewer than 2^32 tuples, as there are fewer rows.
        self.recall_few_rows();
        match self.groups.get_index_of(AskedCodes { codes: key }) {
            None => None,
            Some(index) => Some((index as u64, self.groups[index].len() as u32)),
        }
    }

    /// A column's code of a tuple that `find` found, while the index is as it was. It takes no memory.
    pub fn word(&self, place: u64, i: u32, column: ColumnId) -> u64
        requires stands { place < length self.now.groups }
        requires member { i < length (codes_at self.now place) }
        requires column { IsTrue (has_column (member_columns self.now.access) column) }
        ensures { result ≡ code_in (member_columns self.now.access)
            (slice_index_or (codes_at self.now place) i []) column }
    {
        let at = column_position(&self.access, column);
        self.groups[place as usize].codes(i as usize)[at]
    }

    /// The size of the greatest group, 0 where there is none. It takes no memory.
    pub fn greatest(&self) -> u32
        ensures { (codes : List Value) (rows : List (List Value)) → IsInOrderFor codes self.now
            → IsIndexOf (read_index codes self.now) rows
            → result ≡ greatest rows self.now.access.key self.now.access.fetched }
    {
        // Each group has fewer than 2^32 tuples, as there are fewer rows.
        self.recall_few_rows();
        let mut best = 0;
        for i in 0..self.groups.len() {
            best = (self.groups[i].len() as u32).max(best);
        }
        best
    }

    /// An equal index, in a time that grows with its size.
    pub fn copy(&self, alloc: Global) -> Result<KeyedIndex<W>, NoMemory>
        ensures { IfOk result (λ copy. copy ≡ self.now) }
    {
        let access = self.access.copy(alloc)?;
        let groups = copy_groups(alloc, &self.groups)?;
        Ok(KeyedIndex {
            access,
            total: self.total,
            groups,
        })
    }
}
