// The index of an access constraint by the width of its key.
ghost use Rattle.std.specs.Prelude.{◌≡◌, ◌+◌, ◌<◌, ◌≤◌, ◌^◌, ◌↔◌, ◌++◌, ◌∷◌, [], ℕ, List, length, map, slice_index_or, IsTrue, IfSome, MatchOption, IfOk, OnOk, OnErr, if◌then◌else◌};
ghost use Rattle.beas_core.specs.declared.value.Value.{Value};
ghost use Rattle.beas_core.specs.Groups.{greatest, group_of, member_columns, has_column};
ghost use Rattle.access_index.specs.Index.{IsIndexOf};
ghost use Rattle.code_index.specs.Codes.{AreDistinct};
ghost use Rattle.code_index.specs.Reading.{read, read_index, pick, AllKnown, Spells, IsInOrderFor, codes_at, code_in};
ghost use Rattle.code_index.specs.Taking.{CountsWhere, HoldsWhere};
ghost use Rattle.word_index.specs.Widths.{index_in};

use beas_core::{Access, ColumnId, NoMemory};
use code_index::{FixedIndex, Interner, LongIndex};
use seeded_hash::SeededHashing;
use std::alloc::Global;

/// The index of an access constraint, whatever the width of its key.
#[derive(Drop)]
pub enum AnyIndex {
    Zero(FixedIndex<0>),
    One(FixedIndex<1>),
    Two(FixedIndex<2>),
    Three(FixedIndex<3>),
    Four(FixedIndex<4>),
    Long(LongIndex),
}

/// The same for each width.
macro_rules! of_any {
    ($any:expr, $index:ident => $body:expr) => {
        match $any {
            AnyIndex::Zero($index) => $body,
            AnyIndex::One($index) => $body,
            AnyIndex::Two($index) => $body,
            AnyIndex::Three($index) => $body,
            AnyIndex::Four($index) => $body,
            AnyIndex::Long($index) => $body,
        }
    };
}

impl AnyIndex {
    /// An index of no rows, whose keys will be hashed as an interner's values are.
    pub fn new(alloc: Global, access: Access, hashing: SeededHashing) -> AnyIndex
        requires { length access.key ≤ 64 }
        ensures access { (index_in result).access ≡ access }
        ensures total { (index_in result).total ≡ 0 }
        ensures in_order { (codes : List Value) → AreDistinct codes → IsInOrderFor codes (index_in result) }
        ensures index { (codes : List Value) → IsIndexOf (read_index codes (index_in result)) [] }
    {
        match access.key.len() {
            0 => AnyIndex::Zero(FixedIndex::with_hashing(alloc, access, hashing)),
            1 => AnyIndex::One(FixedIndex::with_hashing(alloc, access, hashing)),
            2 => AnyIndex::Two(FixedIndex::with_hashing(alloc, access, hashing)),
            3 => AnyIndex::Three(FixedIndex::with_hashing(alloc, access, hashing)),
            4 => AnyIndex::Four(FixedIndex::with_hashing(alloc, access, hashing)),
            _ => AnyIndex::Long(LongIndex::with_hashing(alloc, access, hashing)),
        }
    }

    /// The constraint. It takes no memory.
    pub fn access(&self) -> &Access
        ensures { result.now ≡ (index_in self.now).access }
    {
        of_any!(self, index => index.access())
    }

    /// Counts one row more, wherever among the rows it stands. After an error the index is as it was.
    pub fn add(
        &mut self,
        alloc: Global,
        codes: &Interner,
        row_codes: &[u64],
    ) -> Result<(), NoMemory>
        requires in_order { IsInOrderFor codes.now (index_in self.old) }
        requires known { AllKnown codes.now (pick (member_columns (index_in self.old).access) row_codes.now) }
        requires room { (index_in self.old).total + 1 < 2 ^ 32 }
        ensures access { (index_in self.new).access ≡ (index_in self.old).access }
        ensures total { OnOk result ((index_in self.new).total ≡ (index_in self.old).total + 1) }
        ensures in_order { IsInOrderFor codes.now (index_in self.new) }
        ensures ok { OnOk result ((row : List Value) (front back : List (List Value))
            → Spells codes.now (member_columns (index_in self.old).access) row_codes.now row
            → IsIndexOf (read_index codes.now (index_in self.old)) (front ++ back)
            → IsIndexOf (read_index codes.now (index_in self.new)) (front ++ row ∷ back)) }
        ensures err { OnErr result (index_in self.new ≡ index_in self.old) }
    {
        of_any!(self, index => index.add(alloc, codes, row_codes))
    }

    /// Counts one row more, wherever among the rows it stands, where its tuple is there or its group has fewer members than
    /// the bound, and else it stays the index of its rows. The group is looked up once. After an error the index is as it was.
    pub fn add_if_holds(
        &mut self,
        alloc: Global,
        codes: &Interner,
        row_codes: &[u64],
    ) -> Result<bool, NoMemory>
        requires in_order { IsInOrderFor codes.now (index_in self.old) }
        requires known { AllKnown codes.now (pick (member_columns (index_in self.old).access) row_codes.now) }
        requires room { (index_in self.old).total + 1 < 2 ^ 32 }
        ensures access { (index_in self.new).access ≡ (index_in self.old).access }
        ensures total { IfOk result (λ held. (index_in self.new).total ≡ (index_in self.old).total + (if held then 1 else 0)) }
        ensures in_order { IsInOrderFor codes.now (index_in self.new) }
        ensures index { IfOk result (λ held. CountsWhere held codes.now row_codes.now
            (index_in self.old) (index_in self.new)) }
        ensures holds { IfOk result (λ held. HoldsWhere held codes.now row_codes.now (index_in self.old)) }
        ensures err { OnErr result (index_in self.new ≡ index_in self.old) }
    {
        of_any!(self, index => index.add_if_holds(alloc, codes, row_codes))
    }

    /// Counts one row fewer, wherever among the rows it stood. The tuple goes with its last row. It takes no memory.
    pub fn remove(&mut self, row_codes: &[u64])
        ensures access { (index_in self.new).access ≡ (index_in self.old).access }
        ensures total { (index_in self.new).total ≤ (index_in self.old).total }
        ensures in_order { (codes : List Value) → IsInOrderFor codes (index_in self.old) → IsInOrderFor codes (index_in self.new) }
        ensures rest { (codes row : List Value) (front back : List (List Value)) → IsInOrderFor codes (index_in self.old)
            → Spells codes (member_columns (index_in self.old).access) row_codes.now row
            → IsIndexOf (read_index codes (index_in self.old)) (front ++ row ∷ back)
            → IsIndexOf (read_index codes (index_in self.new)) (front ++ back) }
    {
        of_any!(self, index => index.remove(row_codes))
    }

    /// The place and the length of a key's group, or none where it is empty. It takes no memory.
    pub fn find(&self, key: &[u64]) -> Option<(u64, u32)>
        requires { length key.now ≡ length (index_in self.now).access.key }
        ensures len { IfSome result (λ found. found.1 ≡ length (codes_at (index_in self.now) found.0)) }
        ensures group { (codes : List Value) (rows : List (List Value)) → IsInOrderFor codes (index_in self.now)
            → AllKnown codes key.now → IsIndexOf (read_index codes (index_in self.now)) rows
            → MatchOption result (group_of rows (index_in self.now).access (read codes key.now) ≡ [])
            (λ found. map (read codes) (codes_at (index_in self.now) found.0)
            ≡ group_of rows (index_in self.now).access (read codes key.now)) }
        ensures some { IfSome result (λ found. 0 < found.1) }
        ensures stands { IfSome result (λ found. found.0 < length (index_in self.now).groups) }
    {
        of_any!(self, index => index.find(key))
    }

    /// A column's code of a tuple that `find` found, while the index is as it was. It takes no memory.
    pub fn word(&self, place: u64, i: u32, column: ColumnId) -> u64
        requires stands { place < length (index_in self.now).groups }
        requires member { i < length (codes_at (index_in self.now) place) }
        requires column { IsTrue (has_column (member_columns (index_in self.now).access) column) }
        ensures { result ≡ code_in (member_columns (index_in self.now).access)
            (slice_index_or (codes_at (index_in self.now) place) i []) column }
    {
        of_any!(self, index => index.word(place, i, column))
    }

    /// The size of the greatest group, 0 where there is none. It takes no memory.
    pub fn greatest(&self) -> u32
        ensures { (codes : List Value) (rows : List (List Value)) → IsInOrderFor codes (index_in self.now)
            → IsIndexOf (read_index codes (index_in self.now)) rows
            → result ≡ greatest rows (index_in self.now).access.key (index_in self.now).access.fetched }
    {
        of_any!(self, index => index.greatest())
    }

    /// An equal index, in a time that grows with its size.
    pub fn copy(&self, alloc: Global) -> Result<AnyIndex, NoMemory>
        ensures { IfOk result (λ copy. index_in copy ≡ index_in self.now) }
    {
        match self {
            AnyIndex::Zero(index) => Ok(AnyIndex::Zero(index.copy(alloc)?)),
            AnyIndex::One(index) => Ok(AnyIndex::One(index.copy(alloc)?)),
            AnyIndex::Two(index) => Ok(AnyIndex::Two(index.copy(alloc)?)),
            AnyIndex::Three(index) => Ok(AnyIndex::Three(index.copy(alloc)?)),
            AnyIndex::Four(index) => Ok(AnyIndex::Four(index.copy(alloc)?)),
            AnyIndex::Long(index) => Ok(AnyIndex::Long(index.copy(alloc)?)),
        }
    }
}
