// What a guard asks of the indexes of its constraints, and the list of `AccessIndex`es as one answer to it.
ghost use Rattle.std.specs.Prelude.{◌≡◌, ◌+◌, ◌<◌, ◌≤◌, ◌^◌, ◌↔◌, ◌++◌, ◌∷◌, [], ℕ, List, length, remove, IsTrue, IfOk, OnOk, OnErr, if◌then◌else◌};
ghost use Rattle.beas_core.specs.Types.{Row};
ghost use Rattle.beas_core.specs.Groups.{Holds, greatest};
ghost use Rattle.beas_core.specs.Shapes.{AccessIsWellFormed};
ghost use Rattle.access_index.specs.Index.{Index, IsIndexOf};
ghost use Rattle.update_guard.specs.Seen.{index_at, IsMoved, IsBuilt};

use access_index::AccessIndex;
use beas_core::{Access, NoMemory, Row, Steps};
use row_store::Rows;
use std::alloc::Global;
use std::sync::ledger::Ledger;

/// The indexes of a database's constraints, in the order of these. Contracts see a list of indexes, however they are
/// kept.
pub trait Indexes: Drop {
    ghost seen: { Self → List Index };

    /// How many there are.
    fn len(&self) -> usize
        ensures { result ≡ length (seen self.now) };

    /// Counts one row more, which comes after all others, in the index at a place where its constraint holds with it too,
    /// and else none. After an error all indexes are as they were.
    fn add_if_holds(&mut self, alloc: Global, place: usize, row: &Row) -> Result<bool, NoMemory>
        requires within { place < length (seen self.old) }
        requires room { (index_at (seen self.old) place).total + 1 < 2 ^ 32 }
        ensures moved { IsMoved (seen self.old) (seen self.new) place }
        ensures index { IfOk result (λ held. (front : List Row) → IsIndexOf (index_at (seen self.old) place) front
            → IsIndexOf (index_at (seen self.new) place) (if held then front ++ row.now ∷ [] else front)) }
        ensures holds { IfOk result (λ held. (front : List Row) → IsIndexOf (index_at (seen self.old) place) front
            → Holds front (index_at (seen self.old) place).access
            → (IsTrue held ↔ Holds (front ++ row.now ∷ []) (index_at (seen self.old) place).access)) }
        ensures err { OnErr result (seen self.new ≡ seen self.old) };

    /// Counts one row fewer in the index at a place, wherever among the rows it stood. It takes no memory.
    fn remove(&mut self, place: usize, row: &Row)
        requires { place < length (seen self.old) }
        ensures moved { IsMoved (seen self.old) (seen self.new) place }
        ensures rest { (front back : List Row) → IsIndexOf (index_at (seen self.old) place) (front ++ row.now ∷ back)
            → IsIndexOf (index_at (seen self.new) place) (front ++ back) };

    /// Counts rows that come after all others in the index at a place where the constraint holds with them all, and else
    /// none of them.
    fn add_rows(&mut self, alloc: Global, place: usize, rows: &[Row]) -> Result<bool, NoMemory>
        requires within { place < length (seen self.old) }
        requires room { (index_at (seen self.old) place).total + length rows.now < 2 ^ 32 }
        ensures moved { IsMoved (seen self.old) (seen self.new) place }
        ensures index { IfOk result (λ all. (front : List Row) → IsIndexOf (index_at (seen self.old) place) front
            → IsIndexOf (index_at (seen self.new) place) (if all then front ++ rows.now else front)) }
        ensures holds { IfOk result (λ all. (front : List Row) → IsIndexOf (index_at (seen self.old) place) front
            → Holds front (index_at (seen self.old) place).access
            → (IsTrue all ↔ Holds (front ++ rows.now) (index_at (seen self.old) place).access)) }
        ensures err { OnErr result ((front : List Row) → IsIndexOf (index_at (seen self.old) place) front
            → IsIndexOf (index_at (seen self.new) place) front) };

    /// Counts rows fewer in the index at a place, which came after all others. It takes no memory.
    fn remove_rows(&mut self, place: usize, rows: &[Row])
        requires { place < length (seen self.old) }
        ensures moved { IsMoved (seen self.old) (seen self.new) place }
        ensures rest { (front : List Row) → IsIndexOf (index_at (seen self.old) place) (front ++ rows.now)
            → IsIndexOf (index_at (seen self.new) place) front };

    /// Adds the index of rows for a constraint at the end, whether or not it holds over them, and answers the size of the
    /// greatest group. It reads each row once. After an error the indexes are as they were.
    fn build<L: Ledger>(
        &mut self,
        alloc: Global,
        access: Access,
        rows: &Rows,
        steps: &mut Steps<L>,
    ) -> Result<u32, NoMemory>
        requires { AccessIsWellFormed 64 access }
        ensures built { OnOk result (IsBuilt rows.now access (seen self.old) (seen self.new)) }
        ensures greatest { IfOk result (λ most. most ≡ greatest rows.now access.key access.fetched) }
        ensures err { OnErr result (seen self.new ≡ seen self.old) }
        ensures cost { OnOk result (steps.new ≡ steps.old + length rows.now) }
        ensures at_most { steps.new ≤ steps.old + length rows.now }
        ensures no_fewer { steps.old ≤ steps.new };

    /// Drops the index at a place. It takes no memory.
    fn drop_at(&mut self, place: usize)
        requires { place < length (seen self.old) }
        ensures { seen self.new ≡ remove (seen self.old) place };
}

impl Indexes for Vec<AccessIndex> {
    ghost seen = { λ s. s.items };

    fn len(&self) -> usize {
        self.len()
    }

    fn add_if_holds(&mut self, alloc: Global, place: usize, row: &Row) -> Result<bool, NoMemory> {
        let index = &mut self[place];
        if !index.would_hold(row) {
            return Ok(false);
        }
        index.add(alloc, row)?;
        Ok(true)
    }

    fn remove(&mut self, place: usize, row: &Row) {
        self[place].remove(row);
    }

    fn add_rows(&mut self, alloc: Global, place: usize, rows: &[Row]) -> Result<bool, NoMemory> {
        self[place].add_rows(alloc, rows)
    }

    fn remove_rows(&mut self, place: usize, rows: &[Row]) {
        self[place].remove_rows(rows);
    }

    fn build<L: Ledger>(
        &mut self,
        alloc: Global,
        access: Access,
        rows: &Rows,
        steps: &mut Steps<L>,
    ) -> Result<u32, NoMemory> {
        self.reserve(1)?;
        let index = AccessIndex::build(alloc, access, rows, steps)?;
        let most = index.greatest();
        self.push_reserved(index);
        Ok(most)
    }

    fn drop_at(&mut self, place: usize) {
        self.remove(place);
    }
}
