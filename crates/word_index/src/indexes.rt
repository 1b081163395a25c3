// The indexes of a guard's constraints over the codes of one interner.
ghost use Rattle.std.specs.Prelude.{◌≡◌, ◌+◌, ◌<◌, [], List, length, map, max, slice_index_or, All, IsTrue, IfOk};
ghost use Rattle.beas_core.specs.Types.{Row};
ghost use Rattle.beas_core.specs.Groups.{group_of, member_columns, has_column, value_in};
ghost use Rattle.access_index.specs.Index.{IsIndexOf, members_at, stands_at};
ghost use Rattle.update_guard.specs.Seen.{index_at};

use crate::any::AnyIndex;
use crate::bulk::{add_rows, index_of, remove_rows};
use crate::copying::copies_at;
use crate::probing::{probe_in, value_in_hits};
use crate::rows::{add_if_holds, remove_row};
use beas_core::{Access, ColumnId, Hits, NoMemory, Row, Steps, Value};
use code_index::Interner;
use row_store::{Rows, recall_few_rows};
use std::alloc::Global;
use std::marker::Model;
use std::sync::ledger::Ledger;
use update_guard::Indexes;

/// The indexes of constraints over codes, with the values of these. Each value is kept once, whatever number of tuples
/// have it. Contracts see the indexes of values. Its tuples are handed out after a probe alone, so it isn't `Debug`.
#[derive(Drop)]
pub struct CodeIndexes {
    codes: Interner,
    indexes: Vec<AnyIndex>,
}

impl Model for CodeIndexes {
    ghost use Rattle.std.specs.Prelude.{List};
    ghost use Rattle.access_index.specs.Index.{Index};
    ghost use Rattle.word_index.specs.Kept.{meanings, AreKept};

    ghost Value = { List Index };

    ghost view = { λ s. meanings s.codes s.indexes.items };

    ghost invariant = { λ s. AreKept s.codes s.indexes.items };
}

/// The indexes of a store have these two fields and no other: with a further field this would not compile.
fn indexes_fields(indexes: &CodeIndexes) {
    let CodeIndexes {
        codes: _codes,
        indexes: _indexes,
    } = indexes;
}

impl CodeIndexes {
    /// No indexes, whose maps will hash with a seed. It takes no memory.
    pub fn seeded(alloc: Global, seed: u64) -> CodeIndexes
        ensures { result ≡ [] }
    {
        CodeIndexes {
            codes: Interner::seeded(alloc, seed),
            indexes: Vec::new(alloc),
        }
    }

    /// The group of a key in the index at a place, counted: the greater of 1 and the number of its tuples. It takes no
    /// memory.
    pub fn probe<L: Ledger>(&self, place: usize, key: &[Value], steps: &mut Steps<L>) -> Hits
        requires within { place < length self.now }
        requires width { length key.now ≡ length (index_at self.now place).access.key }
        ensures access { result.access ≡ (index_at self.now place).access.id }
        ensures members { (rows : List Row) → IsIndexOf (index_at self.now place) rows
            → members_at (index_at self.now place) result
            ≡ group_of rows (index_at self.now place).access key.now }
        ensures len { result.len ≡ length (members_at (index_at self.now place) result) }
        ensures stands { stands_at (index_at self.now place) result }
        ensures cost { steps.new ≡ steps.old + max 1 result.len }
    {
        probe_in(&self.codes, &self.indexes[place], key, steps)
    }

    /// A column of a tuple that a probe of the index at a place found and counted, while the indexes are as they were. It
    /// takes no memory.
    pub fn value(&self, place: usize, hits: &Hits, i: u32, column: ColumnId) -> &Value
        requires within { place < length self.now }
        requires stands { stands_at (index_at self.now place) hits.now }
        requires member { i < hits.now.len }
        requires column { IsTrue (has_column (member_columns (index_at self.now place).access) column) }
        ensures { result.now ≡ value_in (member_columns (index_at self.now place).access)
            (slice_index_or (members_at (index_at self.now place) hits.now) i []) column }
    {
        value_in_hits(&self.codes, &self.indexes[place], hits, i, column)
    }

    /// Copies of the indexes at some places, in the order of these, with a copy of the interner.
    pub fn copy_of(&self, alloc: Global, places: &[usize]) -> Result<CodeIndexes, NoMemory>
        requires { All (λ place. place < length self.now) places.now }
        ensures { IfOk result (λ copy. copy ≡ map (index_at self.now) places.now) }
    {
        let codes = self.codes.copy(alloc)?;
        let indexes = copies_at(alloc, self.indexes.as_slice(), places)?;
        Ok(CodeIndexes { codes, indexes })
    }

    /// Lets the indexes go.
    pub fn discard(self) {}
}

impl Indexes for CodeIndexes {
    ghost seen = { λ s. s };

    fn len(&self) -> usize {
        self.indexes.len()
    }

    fn add_if_holds(&mut self, alloc: Global, place: usize, row: &Row) -> Result<bool, NoMemory> {
        let mut row_codes = [0; 64];
        add_if_holds(
            alloc,
            &mut self.codes,
            &mut self.indexes[place],
            row.as_slice(),
            &mut row_codes,
        )
    }

    fn remove(&mut self, place: usize, row: &Row) {
        remove_row(&self.codes, &mut self.indexes[place], row.as_slice());
    }

    fn add_rows(&mut self, alloc: Global, place: usize, rows: &[Row]) -> Result<bool, NoMemory> {
        add_rows(alloc, &mut self.codes, &mut self.indexes[place], rows)
    }

    fn remove_rows(&mut self, place: usize, rows: &[Row]) {
        remove_rows(&self.codes, &mut self.indexes[place], rows);
    }

    fn build<L: Ledger>(
        &mut self,
        alloc: Global,
        access: Access,
        rows: &Rows,
        steps: &mut Steps<L>,
    ) -> Result<u32, NoMemory> {
        // The index is of these rows, fewer than 2^32.
        recall_few_rows(rows);
        self.indexes.reserve(1)?;
        let index = index_of(alloc, &mut self.codes, access, rows, steps)?;
        let most = index.greatest();
        self.indexes.push_reserved(index);
        Ok(most)
    }

    fn drop_at(&mut self, place: usize) {
        let index = self.indexes.remove(place);
        // Let go by a call, whose proof is far shorter than that of a drop at the end of a scope.
        drop(index);
    }
}
