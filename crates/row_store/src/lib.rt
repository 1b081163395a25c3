//! The rows of one table, of which each that is handed out counts as one read.
#![tactic(auto)]

ghost use Rattle.std.specs.Prelude.{◌≡◌, ◌+◌, ◌<◌, ◌≤◌, ◌^◌, ◌↔◌, ◌++◌, ◌∷◌, [], length, take, slice_index_or, IfErr, IfOk, IsErrOf, OnOk, OnErr};
ghost use Rattle.std.specs.List.{SwappedAt, remove, swap};

use beas_core::{Counted, Fail, List, NoMemory, Refusal, Row, Steps, copy_row};
use std::alloc::Global;
use std::marker::Model;
use std::mem;
use std::sync::ledger::Ledger;

/// The rows of a table, in the order in which they came. There are fewer than 2 to the 32. Its rows are handed out by
/// `row` alone, so it isn't `Debug`.
#[derive(Drop)]
pub struct Rows {
    rows: Vec<Row>,
}

impl Model for Rows {
    ghost use Rattle.std.specs.Prelude.{◌<◌, ◌^◌, List, length};
    ghost use Rattle.beas_core.specs.declared.value.Value.{Value as Cell};

    ghost Value = { List (List Cell) };

    ghost view = { λ s. s.rows.items };

    ghost invariant = { λ s. length s.rows.items < 2 ^ 32 };
}

/// A table's rows have this one field and no other, so no second copy of a row: with a further field this would not compile.
fn rows_fields(rows: &Rows) {
    let Rows { rows: _rows } = rows;
}

/// Recalls that a table has fewer than 2^32 rows. The call is there for its clause and changes nothing.
pub fn recall_few_rows(rows: &Rows)
    ensures { length rows.now < 2 ^ 32 }
{
    let _len = rows.len();
}

fn too_many(limit: u32) -> Fail
    ensures { result ≡ Fail.Refused (Refusal.TooMany Counted.Rows limit) }
{
    Fail::Refused(Refusal::TooMany {
        what: Counted::Rows,
        limit: u64::from(limit),
    })
}

impl Rows {
    /// No rows, which takes no memory.
    pub fn new(alloc: Global) -> Rows
        ensures { result ≡ [] }
    {
        Rows {
            rows: Vec::new(alloc),
        }
    }

    /// How many rows there are. It counts no read.
    pub fn len(&self) -> u32
        ensures { result ≡ length self.now }
    {
        self.rows.len() as u32
    }

    /// The row with this index, counted as one read.
    pub fn row<L: Ledger>(&self, i: u32, steps: &mut Steps<L>) -> &Row
        requires { i < length self.now }
        ensures row { result.now ≡ slice_index_or self.now i [] }
        ensures cost { steps.new ≡ steps.old + 1 }
    {
        steps.raise(1);
        &self.rows[i as usize]
    }

    /// Adds a row at the end. It is refused as one too many where there are `limit` rows or more, and
    /// after any error the rows are as they were.
    pub fn push(&mut self, alloc: Global, row: Row, limit: u32) -> Result<(), Fail>
        ensures too_many { IsErrOf result (Fail.Refused (Refusal.TooMany Counted.Rows limit)) ↔ (limit ≤ length self.old) }
        ensures memory { length self.old < limit → IfErr result (λ why. why ≡ Fail.NoMemory) }
        ensures ok { OnOk result (self.new ≡ self.old ++ row ∷ []) }
        ensures err { OnErr result (self.new ≡ self.old) }
    {
        if self.len() >= limit {
            return Err(too_many(limit));
        }
        let mut last = List::new(alloc);
        last.push(row)?;
        self.append(alloc, &mut last, limit)
    }

    /// Moves all of `rows` to the end, in order. They are refused as too many where there would be more than
    /// `limit` rows, and after any error both lists are as they were.
    pub fn append(&mut self, alloc: Global, rows: &mut List<Row>, limit: u32) -> Result<(), Fail>
        ensures too_many { IsErrOf result (Fail.Refused (Refusal.TooMany Counted.Rows limit))
            ↔ (limit < length self.old + length rows.old) }
        ensures memory { length self.old + length rows.old ≤ limit → IfErr result (λ why. why ≡ Fail.NoMemory) }
        ensures ok { OnOk result (self.new ≡ self.old ++ rows.old) }
        ensures moved { OnOk result (rows.new ≡ []) }
        ensures err { OnErr result (self.new ≡ self.old) }
        ensures stay { OnErr result (rows.new ≡ rows.old) }
    {
        let len = self.len();
        if len > limit || rows.len() > (limit - len) as usize {
            return Err(too_many(limit));
        }
        let mut moved = mem::replace(rows, List::new(alloc)).into_vec();
        // the first rows of a table stay where they are: to move them would take a second list as long as theirs
        if len == 0 {
            self.rows = moved;
            return Ok(());
        }
        let outcome = self.rows.append(&mut moved);
        *rows = List::from_vec(moved);
        outcome?;
        Ok(())
    }

    /// An equal list. It hands out no row and counts no read.
    pub fn copy(&self, alloc: Global) -> Result<Rows, NoMemory>
        ensures { IfOk result (λ copy. copy ≡ self.now) }
    {
        let mut rows = Vec::with_capacity(alloc, self.rows.len())?;
        for row in &self.rows {
            rows.push(copy_row(alloc, row)?)?;
        }
        Ok(Rows { rows })
    }

    /// Takes the row with this index out; those after it close up. It takes no memory and counts no read.
    pub fn remove(&mut self, i: u32)
        requires { i < length self.old }
        ensures { self.new ≡ remove self.old i }
    {
        self.rows.remove(i as usize);
    }

    /// Puts two rows in each other's place. It takes no memory and counts no read.
    pub fn swap(&mut self, i: u32, j: u32)
        requires first { i < length self.old }
        requires second { j < length self.old }
        ensures swapped { self.new ≡ swap self.old i j }
        ensures by_index { SwappedAt self.old self.new i j }
    {
        self.rows.swap(i as usize, j as usize);
    }

    /// Keeps the first `len` rows. It takes no memory and counts no read.
    pub fn truncate(&mut self, len: u32)
        requires { len ≤ length self.old }
        ensures { self.new ≡ take len self.old }
    {
        self.rows.truncate(len as usize);
    }
}
