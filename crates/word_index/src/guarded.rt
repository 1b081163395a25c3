// The guard and its updates.
ghost use Rattle.std.specs.Prelude.{◌≡◌, ◌≢◌, ◌+◌, ◌<◌, ◌≤◌, ◌^◌, [], length, All, IfOk, IsOk, IsTrue, OnOk, OnErr, Err};
ghost use Rattle.beas_core.specs.Shapes.{BlockIsWellFormed, width_of};
ghost use Rattle.catalogue.specs.Schema.{columns_at, has_access};
ghost use Rattle.catalogue.specs.Database.{schema_of, with_table, with_access, without_access, rows_at, with_more_rows, with_rows_kept, kept_rows, block_table};
ghost use Rattle.catalogue.specs.Refusing.{add_table_refusal, create_access_refusal, drop_access_refusal, insert_refusal, new_access};
ghost use Rattle.beas_core.specs.Results.{IsRefusedAs};
ghost use Rattle.update_guard.specs.Guarding.{IsGuarded};
ghost use Rattle.catalogue.specs.Stored.{create_access_reads};

use crate::indexes::CodeIndexes;
use beas_core::{
    AccessId, AccessSpec, Block, Column, Fail, Limits, List, Name, Row, Steps, TableId,
};
use catalogue::Catalogue;
use row_store::Rows;
use std::alloc::Global;
use std::sync::ledger::Ledger;
use update_guard::deleting::delete;
use update_guard::inserting::insert;
use update_guard::making::{create_table, drop_index, make_access};

/// Tables with their rows, and each live constraint with its index. Every constraint holds. It isn't `Debug`, since its
/// rows are handed out by `Rows::row` and by probes alone.
#[derive(Drop)]
pub struct WordGuarded {
    /// The tables and the live constraints.
    pub catalogue: Catalogue,
    /// The rows of each table, in the order of the tables.
    pub rows: List<Rows>,
    /// The index of each live constraint over codes, in the order of the constraints.
    pub(crate) indexes: CodeIndexes,
    ghost kept: { IsGuarded catalogue rows indexes },
}

/// A store has these three fields and no other: with a further field, such as a shadow of the rows that one run leaves to the
/// next, this would not compile.
fn guarded_fields(guarded: &WordGuarded) {
    let WordGuarded {
        catalogue: _catalogue,
        rows: _rows,
        indexes: _indexes,
    } = guarded;
}

impl WordGuarded {
    ghost use Rattle.word_index.specs.Stored.{database_in};

    /// A database without tables, whose maps will hash with the seed 0. It takes no memory.
    pub fn new(alloc: Global) -> WordGuarded
        ensures { database_in result ≡ record { tables = []; accesses = []; created = 0 } }
    {
        WordGuarded::seeded(alloc, 0)
    }

    /// A database without tables, whose maps will hash with a seed. It makes no difference to what is answered. It is meant
    /// to keep whoever doesn't know it from choosing values that collide, which no clause promises. It takes no memory.
    pub fn seeded(alloc: Global, seed: u64) -> WordGuarded
        ensures { database_in result ≡ record { tables = []; accesses = []; created = 0 } }
    {
        WordGuarded {
            catalogue: Catalogue::seeded(alloc, seed),
            rows: List::new(alloc),
            indexes: CodeIndexes::seeded(alloc, seed),
        }
    }

    /// Makes a table without rows. After any error the database is as it was.
    pub fn create_table(
        &mut self,
        alloc: Global,
        limits: &Limits,
        name: Name,
        columns: List<Column>,
    ) -> Result<TableId, Fail>
        requires { 1 ≤ length columns }
        ensures refused { IsRefusedAs result (add_table_refusal limits.now
            (schema_of (database_in self.old)) name columns) }
        ensures id { IfOk result (λ id. id.0 ≡ length (database_in self.old).tables) }
        ensures ok { OnOk result (database_in self.new ≡ with_table (database_in self.old) name columns) }
        ensures err { OnErr result (database_in self.new ≡ database_in self.old) }
    {
        create_table(
            alloc,
            &mut self.catalogue,
            &mut self.rows,
            limits,
            name,
            columns,
        )
    }

    /// Makes a constraint that holds over the rows as they are. It reads each row of the table once where
    /// the statement is admitted, whether or not the rows break the bound. After any error the database is
    /// as it was.
    pub fn create_access<L: Ledger>(
        &mut self,
        alloc: Global,
        limits: &Limits,
        spec: &AccessSpec,
        steps: &mut Steps<L>,
    ) -> Result<AccessId, Fail>
        requires { 1 ≤ length spec.now.fetched }
        ensures refused { IsRefusedAs result (create_access_refusal limits.now (database_in self.old) spec.now) }
        ensures id { IfOk result (λ id. id.0 ≡ (database_in self.old).created) }
        ensures ok { OnOk result (database_in self.new ≡ with_access (database_in self.old)
            (new_access (schema_of (database_in self.old)) spec.now)) }
        ensures err { OnErr result (database_in self.new ≡ database_in self.old) }
        ensures cost { result ≢ Err Fail.NoMemory → steps.new ≡ steps.old
            + create_access_reads limits.now (database_in self.old) spec.now }
        ensures at_most { steps.new ≤ steps.old + create_access_reads limits.now (database_in self.old) spec.now }
        ensures no_fewer { steps.old ≤ steps.new }
    {
        make_access(
            alloc,
            &mut self.catalogue,
            &self.rows,
            &mut self.indexes,
            limits,
            spec,
            steps,
        )
    }

    /// Drops a constraint with its index. Where its name is live the call takes no memory and succeeds; after any error
    /// the database is as it was.
    pub fn drop_access(&mut self, alloc: Global, name: &Name) -> Result<(), Fail>
        ensures refused { IsRefusedAs result (drop_access_refusal (schema_of (database_in self.old)) name.now) }
        ensures live { IsTrue (has_access (schema_of (database_in self.old)) name.now) → IsOk result }
        ensures ok { OnOk result (database_in self.new ≡ without_access (database_in self.old) name.now) }
        ensures err { OnErr result (database_in self.new ≡ database_in self.old) }
    {
        drop_index(alloc, &mut self.catalogue, &mut self.indexes, name)
    }

    /// Adds rows at the end of a table, all or none, and answers how many. Refused are the first row of
    /// another width, the first value of another type, rows past the limit, and the first row with which a
    /// constraint would not hold. It reads no row. After any error the database is as it was.
    pub fn insert(
        &mut self,
        alloc: Global,
        limits: &Limits,
        table: TableId,
        rows: List<Row>,
    ) -> Result<u32, Fail>
        requires live { table.0 < length (database_in self.old).tables }
        requires few { length rows < 2 ^ 32 }
        requires narrow { All (λ row. length row < 2 ^ 32) rows }
        ensures refused { IsRefusedAs result (insert_refusal limits.now (database_in self.old) table rows) }
        ensures count { IfOk result (λ count. count ≡ length rows) }
        ensures ok { OnOk result (database_in self.new ≡ with_more_rows (database_in self.old) table rows) }
        ensures err { OnErr result (database_in self.new ≡ database_in self.old) }
    {
        insert(
            alloc,
            &self.catalogue,
            &mut self.rows,
            &mut self.indexes,
            limits,
            table,
            rows,
        )
    }

    /// Takes the rows of a table out that meet all conditions of a block over it, and answers how many; the
    /// others keep their order. It reads each row once and takes no memory.
    pub fn delete<L: Ledger>(&mut self, filter: &Block, steps: &mut Steps<L>) -> u32
        requires form { BlockIsWellFormed filter.now }
        requires one { length filter.now.atoms ≡ 1 }
        requires live { (block_table filter.now).0 < length (database_in self.old).tables }
        requires wide { width_of filter.now.atoms 0 ≡ length
            (columns_at (schema_of (database_in self.old)) (block_table filter.now)) }
        ensures kept { database_in self.new ≡ with_rows_kept filter.now (database_in self.old) }
        ensures count { result + length (kept_rows filter.now (rows_at (database_in self.old) (block_table filter.now)))
            ≡ length (rows_at (database_in self.old) (block_table filter.now)) }
        ensures cost { steps.new ≡ steps.old + length (rows_at (database_in self.old) (block_table filter.now)) }
    {
        delete(
            &self.catalogue,
            &mut self.rows,
            &mut self.indexes,
            filter,
            steps,
        )
    }

    /// Lets the database go.
    pub fn discard(self) {
        self.indexes.discard();
    }
}
