// The store as open queries see it: a port whose tables can be kept as they are.
ghost use Rattle.catalogue.specs.Schema.{SchemaIsSound};

use crate::open::Freezes;
use beas_core::{Access, AccessId, AccessPort, ColumnId, Hits, NoMemory, Steps, TableId, Value};
use desk_model::Part;
use std::alloc::Global;
use std::sync::ledger::Ledger;
use word_index::{Frozen, WordGuarded};

/// A table as it was, with its constraints.
#[derive(Drop)]
pub struct KeptTable {
    frozen: Frozen,
}

/// The store as it is.
#[derive(Drop)]
pub struct CurrentStore<'a> {
    pub store: &'a WordGuarded,
    ghost sound: { SchemaIsSound store.now.catalogue },
}

impl AccessPort for KeptTable {
    ghost use Rattle.word_index.specs.Freezing.{members_in, part_in, stands_in};
    ghost use Rattle.word_index.specs.Parts.{rows_in};

    ghost rows = { λ k. rows_in (part_in k.frozen) };

    ghost accesses = { λ k. k.frozen.accesses };

    ghost members = { λ k. members_in k.frozen };

    ghost stands = { λ k. stands_in k.frozen };

    fn access(&self, id: AccessId) -> &Access {
        self.frozen.access(id)
    }

    fn probe<L: Ledger>(&self, id: AccessId, key: &[Value], steps: &mut Steps<L>) -> Hits {
        self.frozen.probe(id, key, steps)
    }

    fn value(&self, hits: &Hits, i: u32, column: ColumnId) -> &Value {
        self.frozen.value(hits, i, column)
    }
}

impl Part for KeptTable {
    ghost use Rattle.std.specs.Prelude.{[]};

    ghost table_of = { λ k. k.frozen.table };

    ghost on_table = { λ k i e l. (k.frozen.kept.each i (record { access = e; total = 0; buckets = [] }) e l).on };

    fn table(&self) -> TableId {
        self.frozen.table
    }

    fn has(&self, id: AccessId) -> bool {
        self.frozen.has(id)
    }
}

impl AccessPort for CurrentStore<'_> {
    ghost use Rattle.catalogue.specs.Database.{rows_at};
    ghost use Rattle.word_index.specs.Stored.{database_in, members_of, stands_in};

    ghost rows = { λ c. rows_at (database_in c.store.now) };

    ghost accesses = { λ c. c.store.now.catalogue.accesses };

    ghost members = { λ c. members_of c.store.now };

    ghost stands = { λ c. stands_in c.store.now };

    fn access(&self, id: AccessId) -> &Access {
        self.store.access(id)
    }

    fn probe<L: Ledger>(&self, id: AccessId, key: &[Value], steps: &mut Steps<L>) -> Hits {
        self.store.probe(id, key, steps)
    }

    fn value(&self, hits: &Hits, i: u32, column: ColumnId) -> &Value {
        self.store.value(hits, i, column)
    }
}

impl Freezes<KeptTable> for CurrentStore<'_> {
    ghost use Rattle.std.specs.Prelude.{◌<◌, length};
    ghost use Rattle.std.proofs.Math.Nat.{ne_of_lt};
    ghost use Rattle.word_index.specs.Stored.{database_in};

    ghost has_table = { λ c t. t.0 < length (database_in c.store.now).tables };

    ghost once = { λ c i j d l m. ne_of_lt (c.sound.ids_rise i j d l m) };

    fn freeze(&self, alloc: Global, table: TableId) -> Result<KeptTable, NoMemory> {
        let frozen = self.store.freeze(alloc, table)?;
        Ok(KeptTable { frozen })
    }
}
