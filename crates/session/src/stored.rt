// What the store has, in the terms of its database.
ghost use Rattle.std.specs.Prelude.{◌≡◌, ◌<◌, ◌≤◌, length, IfOk};
ghost use Rattle.beas_core.specs.Results.{Gives};
ghost use Rattle.catalogue.specs.Database.{rows_at, schema_of};
ghost use Rattle.catalogue.specs.Schema.{columns_at};
ghost use Rattle.session.specs.Stores.{database_in};
ghost use Rattle.session.specs.Effects.{table_or_refusal};

use beas_core::{Column, Duplicate, Fail, List, Name, Refusal, TableId};
use row_store::Rows;
use std::alloc::Global;

/// The store: rows, catalogue and indexes together. Its type is named here alone.
pub type Store = word_index::WordGuarded;

/// The table with this name.
pub fn known_table(alloc: Global, store: &Store, name: &Name) -> Result<TableId, Fail>
    ensures found { Gives result (table_or_refusal (schema_of (database_in store.now)) name.now) }
    ensures live { IfOk result (λ id. id.0 < length (database_in store.now).tables) }
{
    match store.catalogue.table(name) {
        Some(id) => Ok(id),
        None => Err(Fail::Refused(Refusal::UnknownTable {
            name: name.copy(alloc)?,
        })),
    }
}

/// The columns of a table.
pub fn columns_of(store: &Store, id: TableId) -> &List<Column>
    requires { id.0 < length (database_in store.now).tables }
    ensures columns { result.now ≡ columns_at (schema_of (database_in store.now)) id }
    ensures few { length result.now ≤ 64 }
{
    store.catalogue.columns(id)
}

/// The rows of a table.
pub fn rows_of_table(store: &Store, id: TableId) -> &Rows
    requires { id.0 < length (database_in store.now).tables }
    ensures { result.now ≡ rows_at (database_in store.now) id }
{
    &store.rows.as_slice()[id.0 as usize]
}
