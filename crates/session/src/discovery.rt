// The greatest groups of a table.
ghost use Rattle.std.specs.Prelude.{◌≡◌, ◌<◌, ◌≤◌, length, slice_index_or, [], All, IfOk};
ghost use Rattle.beas_core.specs.Results.{Gives};
ghost use Rattle.catalogue.specs.Database.{schema_of};
ghost use Rattle.session.specs.Stores.{database_in};
ghost use Rattle.session.specs.Carrying.{CarriesOut};
ghost use Rattle.session.specs.Effects.{discover_group_effect, discover_pairs_effect, greatest_effect, limit_or_refusal, name_at, named_pairs, resolution};
ghost use Rattle.session.specs.Turns.{IsWithin};

use crate::stored::{Store, columns_of, known_table, rows_of_table};
use beas_core::{
    Column, ColumnId, Duplicate, Fail, List, Name, NoMemory, Refusal, Steps, TableId, Text,
    limit_of,
};
use constraint_miner::{Pair, greatest_group, pairs_within};
use report::Report;
use std::alloc::Global;
use std::sync::ledger::Ledger;

/// A table and its columns, found by their names.
#[derive(Drop)]
pub struct Resolved {
    pub table: TableId,
    pub key: List<ColumnId>,
    pub fetched: List<ColumnId>,
}

fn resolve_names(
    alloc: Global,
    store: &Store,
    table: &Name,
    key: &List<Name>,
    fetched: &List<Name>,
) -> Result<Resolved, Fail>
    ensures found { Gives result (resolution (schema_of (database_in store.now)) table.now key.now fetched.now) }
    ensures live { IfOk result (λ found. found.table.0 < length (database_in store.now).tables) }
{
    let (table, key, fetched) = store.catalogue.resolve(alloc, table, key, fetched)?;
    Ok(Resolved {
        table,
        key,
        fetched,
    })
}

fn greatest_of<L: Ledger>(
    alloc: Global,
    store: &Store,
    found: &Resolved,
    steps: &mut Steps<L>,
) -> Result<Report, Fail>
    requires { found.now.table.0 < length (database_in store.now).tables }
    ensures carried { CarriesOut (greatest_effect (database_in store.now)
        found.now.table found.now.key found.now.fetched)
        (database_in store.now) result (database_in store.now) steps.old steps.new }
    ensures within { IfOk result IsWithin }
{
    let rows = rows_of_table(store, found.table);
    let most = greatest_group(alloc, rows, &found.key, &found.fetched, steps)?;
    Ok(Report::Greatest { most })
}

/// DISCOVER with FETCH. It reads each row of the table once.
pub fn discover_group<L: Ledger>(
    alloc: Global,
    store: &Store,
    table: &Name,
    key: &List<Name>,
    fetched: &List<Name>,
    steps: &mut Steps<L>,
) -> Result<Report, Fail>
    ensures carried { CarriesOut (discover_group_effect (database_in store.now) table.now key.now fetched.now)
        (database_in store.now) result (database_in store.now) steps.old steps.new }
    ensures within { IfOk result IsWithin }
{
    let found = resolve_names(alloc, store, table, key, fetched)?;
    greatest_of(alloc, store, &found, steps)
}

/// The number after LIMIT.
fn known_limit(alloc: Global, digits: &Text) -> Result<u32, Fail>
    ensures { Gives result (limit_or_refusal digits.now) }
{
    match limit_of(digits) {
        Some(limit) => Ok(limit),
        None => Err(Fail::Refused(Refusal::BadLimit {
            digits: digits.copy(alloc)?,
        })),
    }
}

/// The name of a column.
pub fn name_at(alloc: Global, columns: &[Column], column: ColumnId) -> Result<Name, NoMemory>
    requires { column.0 < length columns.now }
    ensures { IfOk result (λ name. name ≡ name_at columns.now column) }
{
    columns[column.0 as usize].name.copy(alloc)
}

/// Pairs of columns by their names.
fn named_pairs(
    alloc: Global,
    columns: &[Column],
    pairs: &[Pair],
) -> Result<List<(Name, Name, u32)>, NoMemory>
    requires { All (λ p. (p.0.0 < length columns.now) × (p.1.0 < length columns.now)) pairs.now }
    ensures { IfOk result (λ found. found ≡ named_pairs columns.now pairs.now) }
{
    let mut found = List::new(alloc);
    for pair in pairs {
        let first = name_at(alloc, columns, pair.0)?;
        let second = name_at(alloc, columns, pair.1)?;
        found.push((first, second, pair.2))?;
    }
    Ok(found)
}

/// DISCOVER with LIMIT. It reads each row of the table once.
pub fn discover_pairs<L: Ledger>(
    alloc: Global,
    store: &Store,
    table: &Name,
    digits: &Text,
    steps: &mut Steps<L>,
) -> Result<Report, Fail>
    ensures carried { CarriesOut (discover_pairs_effect (database_in store.now) table.now digits.now)
        (database_in store.now) result (database_in store.now) steps.old steps.new }
    ensures within { IfOk result IsWithin }
{
    let id = known_table(alloc, store, table)?;
    let limit = known_limit(alloc, digits)?;
    let columns = columns_of(store, id).as_slice();
    let rows = rows_of_table(store, id);
    let pairs = pairs_within(alloc, rows, columns.len() as u16, limit, steps)?;
    let found = named_pairs(alloc, columns, pairs.as_slice());
    drop(pairs);
    Ok(Report::Pairs { found: found? })
}
