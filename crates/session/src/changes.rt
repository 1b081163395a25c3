// Rows come and go.
ghost use Rattle.std.specs.Prelude.{◌≡◌, ◌<◌, ◌≤◌, ◌⊎◌, ◌^◌, length, All, IfOk};
ghost use Rattle.beas_core.specs.Shapes.{BlockIsWellFormed, width_of};
ghost use Rattle.beas_core.specs.Results.{Gives};
ghost use Rattle.catalogue.specs.Database.{RowFits, block_table, schema_of};
ghost use Rattle.outside.specs.Counts.{raised};
ghost use Rattle.outside.specs.Seen.{IsLater};
ghost use Rattle.catalogue.specs.Schema.{columns_at};
ghost use Rattle.session.specs.Stores.{database_in};
ghost use Rattle.session.specs.Carrying.{CarriesOut, Performs};
ghost use Rattle.session.specs.Effects.{Effect, Does, add_rows_effect, delete_binding, delete_effect, file_rows, insert_effect, load_action, load_effect, load_rows_effect, table_or_refusal, tuples_binding};
ghost use Rattle.session.specs.Statements.{TuplesAreFew};
ghost use Rattle.session.specs.Ties.{LoadIsShort};
ghost use Rattle.session.specs.Turns.{IsWithin};

use crate::loading::{LoadOutcome, load_file};
use crate::stored::{Store, columns_of, known_table};
use beas_core::{
    Block, Bytes, Duplicate, Fail, Limits, List, Name, Refusal, Row, Steps, TableId, Text,
};
use binder::{bind_delete, bind_rows};
use csv_load::rows_of;
use outside::Files;
use report::Report;
use sql_text::{Cond, Literal};
use std::alloc::Global;
use std::sync::ledger::Ledger;

/// Adds rows at the end of a table, all or none.
fn add_rows(
    alloc: Global,
    store: &mut Store,
    limits: &Limits,
    table: TableId,
    rows: List<Row>,
) -> Result<Report, Fail>
    requires live { table.0 < length (database_in store.old).tables }
    requires few { length rows < 2 ^ 32 }
    requires narrow { All (λ row. length row < 2 ^ 32) rows }
    ensures carried { CarriesOut (add_rows_effect limits.now (database_in store.old) table rows)
        (database_in store.old) result (database_in store.new) 0 0 }
    ensures within { IfOk result IsWithin }
{
    let rows = store.insert(alloc, limits, table, rows)?;
    Ok(Report::Changed { rows })
}

/// Adds the rows of a file at the end of its table, all or none. They fit the table's columns.
fn add_file_rows(
    alloc: Global,
    store: &mut Store,
    limits: &Limits,
    table: TableId,
    rows: List<Row>,
) -> Result<Report, Fail>
    requires live { table.0 < length (database_in store.old).tables }
    requires few { length rows < 2 ^ 32 }
    requires narrow { All (λ row. length row < 2 ^ 32) rows }
    requires fit { All (RowFits (columns_at (schema_of (database_in store.old)) table)) rows }
    ensures carried { CarriesOut (load_rows_effect limits.now (database_in store.old) table rows)
        (database_in store.old) result (database_in store.new) 0 0 }
    ensures within { IfOk result IsWithin }
{
    add_rows(alloc, store, limits, table, rows)
}

/// The rows of an INSERT.
fn bound_tuples(
    alloc: Global,
    limits: &Limits,
    tuples: &List<List<Literal>>,
) -> Result<List<Row>, Fail>
    requires { TuplesAreFew tuples.now }
    ensures bound { Gives result (tuples_binding limits.now tuples.now) }
    ensures few { IfOk result (λ rows. length rows < 2 ^ 32) }
    ensures narrow { IfOk result (All (λ row. length row < 2 ^ 32)) }
{
    bind_rows(alloc, limits, tuples)
}

/// INSERT.
pub fn insert(
    alloc: Global,
    store: &mut Store,
    limits: &Limits,
    table: &Name,
    tuples: &List<List<Literal>>,
) -> Result<Report, Fail>
    requires { TuplesAreFew tuples.now }
    ensures carried { CarriesOut (insert_effect limits.now (database_in store.old) table.now tuples.now)
        (database_in store.old) result (database_in store.new) 0 0 }
    ensures within { IfOk result IsWithin }
{
    let id = known_table(alloc, store, table)?;
    let rows = bound_tuples(alloc, limits, tuples)?;
    add_rows(alloc, store, limits, id, rows)
}

/// The rows of a file.
#[tactic(auto, using(crate::proofs::GivenFacts::given_or_fault))]
fn rows_in_file(
    alloc: Global,
    store: &Store,
    limits: &Limits,
    table: TableId,
    bytes: &Bytes,
) -> Result<List<Row>, Fail>
    requires live { table.0 < length (database_in store.now).tables }
    requires short { length bytes.now ≤ limits.now.file }
    ensures read { Gives result (file_rows limits.now
        (columns_at (schema_of (database_in store.now)) table) bytes.now) }
    ensures fit { IfOk result (All (RowFits (columns_at (schema_of (database_in store.now)) table))) }
    ensures few { IfOk result (λ rows. length rows < 2 ^ 32) }
    ensures narrow { IfOk result (All (λ row. length row < 2 ^ 32)) }
{
    rows_of(alloc, bytes.as_slice(), columns_of(store, table), limits)
}

/// LOAD of a known table, by what the load of its file gave.
fn load_rows(
    alloc: Global,
    store: &mut Store,
    limits: &Limits,
    file: &Text,
    table: TableId,
    outcome: &LoadOutcome,
) -> Result<Report, Fail>
    requires live { table.0 < length (database_in store.old).tables }
    requires short { LoadIsShort limits.now.file outcome.now }
    ensures carried { CarriesOut (load_effect limits.now (database_in store.old) file.now table outcome.now)
        (database_in store.old) result (database_in store.new) 0 0 }
    ensures within { IfOk result IsWithin }
{
    match outcome {
        LoadOutcome::Content(bytes) => {
            let rows = rows_in_file(alloc, store, limits, table, bytes)?;
            add_file_rows(alloc, store, limits, table, rows)
        }
        LoadOutcome::Failed => Err(Fail::Refused(Refusal::Unreadable {
            file: file.copy(alloc)?,
        })),
        LoadOutcome::TooLong => Err(Fail::Refused(Refusal::FileTooLong { limit: limits.file })),
    }
}

/// LOAD. The file of an unknown table isn't loaded.
pub fn load<F: Files>(
    alloc: Global,
    store: &mut Store,
    limits: &Limits,
    table: &Name,
    file: &Text,
    files: &mut F,
) -> Result<Report, Fail>
    ensures performed { Performs limits.now.file
        (load_action limits.now (database_in store.old)
        (table_or_refusal (schema_of (database_in store.old)) table.now) file.now)
        (database_in store.old) result (database_in store.new) 0 0 (F.seen files.old) (F.seen files.new) }
    ensures within { IfOk result IsWithin }
    ensures unread { (effect : Effect) → load_action limits.now (database_in store.old)
        (table_or_refusal (schema_of (database_in store.old)) table.now) file.now ≡ Does effect
        → files.new ≡ files.old }
    ensures later { IsLater (F.seen files.old) (F.seen files.new) }
    ensures counted { ((F.seen files.new).loads ≡ (F.seen files.old).loads)
        ⊎ ((F.seen files.new).loads ≡ raised 1 (F.seen files.old).loads) }
{
    let id = known_table(alloc, store, table)?;
    let outcome = load_file(alloc, files, file.as_str(), limits.file)?;
    load_rows(alloc, store, limits, file, id, &outcome)
}

/// The condition of a DELETE, as a block over its table.
fn filter_of(
    alloc: Global,
    store: &Store,
    limits: &Limits,
    table: &Name,
    conditions: &List<Cond>,
) -> Result<Block, Fail>
    requires { length conditions.now < 2 ^ 32 }
    ensures bound { Gives result (delete_binding limits.now (database_in store.now) table.now conditions.now) }
    ensures form { IfOk result BlockIsWellFormed }
    ensures one { IfOk result (λ block. length block.atoms ≡ 1) }
    ensures live { IfOk result (λ block. (block_table block).0 < length (database_in store.now).tables) }
    ensures wide { IfOk result (λ block. width_of block.atoms 0
        ≡ length (columns_at (schema_of (database_in store.now)) (block_table block))) }
{
    bind_delete(alloc, &store.catalogue, limits, table, conditions)
}

/// DELETE. It reads each row of the table once.
pub fn delete<L: Ledger>(
    alloc: Global,
    store: &mut Store,
    limits: &Limits,
    table: &Name,
    conditions: &List<Cond>,
    steps: &mut Steps<L>,
) -> Result<Report, Fail>
    requires { length conditions.now < 2 ^ 32 }
    ensures carried { CarriesOut (delete_effect limits.now (database_in store.old) table.now conditions.now)
        (database_in store.old) result (database_in store.new) steps.old steps.new }
    ensures within { IfOk result IsWithin }
{
    let filter = filter_of(alloc, store, limits, table, conditions)?;
    let rows = store.delete(&filter, steps);
    drop(filter);
    Ok(Report::Changed { rows })
}
