// A store of plain indexes that has the rows of another store.
ghost use Rattle.std.specs.Prelude.{◌≡◌, ◌<◌, ◌≤◌, ◌^◌, length, All, IfOk, IsTrue};
ghost use Rattle.update_guard.specs.Stored.{database_in};

use crate::copies::copied_rows;
use beas_core::{
    Column, Counted, Duplicate, Fail, Limits, List, Name, NoMemory, Refusal, Row, Steps, TableId,
};
use catalogue::{Catalogue, recall_soundness};
use row_store::{Rows, recall_few_rows};
use std::alloc::Global;
use std::sync::ledger::Ledger;
use update_guard::Guarded;

fn copied_columns(alloc: Global, columns: &[Column]) -> Result<List<Column>, NoMemory>
    ensures { IfOk result (λ copies. copies ≡ columns.now) }
{
    let mut copies = List::new(alloc);
    for column in columns {
        copies.push(Column {
            name: column.name.copy(alloc)?,
            kind: column.kind,
        })?;
    }
    Ok(copies)
}

/// Whether each row is so short that a store takes it, as each row of a store is.
fn are_short(rows: &[Row]) -> bool
    ensures { IsTrue result → All (λ row. length row < 2 ^ 32) rows.now }
{
    rows.iter().all(|row| row.len() < 4_294_967_296)
}

fn too_many_columns() -> Fail {
    Fail::Refused(Refusal::TooMany {
        what: Counted::Columns,
        limit: u64::from(Limits::standard().columns),
    })
}

/// Adds copies of some rows to a table.
fn add_rows<L: Ledger>(
    alloc: Global,
    plain: &mut Guarded,
    table: TableId,
    rows: &Rows,
    steps: &mut Steps<L>,
) -> Result<(), Fail>
    requires { table.0 < length (database_in plain.old).tables }
{
    // There are fewer than 2^32 rows, as an insert asks.
    recall_few_rows(rows);
    let copies = copied_rows(alloc, rows, steps)?;
    if !are_short(copies.as_slice()) {
        return Err(too_many_columns());
    }
    plain.insert(alloc, &Limits::standard(), table, copies)?;
    Ok(())
}

/// Makes a table with this name and these columns.
fn add_table(
    alloc: Global,
    plain: &mut Guarded,
    name: &Name,
    columns: &List<Column>,
) -> Result<TableId, Fail>
    requires { 1 ≤ length columns.now }
    ensures { IfOk result (λ id. id.0 < length (database_in plain.new).tables) }
{
    let name = name.copy(alloc)?;
    let columns = copied_columns(alloc, columns.as_slice())?;
    plain.create_table(alloc, &Limits::standard(), name, columns)
}

/// Makes a table of a catalogue with copies of these rows.
fn copy_table<L: Ledger>(
    alloc: Global,
    plain: &mut Guarded,
    catalogue: &Catalogue,
    id: TableId,
    rows: &Rows,
    steps: &mut Steps<L>,
) -> Result<(), Fail>
    requires { id.0 < length catalogue.now.tables }
{
    let table = add_table(
        alloc,
        plain,
        catalogue.table_name(id),
        catalogue.columns(id),
    )?;
    add_rows(alloc, plain, table, rows, steps)
}

/// Makes all tables of a catalogue with copies of these rows.
fn copy_tables<L: Ledger>(
    alloc: Global,
    plain: &mut Guarded,
    catalogue: &Catalogue,
    rows: &[Rows],
    steps: &mut Steps<L>,
) -> Result<(), Fail>
    requires { length rows.now ≡ length catalogue.now.tables }
{
    // There are so few tables that each place fits a `TableId`.
    recall_soundness(catalogue);
    for (place, table) in rows.iter().enumerate() {
        let id = TableId(place as u32);
        copy_table(alloc, plain, catalogue, id, table, steps)?;
    }
    Ok(())
}

fn no_store(why: Fail) -> Result<Option<Guarded>, NoMemory> {
    match why {
        Fail::Refused(_) => Ok(None),
        Fail::NoMemory => Err(NoMemory),
    }
}

/// The tables of a catalogue with copies of these rows, and without constraints, as a store of its own, over which
/// `evaluate` may be asked whatever indexes the other store keeps. Each row is read once. None is given where a table or
/// a row is refused, as those of another store aren't.
pub fn plain_store<L: Ledger>(
    alloc: Global,
    catalogue: &Catalogue,
    rows: &[Rows],
    steps: &mut Steps<L>,
) -> Result<Option<Guarded>, NoMemory>
    requires { length rows.now ≡ length catalogue.now.tables }
{
    let mut plain = Guarded::new(alloc);
    match copy_tables(alloc, &mut plain, catalogue, rows, steps) {
        Ok(()) => Ok(Some(plain)),
        Err(why) => {
            // A store that goes out of scope is proved anew in each crate where it does, with all its parts.
            plain.discard();
            no_store(why)
        }
    }
}
