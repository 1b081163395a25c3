// Updates, read and carried out by a store of plain indexes.
ghost use Rattle.std.specs.Prelude.{◌≡◌, ◌<◌, ◌≤◌, ◌^◌, length, All, IfOk};
ghost use Rattle.beas_core.specs.Shapes.{BlockIsWellFormed};
ghost use Rattle.catalogue.specs.Queries.{BlockIsOver};
ghost use Rattle.session.specs.Statements.{StatementIsWellFormed, TuplesAreFew};

use beas_core::{
    AccessSpec, Block, Column, Duplicate, Fail, Limits, List, Name, NoMemory, Refusal, Row, Steps,
    Text,
};
use binder::{bind_delete, bind_rows};
use drawn_scenes::{push_report, reported, statement_of};
use report::Report;
use sql_text::{Cond, Literal, Statement};
use std::alloc::Global;
use std::sync::ledger::Ledger;
use update_guard::Guarded;

fn copy_columns(alloc: Global, columns: &[Column]) -> Result<List<Column>, NoMemory>
    ensures { IfOk result (λ copy. copy ≡ columns.now) }
{
    let mut copy = List::new(alloc);
    for column in columns {
        copy.push(Column {
            name: column.name.copy(alloc)?,
            kind: column.kind,
        })?;
    }
    Ok(copy)
}

fn create_table(
    alloc: Global,
    store: &mut Guarded,
    name: &Name,
    columns: &List<Column>,
) -> Result<Report, Fail>
    requires { 1 ≤ length columns.now }
{
    let columns = copy_columns(alloc, columns.as_slice())?;
    let name = name.copy(alloc)?;
    store.create_table(alloc, &Limits::standard(), name, columns)?;
    Ok(Report::Done)
}

fn bound_tuples(alloc: Global, tuples: &List<List<Literal>>) -> Result<List<Row>, Fail>
    requires { TuplesAreFew tuples.now }
    ensures few { IfOk result (λ rows. length rows < 2 ^ 32) }
    ensures narrow { IfOk result (All (λ row. length row < 2 ^ 32)) }
{
    bind_rows(alloc, &Limits::standard(), tuples)
}

fn insert(
    alloc: Global,
    store: &mut Guarded,
    table: &Name,
    tuples: &List<List<Literal>>,
) -> Result<Report, Fail>
    requires { TuplesAreFew tuples.now }
{
    let Some(id) = store.catalogue.table(table) else {
        return Err(Fail::Refused(Refusal::UnknownTable {
            name: table.copy(alloc)?,
        }));
    };
    let rows = bound_tuples(alloc, tuples)?;
    let rows = store.insert(alloc, &Limits::standard(), id, rows)?;
    Ok(Report::Changed { rows })
}

#[tactic(auto, using(crate::proofs::BlockFacts::block_is_live, crate::proofs::BlockFacts::block_is_wide))]
fn delete_rows<L: Ledger>(store: &mut Guarded, filter: &Block, steps: &mut Steps<L>) -> Report
    requires form { BlockIsWellFormed filter.now }
    requires one { length filter.now.atoms ≡ 1 }
    requires over { BlockIsOver store.old.catalogue filter.now }
{
    let rows = store.delete(filter, steps);
    Report::Changed { rows }
}

fn delete<L: Ledger>(
    alloc: Global,
    store: &mut Guarded,
    table: &Name,
    conditions: &List<Cond>,
    steps: &mut Steps<L>,
) -> Result<Report, Fail>
    requires { length conditions.now < 2 ^ 32 }
{
    let filter = bind_delete(
        alloc,
        &store.catalogue,
        &Limits::standard(),
        table,
        conditions,
    )?;
    Ok(delete_rows(store, &filter, steps))
}

fn create_access<L: Ledger>(
    alloc: Global,
    store: &mut Guarded,
    spec: &AccessSpec,
    steps: &mut Steps<L>,
) -> Result<Report, Fail>
    requires { 1 ≤ length spec.now.fetched }
{
    store.create_access(alloc, &Limits::standard(), spec, steps)?;
    Ok(Report::Done)
}

fn drop_access(alloc: Global, store: &mut Guarded, name: &Name) -> Result<Report, Fail> {
    store.drop_access(alloc, name)?;
    Ok(Report::Done)
}

/// Carries out an update. Any other statement is refused.
fn carry_out<L: Ledger>(
    alloc: Global,
    store: &mut Guarded,
    statement: &Statement,
    steps: &mut Steps<L>,
) -> Result<Report, Fail>
    requires { StatementIsWellFormed statement.now }
{
    match statement {
        Statement::CreateTable { name, columns } => create_table(alloc, store, name, columns),
        Statement::CreateAccess { spec } => create_access(alloc, store, spec, steps),
        Statement::DropAccess { name } => drop_access(alloc, store, name),
        Statement::Insert { table, rows } => insert(alloc, store, table, rows),
        Statement::Delete { table, conditions } => delete(alloc, store, table, conditions, steps),
        _ => Err(Fail::Refused(Refusal::Syntax)),
    }
}

/// What comes of an update. The statement goes by `drop`, here and elsewhere: a value of many kinds that goes at the end
/// of its block makes a long proof.
fn outcome_of<L: Ledger>(
    alloc: Global,
    store: &mut Guarded,
    spelled: &str,
    steps: &mut Steps<L>,
) -> Result<Report, Fail> {
    let statement = statement_of(alloc, spelled)?;
    let outcome = carry_out(alloc, store, &statement, steps);
    drop(statement);
    outcome
}

/// Carries out an update, and adds the lines of its report.
fn push_report_of<L: Ledger>(
    alloc: Global,
    store: &mut Guarded,
    lines: &mut Text,
    number: u32,
    spelled: &str,
    steps: &mut Steps<L>,
) -> Result<(), NoMemory> {
    let report = reported(outcome_of(alloc, store, spelled, steps))?;
    let pushed = push_report(alloc, lines, number, &report);
    drop(report);
    pushed
}

/// Carries out updates, and adds the lines of their reports.
fn push_reports<L: Ledger>(
    alloc: Global,
    store: &mut Guarded,
    lines: &mut Text,
    statements: &[Text],
    steps: &mut Steps<L>,
) -> Result<(), NoMemory> {
    let mut number: u32 = 0;
    for statement in statements {
        number = number.saturating_add(1);
        push_report_of(alloc, store, lines, number, statement.as_str(), steps)?;
    }
    Ok(())
}

/// Carries out updates, and gives the lines of their reports, numbered from 1.
pub fn reports_by<L: Ledger>(
    alloc: Global,
    store: &mut Guarded,
    statements: &[Text],
    steps: &mut Steps<L>,
) -> Result<Text, NoMemory> {
    let mut lines = Text::new(alloc);
    push_reports(alloc, store, &mut lines, statements, steps)?;
    Ok(lines)
}
