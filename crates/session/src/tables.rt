// Tables and constraints are made, and constraints are dropped.
ghost use Rattle.std.specs.Prelude.{◌≡◌, ◌≤◌, length, IfOk};
ghost use Rattle.session.specs.Stores.{database_in};
ghost use Rattle.session.specs.Carrying.{CarriesOut};
ghost use Rattle.session.specs.Effects.{create_access_effect, create_table_effect, drop_access_effect};
ghost use Rattle.session.specs.Turns.{IsWithin};

use crate::stored::Store;
use beas_core::{AccessSpec, Column, Duplicate, Fail, Limits, List, Name, NoMemory, Steps};
use report::Report;
use std::alloc::Global;
use std::sync::ledger::Ledger;

fn copy_columns(alloc: Global, columns: &[Column]) -> Result<List<Column>, NoMemory>
    ensures { IfOk result (λ copy. copy ≡ columns.now) }
{
    let mut copy = List::new(alloc);
    for column in columns {
        copy.push(Column {
            name: column.name.copy(alloc)?,
            kind: column.kind,
        })?;
    }
    Ok(copy)
}

/// CREATE TABLE.
pub fn create_table(
    alloc: Global,
    store: &mut Store,
    limits: &Limits,
    name: &Name,
    columns: &List<Column>,
) -> Result<Report, Fail>
    requires { 1 ≤ length columns.now }
    ensures carried { CarriesOut (create_table_effect limits.now (database_in store.old) name.now columns.now)
        (database_in store.old) result (database_in store.new) 0 0 }
    ensures within { IfOk result IsWithin }
{
    let name = name.copy(alloc)?;
    let columns = copy_columns(alloc, columns.as_slice())?;
    store.create_table(alloc, limits, name, columns)?;
    Ok(Report::Done)
}

/// CREATE ACCESS. Past the checks of names and shape it reads each row of the table once.
pub fn create_access<L: Ledger>(
    alloc: Global,
    store: &mut Store,
    limits: &Limits,
    spec: &AccessSpec,
    steps: &mut Steps<L>,
) -> Result<Report, Fail>
    requires { 1 ≤ length spec.now.fetched }
    ensures carried { CarriesOut (create_access_effect limits.now (database_in store.old) spec.now)
        (database_in store.old) result (database_in store.new) steps.old steps.new }
    ensures within { IfOk result IsWithin }
{
    store.create_access(alloc, limits, spec, steps)?;
    Ok(Report::Done)
}

/// DROP ACCESS.
pub fn drop_access(alloc: Global, store: &mut Store, name: &Name) -> Result<Report, Fail>
    ensures carried { CarriesOut (drop_access_effect (database_in store.old) name.now)
        (database_in store.old) result (database_in store.new) 0 0 }
    ensures within { IfOk result IsWithin }
{
    store.drop_access(alloc, name)?;
    Ok(Report::Done)
}
