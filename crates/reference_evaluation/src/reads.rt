// The reads of a query over tables.
ghost use Rattle.std.specs.Prelude.{◌≡◌, map, filter, length, slice_index_or, sum_by, IfOk};
ghost use Rattle.beas_core.specs.Groups.{project, same_row};
ghost use Rattle.beas_core.specs.Derivations.{access_in};
ghost use Rattle.beas_core.specs.Queries.{query_reads, reads_at};
ghost use Rattle.beas_core.specs.Reads.{access_of_step, probe_reads};
ghost use Rattle.beas_core.specs.Trees.{blocks_of};
ghost use Rattle.reference_coverage.specs.Tasks.{BlocksHaveFewPlaces};
ghost use Rattle.reference_evaluation.specs.Tables.{rows_in};

use crate::keys::key_columns;
use crate::plans_on_tables::PlansOnTables;
use crate::probes::{BlockProbe, query_probes};
use crate::rows::{distinct_rows, project, rows_of};
use beas_core::{
    Access, AccessId, ColumnId, DStep, List, NoMemory, Query, Row, TableId, Value, compare_rows,
};
use reference_coverage::{access_with, columns_of, steps_of};
use std::alloc::Global;
use std::cmp::Ordering;

/// The table of the constraint with this id, the first where there is no such constraint.
#[tactic(auto, unfolding(beas_core::specs::Derivations::access_in))]
fn table_with(accesses: &[Access], id: AccessId) -> TableId
    ensures { result ≡ (access_in accesses.now id).table }
{
    match access_with(accesses, id) {
        Some(access) => access.table,
        None => TableId(0),
    }
}

fn has_key(
    alloc: Global,
    columns: &[ColumnId],
    row: &[Value],
    key: &[Value],
) -> Result<bool, NoMemory>
    ensures { IfOk result (λ has. has ≡ same_row (project columns.now row.now) key.now) }
{
    let part = project(alloc, columns, row)?;
    Ok(compare_rows(part.as_slice(), key) == Ordering::Equal)
}

/// The tuples over some columns of the rows that have this key.
fn members_of(
    alloc: Global,
    rows: &[Row],
    key_columns: &[ColumnId],
    columns: &[ColumnId],
    key: &[Value],
) -> Result<List<Row>, NoMemory>
    ensures { IfOk result (λ members. members ≡ map (project columns.now)
        (filter (λ row. same_row (project key_columns.now row) key.now) rows.now)) }
{
    let mut members = List::new(alloc);
    for row in rows {
        if has_key(alloc, key_columns, row.as_slice(), key)? {
            members.push(project(alloc, columns, row.as_slice())?)?;
        }
    }
    Ok(members)
}

/// What one probe of the constraint with this id counts: the greater of 1 and the size of its group.
fn probe_reads(
    alloc: Global,
    over: &PlansOnTables,
    id: AccessId,
    key: &[Value],
) -> Result<u64, NoMemory>
    ensures { IfOk result (λ reads. reads
        ≡ probe_reads (rows_in over.now.tables.now) (access_in over.now.plans.accesses.now id) key.now) }
{
    let accesses = over.plans.accesses;
    let rows = rows_of(over.tables, table_with(accesses, id));
    let columns = columns_of(alloc, accesses, id)?;
    let members = members_of(
        alloc,
        rows,
        key_columns(accesses, id),
        columns.as_slice(),
        key,
    )?;
    let group = distinct_rows(members);
    Ok((group.len() as u64).max(1))
}

/// The constraint of the step with this number.
fn id_of_step(steps: &[DStep], number: usize) -> AccessId
    ensures { result ≡ slice_index_or (map (λ s. s.access) steps.now) number (record { 0 = 0 }) }
{
    match steps.get(number) {
        Some(step) => step.access,
        None => AccessId(0),
    }
}

fn reads_at(alloc: Global, over: &PlansOnTables, probe: &BlockProbe) -> Result<u64, NoMemory>
    ensures { IfOk result (λ reads. reads ≡ reads_at (rows_in over.now.tables.now) over.now.plans.accesses.now
        over.now.plans.derivations.now probe.now) }
{
    let steps = steps_of(over.plans.derivations, probe.block);
    let id = id_of_step(steps, probe.probe.step);
    probe_reads(alloc, over, id, probe.probe.key.as_slice())
}

fn reads_of_probes(
    alloc: Global,
    over: &PlansOnTables,
    found: &[BlockProbe],
) -> Result<u128, NoMemory>
    ensures { IfOk result (λ reads. reads ≡ sum_by (reads_at (rows_in over.now.tables.now)
        over.now.plans.accesses.now over.now.plans.derivations.now) found.now) }
{
    let mut reads: u128 = 0;
    for probe in found {
        reads += u128::from(reads_at(alloc, over, probe)?);
    }
    Ok(reads)
}

/// The reads of a query by the plans of its blocks.
pub fn query_reads(alloc: Global, over: &PlansOnTables, query: &Query) -> Result<u128, NoMemory>
    requires flags { length over.now.plans.guided.now ≡ length (blocks_of query.now) }
    requires few { BlocksHaveFewPlaces query.now }
    ensures { IfOk result (λ reads. reads ≡ query_reads (rows_in over.now.tables.now) over.now.plans.accesses.now
        over.now.plans.guided.now over.now.plans.derivations.now query.now) }
{
    let found = query_probes(alloc, over, query)?;
    reads_of_probes(alloc, over, found.as_slice())
}
