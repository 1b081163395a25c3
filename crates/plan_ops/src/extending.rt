// One step: the valuations with the tuples that its probes find.
ghost use Rattle.std.specs.Prelude.{◌≡◌, ◌+◌, ◌*◌, ◌<◌, ◌≤◌, ◌^◌, length, map, flat_map, sum_by, All, IfOk, IsTrue};
ghost use Rattle.beas_core.specs.Coverage.{ClassesInRange};
ghost use Rattle.beas_core.specs.Derivations.{access_in, bound_by, is_live, key_is_bound};
ghost use Rattle.beas_core.specs.Groups.{group_of, member_columns, project};
ghost use Rattle.beas_core.specs.Order.{row_cmp};
ghost use Rattle.beas_core.specs.Reads.{probe_reads, step_reads};
ghost use Rattle.beas_core.specs.Sets.{distinct};
ghost use Rattle.beas_core.specs.Extensions.{extensions};
ghost use Rattle.plan_ops.specs.Joins.{IsJoin, IsSharing, IsWithin, joins};
ghost use Rattle.plan_ops.specs.Over.{Counts, IsOver, bound_set};

use crate::joining::{Join, join_of};
use crate::matching::joined_rows;
use crate::picking::distinct_values;
use crate::probing::groups_of;
use crate::valuations::Valuations;
use beas_core::{
    Access, AccessId, AccessPort, ColumnId, DStep, List, NoMemory, Normal, Row, Steps,
    sort_distinct,
};
use std::alloc::Global;
use std::sync::ledger::Ledger;

// How the tuples of a step join valuations.
fn join_of_step(
    alloc: Global,
    block: &Normal,
    step: &DStep,
    access: &Access,
    from: &Valuations,
) -> Result<Join, NoMemory>
    requires ranges { ClassesInRange block.now }
    requires over { IsOver (bound_set block.now from.now) from.now }
    ensures { IfOk result (IsJoin block.now (record { atom = step.now.atom; access = access.now }) from.now.classes) }
{
    join_of(alloc, block, step.atom, access, from.classes.as_slice())
}

// Each valuation with each tuple of its key's group that fits it, where these are the keys.
fn rows_by_keys<P: AccessPort, L: Ledger>(
    alloc: Global,
    port: &P,
    id: AccessId,
    join: &Join,
    key: &[ColumnId],
    keys: &[Row],
    rows: &[Row],
    reads: &mut u128,
    steps: &mut Steps<L>,
) -> Result<Vec<Row>, NoMemory>
    requires live { IsTrue (is_live (P.accesses port.now) id) }
    requires least { 1 ≤ (access_in (P.accesses port.now) id).bound }
    requires widths { All (λ key. length key ≡ length (access_in (P.accesses port.now) id).key) keys.now }
    requires room { reads.old + length keys.now * (access_in (P.accesses port.now) id).bound < 2 ^ 128 }
    requires columns { join.now.picked.0 ≡ member_columns (access_in (P.accesses port.now) id) }
    requires within { All (λ row. IsWithin (length row + length join.now.picked.0) join.now) rows.now }
    requires sharing { All (λ row. IsSharing (length row) join.now) rows.now }
    requires bound { All (λ row. All (λ column. column.0 < length row) key.now) rows.now }
    requires keys { keys.now ≡ distinct row_cmp (map (project key.now) rows.now) }

    ensures rows { let access = access_in (P.accesses port.now) id in
        IfOk result (λ found. found.items ≡ flat_map (λ row. joins join.now.sources.items join.now.checks.items row
        (group_of (P.rows port.now access.table) access (project key.now row))) rows.now) }
    ensures reads { Counts result reads.old reads.new
        (sum_by (probe_reads (P.rows port.now) (access_in (P.accesses port.now) id)) keys.now) }
    ensures steps { Counts result steps.old steps.new
        (sum_by (probe_reads (P.rows port.now) (access_in (P.accesses port.now) id)) keys.now) }
{
    let groups = groups_of(alloc, port, id, keys, reads, steps)?;
    joined_rows(alloc, port, id, join, key, keys, &groups, rows)
}

// Each valuation with each tuple of its key's group that fits it. Each distinct key is probed once.
fn rows_by_key<P: AccessPort, L: Ledger>(
    alloc: Global,
    port: &P,
    id: AccessId,
    join: &Join,
    key: &[ColumnId],
    rows: &[Row],
    reads: &mut u128,
    steps: &mut Steps<L>,
) -> Result<Vec<Row>, NoMemory>
    requires live { IsTrue (is_live (P.accesses port.now) id) }
    requires least { 1 ≤ (access_in (P.accesses port.now) id).bound }
    requires width { length key.now ≡ length (access_in (P.accesses port.now) id).key }
    requires room { reads.old + length rows.now * (access_in (P.accesses port.now) id).bound < 2 ^ 128 }
    requires columns { join.now.picked.0 ≡ member_columns (access_in (P.accesses port.now) id) }
    requires within { All (λ row. IsWithin (length row + length join.now.picked.0) join.now) rows.now }
    requires sharing { All (λ row. IsSharing (length row) join.now) rows.now }
    requires bound { All (λ row. All (λ column. column.0 < length row) key.now) rows.now }

    ensures rows { let access = access_in (P.accesses port.now) id in
        IfOk result (λ found. found.items ≡ flat_map (λ row. joins join.now.sources.items join.now.checks.items row
        (group_of (P.rows port.now access.table) access (project key.now row))) rows.now) }
    ensures reads { Counts result reads.old reads.new (sum_by
        (probe_reads (P.rows port.now) (access_in (P.accesses port.now) id))
        (distinct row_cmp (map (project key.now) rows.now))) }
    ensures steps { Counts result steps.old steps.new (sum_by
        (probe_reads (P.rows port.now) (access_in (P.accesses port.now) id))
        (distinct row_cmp (map (project key.now) rows.now))) }
{
    let keys = distinct_values(alloc, key, rows)?;
    rows_by_keys(
        alloc,
        port,
        id,
        join,
        key,
        keys.as_slice(),
        rows,
        reads,
        steps,
    )
}

/// Every valuation with every tuple of its key's group that fits it, over the classes that are bound after the step.
/// Each distinct key is probed once. `reads` and `steps` rise by the step's share: for each of these keys the
/// greater of 1 and the size of its group.
pub fn extend<P: AccessPort, L: Ledger>(
    alloc: Global,
    port: &P,
    block: &Normal,
    step: &DStep,
    from: &Valuations,
    reads: &mut u128,
    steps: &mut Steps<L>,
) -> Result<Valuations, NoMemory>
    requires ranges { ClassesInRange block.now }
    requires live { IsTrue (is_live (P.accesses port.now) step.now.access) }
    requires key { IsTrue
        (key_is_bound block.now (P.accesses port.now) (bound_set block.now from.now) step.now) }
    requires over { IsOver (bound_set block.now from.now) from.now }
    requires room { reads.old
        + length from.now.rows * (access_in (P.accesses port.now) step.now.access).bound < 2 ^ 128 }

    ensures over { IfOk result (IsOver
        (bound_by block.now (P.accesses port.now) (bound_set block.now from.now) step.now)) }
    ensures rows { IfOk result (λ found. found.rows ≡ extensions
        (P.rows port.now) block.now (P.accesses port.now) step.now (bound_set block.now from.now) from.now.rows) }
    ensures reads { Counts result reads.old reads.new (step_reads
        (P.rows port.now) block.now (P.accesses port.now) step.now (bound_set block.now from.now) from.now.rows) }
    ensures steps { Counts result steps.old steps.new (step_reads
        (P.rows port.now) block.now (P.accesses port.now) step.now (bound_set block.now from.now) from.now.rows) }
{
    let access = port.access(step.access);
    let join = join_of_step(alloc, block, step, access, from)?;
    let key = join.picked.key();
    let rows = from.rows.as_slice();
    let found = rows_by_key(alloc, port, step.access, &join, key, rows, reads, steps)?;
    Ok(Valuations {
        classes: join.classes,
        rows: List::from_vec(sort_distinct(found)),
    })
}
