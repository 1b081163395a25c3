// Probes: each distinct key once.
ghost use Rattle.std.specs.Prelude.{◌≡◌, ◌+◌, ◌*◌, ◌<◌, ◌≤◌, ◌^◌, length, map, sum_by, All, Contains, IfOk, IsTrue, slice_index_or, []};
ghost use Rattle.std.specs.List.{AllZip};
ghost use Rattle.beas_core.specs.Derivations.{access_in, is_live};
ghost use Rattle.beas_core.specs.Groups.{project};
ghost use Rattle.beas_core.specs.Order.{row_cmp};
ghost use Rattle.beas_core.specs.Reads.{probe_reads};
ghost use Rattle.beas_core.specs.Sets.{IsInOrder};
ghost use Rattle.plan_ops.specs.Joins.{IsGroup};
ghost use Rattle.plan_ops.specs.Over.{Counts};

use beas_core::{
    AccessId, AccessPort, ColumnId, Hits, NoMemory, Row, Steps, Value, compare_projected,
};
use std::alloc::Global;
use std::sync::ledger::Ledger;

/// The groups of keys, each probed once. Both counts rise by what the probes found.
pub fn groups_of<P: AccessPort, L: Ledger>(
    alloc: Global,
    port: &P,
    id: AccessId,
    keys: &[Row],
    reads: &mut u128,
    steps: &mut Steps<L>,
) -> Result<Vec<Hits>, NoMemory>
    requires live { IsTrue (is_live (P.accesses port.now) id) }
    requires bound { 1 ≤ (access_in (P.accesses port.now) id).bound }
    requires widths { All (λ key. length key ≡ length (access_in (P.accesses port.now) id).key) keys.now }
    requires room { reads.old + length keys.now * (access_in (P.accesses port.now) id).bound < 2 ^ 128 }

    ensures groups { IfOk result (λ groups. AllZip
        (IsGroup (P.rows port.now) (P.accesses port.now) (P.stands port.now) (P.members port.now) id)
        keys.now groups.items) }
    ensures reads { Counts result reads.old reads.new
        (sum_by (probe_reads (P.rows port.now) (access_in (P.accesses port.now) id)) keys.now) }
    ensures steps { Counts result steps.old steps.new
        (sum_by (probe_reads (P.rows port.now) (access_in (P.accesses port.now) id)) keys.now) }
{
    let mut groups = Vec::with_capacity(alloc, keys.len())?;
    for key in keys {
        let hits = port.probe(id, key.as_slice(), steps);
        // A probe that finds nothing counts as one read.
        *reads += u128::from(hits.len().max(1));
        groups.push_reserved(hits);
    }
    Ok(groups)
}

/// Where the key of a row stands among keys in order. It takes no memory.
pub fn position_of_key(keys: &[Row], columns: &[ColumnId], row: &[Value]) -> usize
    requires order { IsInOrder row_cmp keys.now }
    requires there { Contains keys.now (project columns.now row.now) }
    requires columns { All (λ column. column.0 < length row.now) columns.now }
    ensures within { result < length keys.now }
    ensures key { slice_index_or keys.now result [] ≡ project columns.now row.now }
{
    match keys.binary_search_by(|key| compare_projected(key.as_slice(), columns, row)) {
        Ok(at) => at,
        Err(at) => at,
    }
}
