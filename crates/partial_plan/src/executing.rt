// Queries over tables that are scanned.
ghost use Rattle.std.specs.Prelude.{◌≡◌, ◌+◌, ◌≤◌, IfOk, OnErr};
ghost use Rattle.beas_core.specs.declared.schema.TableId.{TableId};
ghost use Rattle.beas_core.specs.Full.{full_of};
ghost use Rattle.partial_plan.specs.ScanPlans.{ScanPlanFits, scan_plan_reads};
ghost use Rattle.partial_plan.specs.Scans.{rows_of_tables};

use crate::building::build_indexes;
use crate::plan::ScanPlan;
use crate::port::ScanPort;
use beas_core::{AccessPort, Answer, List, NoMemory, Steps};
use plan_executor::execute;
use row_store::Rows;
use std::alloc::Global;
use std::sync::ledger::Ledger;

/// The full answer over the rows that the port has, in order, each row once. First each scan gets an index, and each row of
/// its table is counted as a read, also where the index is shared and its rows were read for an earlier scan. The reads are
/// those of the scans and of the derivations, which are at most the plan's bound; out of memory, at most as many were
/// counted.
pub fn scan_execute<P: AccessPort, L: Ledger>(
    alloc: Global,
    port: &P,
    rows: &List<Rows>,
    plan: &ScanPlan,
    steps: &mut Steps<L>,
) -> Result<Answer, NoMemory>
    requires fits { ScanPlanFits (P.accesses port.now) (P.rows port.now) rows.now plan.now }
    requires rows { (id : TableId) → P.rows port.now id ≡ rows_of_tables rows.now id }
    ensures rows { IfOk result (λ answer. answer.rows ≡ full_of (P.rows port.now) plan.now.prepared.query) }
    ensures reads { IfOk result (λ answer. answer.reads
        ≡ scan_plan_reads (P.rows port.now) (P.accesses port.now) plan.now) }
    ensures bound { IfOk result (λ answer. answer.reads ≤ plan.now.bound) }

    ensures cost { IfOk result (λ answer. steps.new ≡ steps.old + answer.reads) }
    ensures spent { OnErr result (steps.new
        ≤ steps.old + scan_plan_reads (P.rows port.now) (P.accesses port.now) plan.now) }
    ensures kept { steps.old ≤ steps.new }
{
    let indexes = build_indexes(alloc, rows.as_slice(), plan.scans.as_slice(), steps)?;
    let scanned = ScanPort {
        port,
        indexes: indexes.as_slice(),
    };
    let answer = execute(alloc, &scanned, &plan.prepared, steps)?;
    // The bound is the prepared query's and the rows of the scanned tables.
    let rows_read = plan.bound - plan.prepared.bound;
    Ok(Answer {
        rows: answer.rows,
        reads: rows_read + answer.reads,
    })
}
