// Prepared queries, and what they answer.
ghost use Rattle.std.specs.Prelude.{◌≡◌, ◌+◌, ◌≤◌, IfOk, OnErr};
ghost use Rattle.beas_core.specs.Fits.{Fits};
ghost use Rattle.beas_core.specs.Full.{full_of};
ghost use Rattle.beas_core.specs.Queries.{query_reads};

use crate::trees::answer_tree;
use beas_core::{AccessPort, Answer, NoMemory, Prepared, Steps, recall_bound};
use plan_ops::ask_for_all;
use std::alloc::Global;
use std::sync::ledger::Ledger;

/// The full answer over the rows that the port has, in order, each row once. The reads are those of the derivations,
/// which are at most the bound; out of memory, at most as many were counted.
pub fn execute<P: AccessPort, L: Ledger>(
    alloc: Global,
    port: &P,
    prepared: &Prepared,
    steps: &mut Steps<L>,
) -> Result<Answer, NoMemory>
    requires { Fits (P.accesses port.now) (P.rows port.now) prepared.now }
    ensures rows { IfOk result (λ answer. answer.rows ≡ full_of (P.rows port.now) prepared.now.query) }
    ensures reads { IfOk result (λ answer. answer.reads ≡ query_reads (P.rows port.now) (P.accesses port.now)
        prepared.now.guided prepared.now.derivations prepared.now.query) }
    ensures bound { IfOk result (λ answer. answer.reads ≤ prepared.now.bound) }

    ensures cost { IfOk result (λ answer. steps.new ≡ steps.old + answer.reads) }
    ensures spent { OnErr result (steps.new ≤ steps.old + query_reads (P.rows port.now) (P.accesses port.now)
        prepared.now.guided prepared.now.derivations prepared.now.query) }
    ensures kept { steps.old ≤ steps.new }
{
    // The reads are at most the announced number, so that their count fits as well.
    recall_bound(prepared);
    ask_for_all(port, prepared.derivations.as_slice());
    let mut reads = 0;
    let query = &prepared.query;
    let (rows, _count) = answer_tree(alloc, port, prepared, query, 0, None, &mut reads, steps)?;
    Ok(Answer { rows, reads })
}
