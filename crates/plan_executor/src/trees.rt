// The answers of a query: from left to right, since the left side of an EXCEPT guides the fetches of its right one.
ghost use Rattle.std.specs.Prelude.{◌≡◌, ℕ, IfOk, None, if◌then◌else◌};
ghost use Rattle.std.specs.Option.{option_copied};
ghost use Rattle.beas_core.specs.Fits.{StepsHold};
ghost use Rattle.beas_core.specs.Guiding.{after};
ghost use Rattle.beas_core.specs.Queries.{answers, plan_of, reads_in};
ghost use Rattle.plan_ops.specs.Asked.{TreeFits};
ghost use Rattle.plan_ops.specs.Over.{Counts};

use crate::answering::answer_block;
use beas_core::{AccessPort, List, NoMemory, Prepared, Query, QueryNode, Row, Steps};
use plan_ops::{subtract, unite};
use std::alloc::Global;
use std::sync::ledger::Ledger;

// The guide of a block, where it is guided.
fn guide_where(guided: bool, guide: Option<&List<Row>>) -> Option<&List<Row>>
    ensures { option_copied result ≡ (if guided then option_copied guide.entry else None) }
{
    if guided { guide } else { None }
}

/// What a tree of a query's blocks answers where these are its guide's answers, and the number of the block after it.
/// `first` is the number of its first block.
pub fn answer_tree<P: AccessPort, L: Ledger>(
    alloc: Global,
    port: &P,
    prepared: &Prepared,
    query: &Query,
    first: usize,
    guide: Option<&List<Row>>,
    reads: &mut u128,
    steps: &mut Steps<L>,
) -> Result<(List<Row>, usize), NoMemory>
    requires fits { TreeFits (P.accesses port.now) prepared.now first (option_copied guide) query.now reads.old }
    requires holds { (n : ℕ) → StepsHold (P.rows port.now) (P.accesses port.now)
        (plan_of prepared.now.derivations n).steps }

    ensures rows { IfOk result (λ found. found.0
        ≡ answers (P.rows port.now) prepared.now.guided first (option_copied guide.entry) query.now) }
    ensures next { IfOk result (λ found. found.1 ≡ after first query.now) }
    ensures reads { Counts result reads.old reads.new (reads_in (P.rows port.now) (P.accesses port.now)
        prepared.now.guided prepared.now.derivations first (option_copied guide.entry) query.now) }
    ensures steps { Counts result steps.old steps.new (reads_in (P.rows port.now) (P.accesses port.now)
        prepared.now.guided prepared.now.derivations first (option_copied guide.entry) query.now) }
{
    match &query.node {
        QueryNode::Block(_) => {
            let guide = guide_where(prepared.guided.as_slice()[first], guide);
            let normal = &prepared.normals.as_slice()[first];
            let plan = prepared.derivations.as_slice()[first].steps.as_slice();
            let rows = answer_block(alloc, port, normal, guide, plan, reads, steps)?;
            Ok((rows, first + 1))
        }
        QueryNode::Union(left, right) => {
            let (found, next) = answer_tree(
                alloc, port, prepared, left, first, guide, reads, steps,
            )?;
            match answer_tree(alloc, port, prepared, right, next, guide, reads, steps) {
                Ok((others, next)) => Ok((unite(alloc, found, others)?, next)),
                Err(NoMemory) => {
                    drop(found);
                    Err(NoMemory)
                }
            }
        }
        QueryNode::Except(left, right) => {
            let (found, next) = answer_tree(
                alloc, port, prepared, left, first, guide, reads, steps,
            )?;
            let guide = Some(&found);
            match answer_tree(alloc, port, prepared, right, next, guide, reads, steps) {
                Ok((others, next)) => Ok((subtract(alloc, found, others)?, next)),
                Err(NoMemory) => {
                    drop(found);
                    Err(NoMemory)
                }
            }
        }
    }
}
