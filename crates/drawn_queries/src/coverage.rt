// Whether a query of one block is covered, by the layer of coverage and by the reference programs.
ghost use Rattle.beas_core.specs.Shapes.{QueryIsWellFormed};

use beas_core::{Access, List, NoMemory, NotCovered, Query, QueryNode};
use coverage_check::check;
use reference_evaluation::Planned;
use std::alloc::Global;

fn are_same(left: &Option<NotCovered>, right: &Option<NotCovered>) -> bool {
    match (left, right) {
        (None, None) => true,
        (
            Some(NotCovered::ColumnOpen { atom: a, column: c }),
            Some(NotCovered::ColumnOpen { atom: b, column: d }),
        ) => *a == *b && c.0 == d.0,
        (
            Some(NotCovered::AtomUnindexed { atom: a }),
            Some(NotCovered::AtomUnindexed { atom: b }),
        ) => *a == *b,
        _ => false,
    }
}

/// Whether the layer says the same of a query as the reference programs do, which it does of one that has several
/// blocks.
#[tactic(auto, using(crate::proofs::Alone::alone))]
pub fn is_agreed(
    alloc: Global,
    accesses: &List<Access>,
    query: &Query,
    planned: &Planned,
) -> Result<bool, NoMemory>
    requires { QueryIsWellFormed query.now }
{
    let QueryNode::Block(block) = &query.node else {
        return Ok(true);
    };
    let said = check(alloc, accesses, block)?;
    let found = match planned {
        Planned::Uncovered(found) => Some(found.why),
        _ => None,
    };
    Ok(are_same(&said, &found))
}
