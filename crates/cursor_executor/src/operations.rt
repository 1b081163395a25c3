// The operations that answer a query: its blocks from left to right, and where their answers are joined.
ghost use Rattle.std.specs.Prelude.{◌≡◌, ◌≤◌, ◌+◌, ◌++◌, None, length, IfOk, OnOk};
ghost use Rattle.beas_core.specs.Fits.{PreparedIsWellFormed};
ghost use Rattle.beas_core.specs.Guiding.{after};
ghost use Rattle.beas_core.specs.Trees.{blocks_of};
ghost use Rattle.cursor_executor.specs.Operations.{operations_in};

use beas_core::{List, NoMemory, Prepared, Query, QueryNode};
use std::alloc::Global;

/// What is done with the answers that are found so far.
#[derive(Clone, Copy)]
pub enum Operation {
    /// The next block is answered, of a guided one with the place of its guide's answers.
    Block(Option<usize>),
    /// The last two answers are united.
    Unite,
    /// The last answer is subtracted from the one before it.
    Subtract,
}

// Adds the operations of a tree, whose first block has this number. So many answers stand when it begins, and its
// guide's among them at this place. Gives the number of the block after it.
fn add_operations(
    guided: &[bool],
    query: &Query,
    first: usize,
    depth: usize,
    guide: Option<usize>,
    operations: &mut List<Operation>,
) -> Result<usize, NoMemory>
    requires numbers { first + length (blocks_of query.now) ≤ length guided.now }
    requires depth { depth ≤ first }
    ensures next { IfOk result (λ next. next ≡ after first query.now) }
    ensures operations { OnOk result (operations.new
        ≡ operations.old ++ operations_in guided.now first depth guide query.now) }
{
    match &query.node {
        QueryNode::Block(_) => {
            let guide = if guided[first] { guide } else { None };
            operations.push(Operation::Block(guide))?;
            Ok(first + 1)
        }
        QueryNode::Union(left, right) => {
            let next = add_operations(guided, left, first, depth, guide, operations)?;
            let next = add_operations(guided, right, next, depth + 1, guide, operations)?;
            operations.push(Operation::Unite)?;
            Ok(next)
        }
        QueryNode::Except(left, right) => {
            let next = add_operations(guided, left, first, depth, guide, operations)?;
            let own = Some(depth);
            let next = add_operations(guided, right, next, depth + 1, own, operations)?;
            operations.push(Operation::Subtract)?;
            Ok(next)
        }
    }
}

/// The operations that answer a query.
pub fn operations_of(alloc: Global, prepared: &Prepared) -> Result<List<Operation>, NoMemory>
    requires { PreparedIsWellFormed prepared.now }
    ensures { IfOk result (λ operations. operations ≡ operations_in prepared.now.guided 0 0 None prepared.now.query) }
{
    let mut operations = List::new(alloc);
    let guided = prepared.guided.as_slice();
    add_operations(guided, &prepared.query, 0, 0, None, &mut operations)?;
    Ok(operations)
}
