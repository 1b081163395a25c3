// The blocks of a query.
ghost use Rattle.std.specs.Prelude.{◌≡◌, ◌++◌, IfOk, OnOk, map};
ghost use Rattle.beas_core.specs.Trees.{blocks_of};

use beas_core::{Block, List, NoMemory, Query, QueryNode};
use std::alloc::Global;

fn push_blocks<'a>(query: &'a Query, found: &mut List<&'a Block>) -> Result<(), NoMemory>
    ensures { OnOk result (map (λ b. b.now) found.new ≡ map (λ b. b.now) found.old ++ blocks_of query.now) }
{
    match &query.node {
        QueryNode::Block(block) => found.push(block),
        QueryNode::Union(left, right) | QueryNode::Except(left, right) => {
            push_blocks(left, found)?;
            push_blocks(right, found)
        }
    }
}

/// The blocks of a query, from left to right.
pub fn blocks(alloc: Global, query: &Query) -> Result<List<&Block>, NoMemory>
    ensures { IfOk result (λ blocks. map (λ b. b.now) blocks ≡ blocks_of query.now) }
{
    let mut found = List::new(alloc);
    push_blocks(query, &mut found)?;
    Ok(found)
}
