// The answers of a query: a guided block gives those alone that stand in its guide's answers.
ghost use Rattle.std.specs.Prelude.{◌≡◌, ◌<◌, ◌+◌, ◌^◌, [], filter, length, unwrap_or, IfOk};
ghost use Rattle.beas_core.specs.Full.{full_of_block, set_difference};
ghost use Rattle.std.specs.List.{list_any};
ghost use Rattle.beas_core.specs.Groups.{same_row};
ghost use Rattle.beas_core.specs.Queries.{answers, guide_of, inside, query_answers};
ghost use Rattle.beas_core.specs.Trees.{blocks_of};
ghost use Rattle.reference_evaluation.specs.Tables.{rows_in};

use crate::full::{full_of_block, has_row, set_difference, set_union};
use beas_core::{Block, Duplicate, List, NoMemory, Query, QueryNode, Row};
use reference_coverage::{is_guided, number_after};
use std::alloc::Global;

fn rows_among(alloc: Global, answers: &[Row], found: &[Row]) -> Result<List<Row>, NoMemory>
    ensures { IfOk result (λ rows. rows ≡ filter (λ row. list_any (same_row row) answers.now) found.now) }
{
    let mut rows = List::new(alloc);
    for row in found {
        if has_row(answers, row) {
            rows.push(row.copy(alloc)?)?;
        }
    }
    Ok(rows)
}

fn inside(alloc: Global, guide: &Option<List<Row>>, found: List<Row>) -> Result<List<Row>, NoMemory>
    ensures { IfOk result (λ rows. rows ≡ inside guide.now found) }
{
    match guide {
        None => Ok(found),
        Some(answers) => rows_among(alloc, answers.as_slice(), found.as_slice()),
    }
}

/// The answers of the block with this number.
fn answers_of_block(
    alloc: Global,
    tables: &[List<Row>],
    guided: &[bool],
    number: usize,
    guide: &Option<List<Row>>,
    block: &Block,
) -> Result<List<Row>, NoMemory>
    ensures { IfOk result (λ rows. rows ≡ inside (guide_of guided.now number guide.now)
        (full_of_block (rows_in tables.now) block.now)) }
{
    let found = full_of_block(alloc, tables, block)?;
    if is_guided(guided, number) {
        inside(alloc, guide, found)
    } else {
        Ok(found)
    }
}

/// The rows of the left side that the right side hasn't.
fn left_without(
    alloc: Global,
    left: &Option<List<Row>>,
    right: &[Row],
) -> Result<List<Row>, NoMemory>
    ensures { IfOk result (λ rows. rows ≡ set_difference (unwrap_or left.now []) right.now) }
{
    match left {
        Some(rows) => set_difference(alloc, rows.as_slice(), right),
        None => Ok(List::new(alloc)),
    }
}

/// The answers of a tree whose first block has this number.
pub fn answers(
    alloc: Global,
    tables: &[List<Row>],
    guided: &[bool],
    first: usize,
    guide: &Option<List<Row>>,
    query: &Query,
) -> Result<List<Row>, NoMemory>
    requires { first + length (blocks_of query.now) < 2 ^ 64 }
    ensures { IfOk result (λ rows. rows ≡ answers (rows_in tables.now) guided.now first guide.now query.now) }
{
    match &query.node {
        QueryNode::Block(block) => answers_of_block(alloc, tables, guided, first, guide, block),
        QueryNode::Union(left, right) => {
            let one = answers(alloc, tables, guided, first, guide, left)?;
            let next = number_after(left, first);
            set_union(one, answers(alloc, tables, guided, next, guide, right)?)
        }
        QueryNode::Except(left, right) => {
            let own = Some(answers(alloc, tables, guided, first, guide, left)?);
            let next = number_after(left, first);
            let other = answers(alloc, tables, guided, next, &own, right)?;
            left_without(alloc, &own, other.as_slice())
        }
    }
}

/// The answers of a query, of each of whose blocks `guided` says whether it is guided.
pub fn query_answers(
    alloc: Global,
    tables: &[List<Row>],
    guided: &[bool],
    query: &Query,
) -> Result<List<Row>, NoMemory>
    requires { length guided.now ≡ length (blocks_of query.now) }
    ensures { IfOk result (λ rows. rows ≡ query_answers (rows_in tables.now) guided.now query.now) }
{
    answers(alloc, tables, guided, 0, &None, query)
}
