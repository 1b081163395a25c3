// The pairs of columns whose greatest group is small.
ghost use Rattle.std.specs.Prelude.{◌≡◌, ◌≤◌, ◌<◌, ◌+◌, ◌++◌, ◌∷◌, ◌^◌, [], map, flat_map, length, IfOk, OnOk};
ghost use Rattle.std.specs.List.{filter_map};
ghost use Rattle.beas_core.specs.Groups.{project};
ghost use Rattle.constraint_miner.specs.Cells.{pair_row};
ghost use Rattle.constraint_miner.specs.Pairs.{columns_from, pair_in, pairs_in};

use crate::cells::{CellPair, lend};
use crate::groups::{greatest_among, lend_rows};
use beas_core::{ColumnId, List, NoMemory, Steps, Value};
use row_store::Rows;
use std::alloc::Global;
use std::sync::ledger::Ledger;

/// Two columns, and the size of the greatest group of the second for a value of the first.
pub type Pair = (ColumnId, ColumnId, u32);

/// The columns below a width.
fn columns_below(alloc: Global, width: u16) -> Result<Vec<ColumnId>, NoMemory>
    ensures { IfOk result (λ columns. columns.items ≡ columns_from 0 width) }
{
    let mut columns = Vec::new(alloc);
    for column in 0..width {
        columns.push(ColumnId(column))?;
    }
    Ok(columns)
}

/// Puts the tuples of two columns into `tuples`.
fn project_rows<'a>(
    rows: &[&'a [Value]],
    first: ColumnId,
    second: ColumnId,
    tuples: &mut Vec<CellPair<'a>>,
) -> Result<(), NoMemory>
    ensures { OnOk result
        (map pair_row tuples.new.items ≡ map (λ row. project (first ∷ second ∷ []) row.now) rows.now) }
{
    tuples.clear();
    for row in rows {
        tuples.push(CellPair {
            first: lend(row, first),
            second: lend(row, second),
        })?;
    }
    Ok(())
}

/// The pair of two columns, where they differ and its greatest group is within the limit.
fn pair_of<'a>(
    rows: &[&'a [Value]],
    first: ColumnId,
    second: ColumnId,
    limit: u32,
    tuples: &mut Vec<CellPair<'a>>,
) -> Result<Option<Pair>, NoMemory>
    requires { length rows.now < 2 ^ 32 }
    ensures { IfOk result (λ pair. pair ≡ pair_in (map (λ row. row.now) rows.now) limit first second) }
{
    if first.0 == second.0 {
        return Ok(None);
    }
    project_rows(rows, first, second, tuples)?;
    let most = greatest_among(tuples.as_mut_slice(), &[ColumnId(0)], &[ColumnId(1)]);
    if most <= limit {
        Ok(Some((first, second, most)))
    } else {
        Ok(None)
    }
}

/// Adds the pairs of one first column.
fn add_pairs<'a>(
    rows: &[&'a [Value]],
    first: ColumnId,
    columns: &[ColumnId],
    limit: u32,
    tuples: &mut Vec<CellPair<'a>>,
    found: &mut Vec<Pair>,
) -> Result<(), NoMemory>
    requires { length rows.now < 2 ^ 32 }
    ensures { OnOk result (found.new.items
        ≡ found.old.items ++ filter_map (pair_in (map (λ row. row.now) rows.now) limit first) columns.now) }
{
    for second in columns {
        if let Some(pair) = pair_of(rows, first, *second, limit, tuples)? {
            found.push(pair)?;
        }
    }
    Ok(())
}

/// The pairs of these columns.
fn pairs_of(
    alloc: Global,
    rows: &[&[Value]],
    columns: &[ColumnId],
    limit: u32,
) -> Result<Vec<Pair>, NoMemory>
    requires { length rows.now < 2 ^ 32 }
    ensures { IfOk result (λ found. found.items
        ≡ flat_map
        (λ first. filter_map (pair_in (map (λ row. row.now) rows.now) limit first) columns.now) columns.now) }
{
    let mut tuples = Vec::with_capacity(alloc, rows.len())?;
    let mut found = Vec::new(alloc);
    for first in columns {
        add_pairs(rows, *first, columns, limit, &mut tuples, &mut found)?;
    }
    Ok(found)
}

/// All ordered pairs of different columns below `width` whose greatest group is at most `limit`, by first, then
/// second column: a pair (A, B, M) says that each value of A comes with at most M distinct values of B.
///
/// Each row is read exactly once; after `NoMemory` at most so many reads were made.
pub fn pairs_within<L: Ledger>(
    alloc: Global,
    rows: &Rows,
    width: u16,
    limit: u32,
    steps: &mut Steps<L>,
) -> Result<List<Pair>, NoMemory>
    ensures pairs { IfOk result (λ pairs. pairs ≡ pairs_in rows.now width limit) }
    ensures cost { OnOk result (steps.new ≡ steps.old + length rows.now) }
    ensures least { steps.old ≤ steps.new }
    ensures most { steps.new ≤ steps.old + length rows.now }
{
    let lent = lend_rows(alloc, rows, steps)?;
    let columns = columns_below(alloc, width)?;
    let found = pairs_of(alloc, lent.as_slice(), columns.as_slice(), limit)?;
    Ok(List::from_vec(found))
}
