// Groups of rows.
ghost use Rattle.std.specs.Prelude.{◌≡◌, ◌+◌, ◌-◌, ◌<◌, ◌≤◌, [], true, false, ℕ, length, All, IfOk, slice_index_or};
ghost use Rattle.beas_core.specs.Order.{row_cmp};
ghost use Rattle.beas_core.specs.Sets.{IsInOrder};
ghost use Rattle.aggregate.specs.Grouping.{cells_of, grouped_rows};
ghost use Rattle.aggregate.specs.Runs.{same_key};

use crate::cell::{Cell, Fold};
use crate::columns::{cell_of, values_in};
use beas_core::{List, NoMemory, Row};
use std::alloc::Global;

fn cells_of(alloc: Global, keys: u16, folds: &[Fold], group: &[Row]) -> Result<List<Cell>, NoMemory>
    requires { All (λ row. length row ≡ keys + length folds.now) group.now }
    ensures { IfOk result (λ cells. cells ≡ cells_of keys folds.now group.now) }
{
    let mut cells = List::new(alloc);
    for (place, fold) in folds.iter().enumerate() {
        let values = values_in(alloc, group, usize::from(keys) + place)?;
        cells.push(cell_of(alloc, *fold, &values)?)?;
    }
    Ok(cells)
}

fn same_key(keys: u16, row: &Row, other: &Row) -> bool
    requires row { keys ≤ length row.now }
    requires other { keys ≤ length other.now }
    ensures { result ≡ same_key keys row.now other.now }
{
    row.as_slice()[..usize::from(keys)] == other.as_slice()[..usize::from(keys)]
}

/// How many rows from the front on have the first one's key.
fn run_length(keys: u16, rows: &[Row]) -> usize
    requires some { 1 ≤ length rows.now }
    requires wide { All (λ row. keys ≤ length row) rows.now }
    ensures some { 1 ≤ result }
    ensures within { result ≤ length rows.now }
    ensures same { (i : ℕ) → i + 1 < result
        → same_key keys (slice_index_or rows.now i []) (slice_index_or rows.now (i + 1) []) ≡ true }
    ensures ends { result < length rows.now
        → same_key keys (slice_index_or rows.now (result - 1) []) (slice_index_or rows.now result []) ≡ false }
{
    for end in 1..rows.len() {
        if !same_key(keys, &rows[end - 1], &rows[end]) {
            return end;
        }
    }
    rows.len()
}

/// One row of cells for each group of rows with the same key columns, which are the first `keys` of them, in the order of the
/// keys. A cell is what a fold makes of its column, of those after the keys. Out of memory is the only error.
pub fn fold_rows(
    alloc: Global,
    rows: &List<Row>,
    keys: u16,
    folds: &List<Fold>,
) -> Result<List<List<Cell>>, NoMemory>
    requires wide { All (λ row. length row ≡ keys + length folds.now) rows.now }
    requires in_order { IsInOrder row_cmp rows.now }
    ensures { IfOk result (λ found. found ≡ grouped_rows keys folds.now rows.now) }
{
    let mut found = List::new(alloc);
    let mut rest = rows.as_slice();
    while !rest.is_empty() {
        let (group, others) = rest.split_at(run_length(keys, rest));
        found.push(cells_of(alloc, keys, folds.as_slice(), group)?)?;
        rest = others;
    }
    Ok(found)
}
