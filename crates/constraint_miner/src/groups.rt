// The greatest group of rows that are in order, and of a table.
ghost use Rattle.std.specs.Prelude.{◌≡◌, ◌≤◌, ◌<◌, ◌+◌, ◌^◌, map, length, None, option_map, IfOk, OnOk};
ghost use Rattle.beas_core.specs.Groups.{greatest};
ghost use Rattle.constraint_miner.specs.Runs.{greatest_from, size_with};

use crate::cells::{Tuple, is_same_in};
use crate::tuples::sort_tuples;
use beas_core::{ColumnId, List, NoMemory, Steps, Value};
use row_store::Rows;
use std::alloc::Global;
use std::sync::ledger::Ledger;

/// All rows of a table, lent. Each is read once.
pub fn lend_rows<'a, L: Ledger>(
    alloc: Global,
    rows: &'a Rows,
    steps: &mut Steps<L>,
) -> Result<Vec<&'a [Value]>, NoMemory>
    ensures rows { IfOk result (λ lent. map (λ row. row.now) lent.items ≡ rows.now) }
    ensures few { IfOk result (λ lent. length lent.items < 2 ^ 32) }
    ensures cost { OnOk result (steps.new ≡ steps.old + length rows.now) }
    ensures least { steps.old ≤ steps.new }
    ensures most { steps.new ≤ steps.old + length rows.now }
{
    let mut lent = Vec::with_capacity(alloc, rows.len() as usize)?;
    for i in 0..rows.len() {
        lent.push(rows.row(i, steps).as_slice())?;
    }
    Ok(lent)
}

/// How many distinct tuples the group of a tuple has up to it, where the one before it has so many in its own.
fn size_with<T: Tuple>(
    before: Option<&T>,
    tuple: &T,
    key: &[ColumnId],
    fetched: &[ColumnId],
    size: u32,
) -> u32
    requires few { size + 1 < 2 ^ 32 }
    ensures value { result
        ≡ size_with key.now fetched.now (option_map (λ b. T.values b.now) before.entry) (T.values tuple.now) size }
    ensures most { result ≤ size + 1 }
{
    match before {
        None => 1,
        Some(before) => {
            if !is_same_in(key, before, tuple) {
                1
            } else if is_same_in(fetched, before, tuple) {
                size
            } else {
                size + 1
            }
        }
    }
}

/// The size of the greatest group of tuples in order.
fn greatest_run<T: Tuple>(tuples: &[T], key: &[ColumnId], fetched: &[ColumnId]) -> u32
    requires few { length tuples.now < 2 ^ 32 }
    ensures { result ≡ greatest_from key.now fetched.now None 0 0 (map T.values tuples.now) }
{
    let mut before: Option<&T> = None;
    let mut size = 0;
    let mut most = 0;
    for tuple in tuples {
        size = size_with(before, tuple, key, fetched, size);
        most = most.max(size);
        before = Some(tuple);
    }
    most
}

/// The size of the greatest group of tuples, which are put in another order.
pub fn greatest_among<T: Tuple>(tuples: &mut [T], key: &[ColumnId], fetched: &[ColumnId]) -> u32
    requires few { length tuples.old < 2 ^ 32 }
    ensures { result ≡ greatest (map T.values tuples.old) key.now fetched.now }
{
    sort_tuples(tuples, key, fetched);
    greatest_run(tuples, key, fetched)
}

/// The greatest number of distinct tuples over key and fetched that share a key, 0 over no rows.
///
/// Each row is read exactly once; after `NoMemory` at most so many reads were made.
pub fn greatest_group<L: Ledger>(
    alloc: Global,
    rows: &Rows,
    key: &List<ColumnId>,
    fetched: &List<ColumnId>,
    steps: &mut Steps<L>,
) -> Result<u32, NoMemory>
    ensures most { IfOk result (λ most. most ≡ greatest rows.now key.now fetched.now) }
    ensures cost { OnOk result (steps.new ≡ steps.old + length rows.now) }
    ensures least { steps.old ≤ steps.new }
    ensures bounded { steps.new ≤ steps.old + length rows.now }
{
    let mut lent = lend_rows(alloc, rows, steps)?;
    Ok(greatest_among(lent.as_mut_slice(), key.as_slice(), fetched.as_slice()))
}
