// The rows of a table, lent in the order of their tuples.
ghost use Rattle.std.specs.Prelude.{◌≡◌, ◌≤◌, ◌<◌, ◌+◌, ◌^◌, map, length, IfOk, OnOk};
ghost use Rattle.std.specs.List.Sorted.{IsPermutation};
ghost use Rattle.std.specs.Option.{option_copied};
ghost use Rattle.beas_core.specs.Groups.{project};
ghost use Rattle.beas_core.specs.Order.{row_cmp, value_cmp};
ghost use Rattle.access_index.specs.Hashing.{or_zero};

use crate::values::compare_filled;
use beas_core::{ColumnId, NoMemory, Row, Steps, Value};
use row_store::Rows;
use std::alloc::Global;
use std::cmp::Ordering;
use std::sync::ledger::Ledger;

/// The order of two values that may be absent.
fn compare_cells(left: Option<&Value>, right: Option<&Value>) -> Ordering
    ensures { result ≡ value_cmp (or_zero (option_copied left.entry)) (or_zero (option_copied right.entry)) }
{
    match left {
        Some(left) => compare_filled(left, right),
        None => compare_filled(&Value::Int(0), right),
    }
}

/// The order of two rows by their values in some columns.
fn compare_rows(columns: &[ColumnId], left: &[Value], right: &[Value]) -> Ordering
    ensures { result ≡ row_cmp (project columns.now left.now) (project columns.now right.now) }
{
    for column in columns {
        let place = column.0 as usize;
        let order = compare_cells(left.get(place), right.get(place));
        if order != Ordering::Equal {
            return order;
        }
    }
    Ordering::Equal
}

/// A row, lent, with two numbers that tell it from most others: rows are ordered by their numbers first, and few must
/// be read for that. A row that is read lies anywhere in memory, so it costs more than all else. The numbers decide
/// speed alone.
#[derive(Drop)]
pub struct Lent<'a> {
    pub row: &'a Row,
    rank: i64,
    next: i64,
}

/// The bytes of a text that its rank is made of.
const RANKED: usize = 7;

/// A number for a text, which rises with its first bytes.
fn rank_of_text(text: &[u8]) -> i64 {
    let mut rank: i64 = 0;
    for place in 0..RANKED {
        let byte = match text.get(place) {
            Some(byte) => i64::from(*byte),
            None => 0,
        };
        rank = rank.wrapping_mul(256).wrapping_add(byte);
    }
    rank
}

/// The value of a row in the column at a place among some.
fn value_at<'a>(columns: &[ColumnId], row: &'a [Value], place: usize) -> Option<&'a Value> {
    row.get(usize::from(columns.get(place)?.0))
}

/// A number for a value, which rises with it.
fn rank_of(value: Option<&Value>) -> i64 {
    match value {
        Some(Value::Int(number)) => *number,
        Some(Value::Str(text)) => rank_of_text(text.as_str().as_bytes()),
        None => 0,
    }
}

/// Whether a value's number tells it from most others, so that the next column counts where two numbers are equal.
fn is_told(value: Option<&Value>) -> bool {
    match value {
        Some(Value::Str(text)) => text.as_str().len() < RANKED,
        _ => true,
    }
}

fn lend<'a>(row: &'a Row, columns: &[ColumnId]) -> Lent<'a>
    ensures { result.row.now ≡ row.now }
{
    let first = value_at(columns, row.as_slice(), 0);
    let next = if is_told(first) {
        rank_of(value_at(columns, row.as_slice(), 1))
    } else {
        0
    };
    Lent {
        row,
        rank: rank_of(first),
        next,
    }
}

/// The order of two rows by their numbers, and where these tie by their values in some columns.
fn compare_lent(columns: &[ColumnId], left: &Lent, right: &Lent) -> Ordering {
    match left.rank.cmp(&right.rank).then(left.next.cmp(&right.next)) {
        Ordering::Equal => compare_rows(columns, left.row.as_slice(), right.row.as_slice()),
        order => order,
    }
}

/// All rows of a table, lent. Each is read once.
fn lend_rows<'a, L: Ledger>(
    alloc: Global,
    rows: &'a Rows,
    columns: &[ColumnId],
    steps: &mut Steps<L>,
) -> Result<Vec<Lent<'a>>, NoMemory>
    ensures rows { IfOk result (λ lent. map (λ one. one.row.now) lent.items ≡ rows.now) }
    ensures few { IfOk result (λ lent. length lent.items < 2 ^ 32) }
    ensures cost { OnOk result (steps.new ≡ steps.old + length rows.now) }
    ensures at_most { steps.new ≤ steps.old + length rows.now }
    ensures no_fewer { steps.old ≤ steps.new }
{
    let mut lent = Vec::with_capacity(alloc, rows.len() as usize)?;
    for i in 0..rows.len() {
        lent.push(lend(rows.row(i, steps), columns))?;
    }
    Ok(lent)
}

/// Rows in the order of their values in some columns.
fn in_order<'a>(mut lent: Vec<Lent<'a>>, columns: &[ColumnId]) -> Vec<Lent<'a>>
    ensures { IsPermutation lent.entry.items result.items }
{
    lent.sort_unstable_by(|a, b| compare_lent(columns, a, b));
    lent
}

/// All rows of a table, lent in the order of their values in some columns. Each is read once.
pub fn lend_in_order<'a, L: Ledger>(
    alloc: Global,
    rows: &'a Rows,
    columns: &[ColumnId],
    steps: &mut Steps<L>,
) -> Result<Vec<Lent<'a>>, NoMemory>
    ensures rows { IfOk result (λ lent. IsPermutation (map (λ one. one.row.now) lent.items) rows.now) }
    ensures few { IfOk result (λ lent. length lent.items < 2 ^ 32) }
    ensures cost { OnOk result (steps.new ≡ steps.old + length rows.now) }
    ensures at_most { steps.new ≤ steps.old + length rows.now }
    ensures no_fewer { steps.old ≤ steps.new }
{
    let lent = lend_rows(alloc, rows, columns, steps)?;
    Ok(in_order(lent, columns))
}

/// Rows that are in no table yet, lent in the order of their values in some columns.
pub fn lend_new_in_order<'a>(
    alloc: Global,
    rows: &'a [Row],
    columns: &[ColumnId],
) -> Result<Vec<Lent<'a>>, NoMemory>
    ensures { IfOk result (λ lent. IsPermutation (map (λ one. one.row.now) lent.items) rows.now) }
{
    let mut lent = Vec::with_capacity(alloc, rows.len())?;
    for row in rows {
        lent.push(lend(row, columns))?;
    }
    Ok(in_order(lent, columns))
}
