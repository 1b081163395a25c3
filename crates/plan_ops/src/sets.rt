// Answers as sets: what stands in either of two, and what stands in one alone. Each is read once, and rows are moved.
ghost use Rattle.std.specs.Prelude.{◌≡◌, ◌+◌, ◌<◌, ◌∷◌, [], IfOk, OnSome, MatchOption};
ghost use Rattle.beas_core.specs.Full.{set_union, set_difference};
ghost use Rattle.beas_core.specs.Groups.{same_row};
ghost use Rattle.beas_core.specs.Order.{row_cmp};
ghost use Rattle.beas_core.specs.Sets.{IsInOrder};
ghost use Rattle.plan_ops.specs.Merging.{begins_with, compared_fronts, from_row};
ghost use Rattle.std.specs.VecDeque.{deque_len};

use beas_core::{List, NoMemory, Row, compare_rows};
use std::alloc::Global;
use std::cmp::Ordering;
use std::collections::VecDeque;

// How the first rows of two answers stand to each other. The end of an answer stands after every row.
fn compare_fronts(left: &VecDeque<Row>, right: &VecDeque<Row>) -> Ordering
    ensures { result ≡ compared_fronts left.now.items right.now.items }
{
    match (left.front(), right.front()) {
        (Some(row), Some(other)) => compare_rows(row.as_slice(), other.as_slice()),
        (Some(_), None) => Ordering::Less,
        (None, Some(_)) => Ordering::Greater,
        (None, None) => Ordering::Equal,
    }
}

// Takes the least row of both answers out of each that has it.
fn take_least(left: &mut VecDeque<Row>, right: &mut VecDeque<Row>) -> Option<Row>
    requires left { IsInOrder row_cmp left.old.items }
    requires right { IsInOrder row_cmp right.old.items }
    ensures left { IsInOrder row_cmp left.new.items }
    ensures right { IsInOrder row_cmp right.new.items }
    ensures taken { MatchOption result (set_union left.old.items right.old.items ≡ [])
        (λ row. set_union left.old.items right.old.items ≡ row ∷ set_union left.new.items right.new.items) }
    ensures fewer { OnSome result (deque_len left.new + deque_len right.new
        < deque_len left.old + deque_len right.old) }
{
    match compare_fronts(left, right) {
        Ordering::Less => left.pop_front(),
        Ordering::Greater => right.pop_front(),
        Ordering::Equal => {
            let _same = right.pop_front();
            left.pop_front()
        }
    }
}

/// The rows that stand in either of two answers, in order. An answer has its rows in order, each once.
pub fn unite(alloc: Global, left: List<Row>, right: List<Row>) -> Result<List<Row>, NoMemory>
    requires left { IsInOrder row_cmp left }
    requires right { IsInOrder row_cmp right }
    ensures { IfOk result (λ rows. rows ≡ set_union left right) }
{
    let count = left.len().saturating_add(right.len());
    let mut rows = List::from_vec(Vec::with_capacity(alloc, count)?);
    let mut left = VecDeque::from(left.into_vec());
    let mut right = VecDeque::from(right.into_vec());
    while let Some(row) = take_least(&mut left, &mut right) {
        rows.push(row)?;
    }
    Ok(rows)
}

// The rows from the first on that doesn't stand before a row.
fn rows_from<'a>(rows: &'a [Row], row: &Row) -> &'a [Row]
    ensures { result.now ≡ from_row row.now rows.now }
{
    for (at, other) in rows.iter().enumerate() {
        if compare_rows(other.as_slice(), row.as_slice()) != Ordering::Less {
            return &rows[at..];
        }
    }
    &[]
}

fn begins(rows: &[Row], row: &Row) -> bool
    ensures { result ≡ begins_with row.now rows.now }
{
    match rows.first() {
        Some(first) => compare_rows(row.as_slice(), first.as_slice()) == Ordering::Equal,
        None => false,
    }
}

/// The rows of one answer that don't stand in another, in order. An answer has its rows in order, each once.
pub fn subtract(alloc: Global, left: List<Row>, right: List<Row>) -> Result<List<Row>, NoMemory>
    requires left { IsInOrder row_cmp left }
    requires right { IsInOrder row_cmp right }
    ensures { IfOk result (λ rows. rows ≡ set_difference left right) }
{
    let mut left = VecDeque::from(left.into_vec());
    let mut others = right.as_slice();
    let mut rows = List::new(alloc);
    while let Some(row) = left.pop_front() {
        others = rows_from(others, &row);
        if !begins(others, &row) {
            rows.push(row)?;
        }
    }
    Ok(rows)
}
