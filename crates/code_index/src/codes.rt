// Codes that are read where they stand.
ghost use Rattle.std.specs.Prelude.{◌≡◌, ◌<◌, ◌≤◌, ◌==◌, ℕ, List, length, position, IsTrue, ◌↔◌, ◌++◌, slice_index_or, IfOk, OnOk};
ghost use Rattle.beas_core.specs.Order.{row_cmp, value_cmp};
ghost use Rattle.beas_core.specs.Groups.{has_column, member_columns};
ghost use Rattle.code_index.specs.Codes.{value_of};
ghost use Rattle.code_index.specs.Reading.{read, row_code, code_in, pick};

use crate::interner::Interner;
use beas_core::{Access, ColumnId, NoMemory, Value, compare};
use labelled_list::TupleCodes;
use std::alloc::Global;
use std::cmp::Ordering;

/// Whether the tuples of a constraint have a column at a place.
#[tactic(auto, using(crate::proofs::Members::members_long))]
fn has_place(access: &Access, i: usize) -> bool
    ensures { IsTrue result ↔ (i < length (member_columns access.now)) }
{
    let keys = access.key.len();
    i < keys || i - keys < access.fetched.len()
}

/// The column of a constraint's tuples at a place.
#[tactic(auto, using(crate::proofs::Members::members_long, crate::proofs::Members::in_key, crate::proofs::Members::in_fetched))]
pub fn column_at(access: &Access, i: usize) -> ColumnId
    requires { i < length (member_columns access.now) }
    ensures { result ≡ slice_index_or (member_columns access.now) i result }
{
    let keys = access.key.len();
    if i < keys {
        access.key.as_slice()[i]
    } else {
        access.fetched.as_slice()[i - keys]
    }
}

/// The code of a row in a column. A column that the row doesn't have counts as 0.
pub fn row_code(row_codes: &[u64], column: ColumnId) -> u64
    ensures { result ≡ row_code row_codes.now column }
{
    match row_codes.get(column.0 as usize) {
        Some(code) => *code,
        None => 0,
    }
}

/// The order of the values of two codes.
fn compare_codes(codes: &Interner, left: u64, right: u64) -> Ordering
    ensures { result ≡ value_cmp (value_of codes.now left) (value_of codes.now right) }
{
    if left == right {
        return Ordering::Equal;
    }
    let zero = Value::Int(0);
    match codes.get(left) {
        Some(value) => match codes.get(right) {
            Some(other) => compare(value, other),
            None => compare(value, &zero),
        },
        None => match codes.get(right) {
            Some(other) => compare(&zero, other),
            None => Ordering::Equal,
        },
    }
}

/// The order of a tuple's values and those of a row's tuple.
pub fn compare_tuple(codes: &Interner, left: &[u64], access: &Access, row_codes: &[u64]) -> Ordering
    ensures { result ≡ row_cmp (read codes.now left.now)
        (read codes.now (pick (member_columns access.now) row_codes.now)) }
{
    for (i, code) in left.iter().enumerate() {
        if !has_place(access, i) {
            return Ordering::Greater;
        }
        let order = compare_codes(codes, *code, row_code(row_codes, column_at(access, i)));
        if order != Ordering::Equal {
            return order;
        }
    }
    if has_place(access, left.len()) {
        return Ordering::Less;
    }
    Ordering::Equal
}

/// Whether a tuple is a row's.
pub fn is_tuple(tuple: &[u64], access: &Access, row_codes: &[u64]) -> bool
    ensures { IsTrue result ↔ (tuple.now ≡ pick (member_columns access.now) row_codes.now) }
{
    for (i, code) in tuple.iter().enumerate() {
        if !has_place(access, i) {
            return false;
        }
        if *code != row_code(row_codes, column_at(access, i)) {
            return false;
        }
    }
    !has_place(access, tuple.len())
}

/// Adds a row's codes in some columns to a tuple.
pub fn push_codes(
    tuple: &mut Vec<u64>,
    columns: &[ColumnId],
    row_codes: &[u64],
) -> Result<(), NoMemory>
    ensures { OnOk result (tuple.new.items ≡ tuple.old.items ++ pick columns.now row_codes.now) }
{
    for column in columns {
        tuple.push(row_code(row_codes, *column))?;
    }
    Ok(())
}

/// The codes of a row's tuple.
pub fn tuple_codes(
    alloc: Global,
    access: &Access,
    row_codes: &[u64],
) -> Result<TupleCodes, NoMemory>
    ensures { IfOk result (λ tuple. tuple ≡ pick (member_columns access.now) row_codes.now) }
{
    let width = access.key.len().saturating_add(access.fetched.len());
    let mut tuple = Vec::with_capacity(alloc, width)?;
    push_codes(&mut tuple, access.key.as_slice(), row_codes)?;
    push_codes(&mut tuple, access.fetched.as_slice(), row_codes)?;
    Ok(TupleCodes::from_vec(tuple))
}

/// The codes of a row in the columns of a key.
pub fn key_of<const K: usize>(columns: &[ColumnId], row_codes: &[u64]) -> [u64; K]
    requires width { length columns.now ≡ K }
    ensures { result ≡ pick columns.now row_codes.now }
{
    let mut key = [0; K];
    for (i, column) in columns.iter().enumerate() {
        key[i] = row_code(row_codes, *column);
    }
    key
}

/// Where a column stands among some.
fn position_among(columns: &[ColumnId], column: ColumnId) -> Option<usize>
    ensures { result ≡ position (λ (other : ColumnId). other.0 == column.0) columns.now }
{
    columns.iter().position(|other| other.0 == column.0)
}

/// Where a column's code stands in a constraint's tuples. No tuple is read for it.
pub fn column_position(access: &Access, column: ColumnId) -> usize
    requires { IsTrue (has_column (member_columns access.now) column) }
    ensures within { result < length (member_columns access.now) }
    ensures code { (tuple : List ℕ) → length tuple ≡ length (member_columns access.now)
        → code_in (member_columns access.now) tuple column ≡ slice_index_or tuple result 0 }
{
    let key = access.key.as_slice();
    let fetched = access.fetched.as_slice();
    if let Some(at) = position_among(key, column) {
        return at;
    }
    match position_among(fetched, column) {
        Some(at) => key.len() + at,
        None => unreachable!(),
    }
}
