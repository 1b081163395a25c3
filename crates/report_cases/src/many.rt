// Many rows, a hundred for each key.
use crate::shown::groups_of;
use aggregate::{Cell, Fold};
use beas_core::{List, NoMemory, Row, Value};
use std::alloc::Global;

/// How many rows have one key.
const EACH: u32 = 100;

// The key is the row's number in hundreds. Of the columns that are folded the first has ten values in a group, each ten
// times, and the others have a hundred. The rows stand last first.
fn row_at(alloc: Global, number: u32) -> Result<Row, NoMemory> {
    let place = i64::from(number % EACH);
    let first = i64::from(number / EACH);
    let (second, third) = (place % 10, place - 50);
    let values = vec![in alloc;
        Value::Int(first),
        Value::Int(second),
        Value::Int(second),
        Value::Int(third),
        Value::Int(third),
    ]?;
    Ok(List::from_vec(values))
}

fn add_row(alloc: Global, rows: &mut Vec<Row>, number: u32) -> Result<(), NoMemory> {
    Ok(rows.push(row_at(alloc, number)?)?)
}

fn rows_to(alloc: Global, count: u32) -> Result<Vec<Row>, NoMemory> {
    let mut rows = Vec::new(alloc);
    for number in (0..count).rev() {
        add_row(alloc, &mut rows, number)?;
    }
    Ok(rows)
}

fn folds(alloc: Global) -> Result<List<Fold>, NoMemory> {
    let folds = vec![in alloc; Fold::Count, Fold::Sum, Fold::Least, Fold::Greatest]?;
    Ok(List::from_vec(folds))
}

// Whether a group of a hundred rows has what it is to have.
fn is_as_wanted(cells: &[Cell]) -> bool {
    matches!(
        cells,
        [
            Cell::Count(10),
            Cell::Sum(45),
            Cell::Plain(Value::Int(-50)),
            Cell::Plain(Value::Int(49))
        ]
    )
}

// How many groups have what they are to have.
fn count_as_wanted(groups: &[List<Cell>]) -> usize {
    let mut well = 0_usize;
    for cells in groups {
        if is_as_wanted(cells.as_slice()) {
            well = well.saturating_add(1);
        }
    }
    well
}

// The groups of so many rows.
fn groups_to(alloc: Global, count: u32) -> Result<Option<List<List<Cell>>>, NoMemory> {
    let folds = folds(alloc)?;
    groups_of(alloc, rows_to(alloc, count)?, 1, &folds)
}

// How many groups came of so many rows, and how many have what they are to have.
fn told(alloc: Global, count: u32, groups: &[List<Cell>]) -> Result<String, NoMemory> {
    let well = count_as_wanted(groups);
    let all = groups.len();
    Ok(format!(in alloc; "{count} rows: {well} of {all} groups as wanted")?)
}

/// Makes so many rows, and groups them. How many groups came of them, and how many have what they are to have, as text.
pub fn try_many(alloc: Global, count: u32) -> Result<String, NoMemory> {
    match groups_to(alloc, count)? {
        Some(groups) => told(alloc, count, groups.as_slice()),
        None => told(alloc, count, &[]),
    }
}
