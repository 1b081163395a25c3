// What comes of a case, as text.
ghost use Rattle.std.specs.Prelude.{◌≡◌, ◌+◌, All, IsTrue, length};

use crate::cases::Case;
use aggregate::{Cell, Fold, fold_rows};
use beas_core::{List, NoMemory, Row, Value, sort_distinct};
use std::alloc::Global;
use std::fmt::Write;
use std::mem;

/// Whether all rows have a key and a column for each fold.
fn are_wide(rows: &[Row], keys: u16, folds: &[Fold]) -> bool
    ensures { IsTrue result → All (λ row. length row ≡ keys + length folds.now) rows.now }
{
    rows.iter()
        .all(|row| row.len() == usize::from(keys) + folds.len())
}

/// The groups of some rows, in whatever order they stand, and nothing where a row has too few or too many columns.
#[tactic(auto, using(crate::proofs::Ordered::distinct_in_order))]
pub fn groups_of(
    alloc: Global,
    rows: Vec<Row>,
    keys: u16,
    folds: &List<Fold>,
) -> Result<Option<List<List<Cell>>>, NoMemory> {
    let rows = List::from_vec(sort_distinct(rows));
    if are_wide(rows.as_slice(), keys, folds.as_slice()) {
        Ok(Some(fold_rows(alloc, &rows, keys, folds)?))
    } else {
        Ok(None)
    }
}

/// The name of a case, and a line for each group. It takes the case's rows.
pub fn show_case(alloc: Global, case: &mut Case) -> Result<String, NoMemory> {
    let mut shown = format!(in alloc; "{}\n", case.name)?;
    show_rows(alloc, &mut shown, case)?;
    Ok(shown)
}

fn show_rows(alloc: Global, shown: &mut String, case: &mut Case) -> Result<(), NoMemory> {
    let rows = mem::replace(&mut case.rows, Vec::new(alloc));
    match groups_of(alloc, rows, case.keys, &case.folds)? {
        Some(groups) => show_groups(shown, groups.as_slice()),
        None => Ok(shown.push_str("  rows of other widths\n")?),
    }
}

fn show_groups(shown: &mut String, groups: &[List<Cell>]) -> Result<(), NoMemory> {
    for cells in groups {
        show_cells(shown, cells.as_slice())?;
    }
    Ok(())
}

fn show_cells(shown: &mut String, cells: &[Cell]) -> Result<(), NoMemory> {
    shown.push(' ')?;
    for cell in cells {
        show_cell(shown, cell)?;
    }
    shown.push('\n')?;
    Ok(())
}

fn show_cell(shown: &mut String, cell: &Cell) -> Result<(), NoMemory> {
    match cell {
        Cell::Plain(Value::Int(number)) => show_number(shown, i128::from(*number)),
        Cell::Plain(Value::Str(text)) => show_text(shown, text.as_str()),
        Cell::Count(count) => show_number(shown, i128::from(*count)),
        Cell::Sum(sum) => show_number(shown, *sum),
    }
}

fn show_number(shown: &mut String, number: i128) -> Result<(), NoMemory> {
    Ok(write!(shown, " {number}")?)
}

fn show_text(shown: &mut String, text: &str) -> Result<(), NoMemory> {
    Ok(write!(shown, " '{text}")?)
}
