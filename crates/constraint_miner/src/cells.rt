// Values that are lent for sorting: integers lie in place, so that no comparison of two follows a pointer.
ghost use Rattle.std.specs.Prelude.{◌≡◌};
ghost use Rattle.beas_core.specs.Order.{value_cmp, row_cmp};
ghost use Rattle.beas_core.specs.Groups.{value_at, project, same_row};
ghost use Rattle.constraint_miner.specs.Cells.{value_of};

use beas_core::{ColumnId, Value};
use std::cmp::Ordering;

/// A value, lent.
#[derive(Clone, Copy)]
pub enum Cell<'a> {
    Int(i64),
    Str(&'a str),
}

/// What has a value for each column, `Int(0)` where a column is none of its own.
pub trait Tuple: Copy {
    ghost use Rattle.std.specs.Prelude.{List};
    ghost use Rattle.beas_core.specs.declared.value.Value.{Value};

    ghost values: { Self → List Value };

    fn cell(&self, column: ColumnId) -> Cell<'_>
        ensures { value_of result ≡ value_at (Self.values self.now) column };
}

/// The value that a row has in a column.
pub fn lend(row: &[Value], column: ColumnId) -> Cell<'_>
    ensures { value_of result ≡ value_at row.now column }
{
    match row.get(column.0 as usize) {
        Some(Value::Int(number)) => Cell::Int(*number),
        Some(Value::Str(text)) => Cell::Str(text.as_str()),
        None => Cell::Int(0),
    }
}

impl Tuple for &[Value] {
    ghost values = { λ s. s.now };

    fn cell(&self, column: ColumnId) -> Cell<'_> {
        lend(self, column)
    }
}

/// Two values as a tuple: column 0 and column 1.
#[derive(Clone, Copy)]
pub struct CellPair<'a> {
    pub first: Cell<'a>,
    pub second: Cell<'a>,
}

impl<'a> Tuple for CellPair<'a> {
    ghost use Rattle.constraint_miner.specs.Cells.{pair_row};

    ghost values = { pair_row };

    fn cell(&self, column: ColumnId) -> Cell<'_> {
        match column.0 {
            0 => self.first,
            1 => self.second,
            _ => Cell::Int(0),
        }
    }
}

/// The value order on lent values.
fn compare_cells(a: Cell, b: Cell) -> Ordering
    ensures { result ≡ value_cmp (value_of a.entry) (value_of b.entry) }
{
    match (a, b) {
        (Cell::Int(a), Cell::Int(b)) => a.cmp(&b),
        (Cell::Int(_), Cell::Str(_)) => Ordering::Less,
        (Cell::Str(_), Cell::Int(_)) => Ordering::Greater,
        (Cell::Str(a), Cell::Str(b)) => a.cmp(b),
    }
}

/// Two tuples by their values in these columns.
pub fn compare_in<T: Tuple>(columns: &[ColumnId], a: &T, b: &T) -> Ordering
    ensures { result ≡ row_cmp (project columns.now (T.values a.now)) (project columns.now (T.values b.now)) }
{
    for column in columns {
        let order = compare_cells(a.cell(*column), b.cell(*column));
        if order != Ordering::Equal {
            return order;
        }
    }
    Ordering::Equal
}

/// Whether two tuples have the same values in these columns.
pub fn is_same_in<T: Tuple>(columns: &[ColumnId], a: &T, b: &T) -> bool
    ensures { result ≡ same_row (project columns.now (T.values a.now)) (project columns.now (T.values b.now)) }
{
    compare_in(columns, a, b) == Ordering::Equal
}
