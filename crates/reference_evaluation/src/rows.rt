// Rows, tables and sets in order.
ghost use Rattle.std.specs.Prelude.{◌≡◌, pos, map, slice_index_or, IfOk};
ghost use Rattle.beas_core.specs.Order.{row_cmp};
ghost use Rattle.beas_core.specs.Sets.{distinct};
ghost use Rattle.beas_core.specs.Groups.{project, value_at};
ghost use Rattle.reference_evaluation.specs.Tables.{rows_in};

use beas_core::{ColumnId, Duplicate, List, NoMemory, Row, TableId, Value, sort_distinct};
use std::alloc::Global;

/// The rows as a set in order.
pub fn distinct_rows(rows: List<Row>) -> List<Row>
    ensures { result ≡ distinct row_cmp rows }
{
    List::from_vec(sort_distinct(rows.into_vec()))
}

/// The rows of a table.
pub fn rows_of(tables: &[List<Row>], id: TableId) -> &[Row]
    ensures { result.now ≡ rows_in tables.now id }
{
    match tables.get(id.0 as usize) {
        Some(rows) => rows.as_slice(),
        None => &[],
    }
}

/// A column's value in a row. `zero` stands where the row has no such column.
pub fn value_or<'a>(row: &'a [Value], column: ColumnId, zero: &'a Value) -> &'a Value
    requires { zero.now ≡ Value.Int (pos 0) }
    ensures { result.now ≡ value_at row.now column }
{
    match row.get(column.0 as usize) {
        Some(value) => value,
        None => zero,
    }
}

/// A copy of a column's value in a row, zero where the row has no such column.
pub fn copy_of_value(alloc: Global, row: &[Value], column: ColumnId) -> Result<Value, NoMemory>
    ensures { IfOk result (λ value. value ≡ value_at row.now column) }
{
    match row.get(column.0 as usize) {
        Some(value) => value.copy(alloc),
        None => Ok(Value::Int(0)),
    }
}

/// A row's values in these columns.
pub fn project(alloc: Global, columns: &[ColumnId], row: &[Value]) -> Result<Row, NoMemory>
    ensures { IfOk result (λ part. part ≡ project columns.now row.now) }
{
    let mut part = List::new(alloc);
    for column in columns {
        part.push(copy_of_value(alloc, row, *column)?)?;
    }
    Ok(part)
}
