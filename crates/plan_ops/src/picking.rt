// Values that columns pick from rows.
ghost use Rattle.std.specs.Prelude.{◌≡◌, ◌+◌, ◌++◌, ◌≤◌, length, map, vec_capacity, vec_len, IfOk, OnOk};
ghost use Rattle.beas_core.specs.Groups.{project};
ghost use Rattle.beas_core.specs.Order.{row_cmp};
ghost use Rattle.beas_core.specs.Sets.{distinct};

use crate::copying::push_copy;
use beas_core::{ColumnId, List, NoMemory, Row, Value, sort_distinct};
use std::alloc::Global;

/// Adds the values of a row in some columns, where there is room for them. One past the row's end is made up, since nothing
/// reaches it.
pub fn push_values(
    alloc: Global,
    columns: &[ColumnId],
    row: &[Value],
    values: &mut Vec<Value>,
) -> Result<(), NoMemory>
    requires { vec_len values.old + length columns.now ≤ vec_capacity values.old }
    ensures { OnOk result (values.new.items ≡ values.old.items ++ project columns.now row.now) }
{
    for column in columns {
        match row.get(usize::from(column.0)) {
            Some(value) => push_copy(alloc, value, values)?,
            None => values.push_reserved(Value::Int(0)),
        }
    }
    Ok(())
}

/// The values of a row in some columns.
pub fn values_in(alloc: Global, columns: &[ColumnId], row: &[Value]) -> Result<Row, NoMemory>
    ensures { IfOk result (λ values. values ≡ project columns.now row.now) }
{
    let mut values = Vec::with_capacity(alloc, columns.len())?;
    push_values(alloc, columns, row, &mut values)?;
    Ok(List::from_vec(values))
}

/// The values of rows in some columns, as a set in order.
pub fn distinct_values(
    alloc: Global,
    columns: &[ColumnId],
    rows: &[Row],
) -> Result<Vec<Row>, NoMemory>
    ensures { IfOk result (λ found. found.items ≡ distinct row_cmp (map (project columns.now) rows.now)) }
{
    let mut found = Vec::with_capacity(alloc, rows.len())?;
    for row in rows {
        found.push_reserved(values_in(alloc, columns, row.as_slice())?);
    }
    Ok(sort_distinct(found))
}
