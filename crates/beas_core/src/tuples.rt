// Rows as a set, and the order of a tuple beside a row.
ghost use Rattle.std.specs.Prelude.{◌≡◌, ◌<◌, length, All};
ghost use Rattle.beas_core.specs.Order.{row_cmp};
ghost use Rattle.beas_core.specs.Sets.{distinct};
ghost use Rattle.beas_core.specs.Groups.{project};

use crate::list::Row;
use crate::order::compare;
use crate::schema::ColumnId;
use crate::value::Value;
use std::cmp::Ordering;

/// The rows as a set: in value order, each once. It takes no memory.
pub fn sort_distinct(mut rows: Vec<Row>) -> Vec<Row>
    ensures { result.items ≡ distinct row_cmp rows.items }
{
    rows.sort_unstable();
    rows.dedup();
    rows
}

/// How a tuple stands to a row's values in some columns, in the value order. It takes no memory.
pub fn compare_projected(tuple: &[Value], columns: &[ColumnId], row: &[Value]) -> Ordering
    requires { All (λ column. column.0 < length row.now) columns.now }
    ensures { result ≡ row_cmp tuple.now (project columns.now row.now) }
{
    for (at, column) in columns.iter().enumerate() {
        if at == tuple.len() {
            return Ordering::Less;
        }
        let order = compare(&tuple[at], &row[usize::from(column.0)]);
        if order != Ordering::Equal {
            return order;
        }
    }
    if columns.len() < tuple.len() {
        Ordering::Greater
    } else {
        Ordering::Equal
    }
}
