// That a row breaks a constraint.
ghost use Rattle.std.specs.Prelude.{◌≡◌, ◌<◌, length, All, IfOk};
ghost use Rattle.beas_core.specs.Groups.{project};
ghost use Rattle.catalogue.specs.Refusing.{breaks_bound};

use beas_core::{Access, ColumnId, Duplicate, List, NoMemory, Refusal, Row};
use std::alloc::Global;

/// The values of a row in these columns.
fn values_in(alloc: Global, columns: &[ColumnId], row: &Row) -> Result<Row, NoMemory>
    requires { All (λ column. column.0 < length row.now) columns.now }
    ensures { IfOk result (λ values. values ≡ project columns.now row.now) }
{
    let mut values = List::new(alloc);
    for column in columns {
        values.push(row.as_slice()[column.0 as usize].copy(alloc)?)?;
    }
    Ok(values)
}

/// That the row with this number breaks a constraint.
pub fn broken_by(
    alloc: Global,
    access: &Access,
    row: &Row,
    number: u32,
) -> Result<Refusal, NoMemory>
    requires { All (λ column. column.0 < length row.now) access.now.key }
    ensures { IfOk result (λ why. why ≡ breaks_bound (number, row.now) access.now) }
{
    Ok(Refusal::BreaksBound {
        row: number,
        access: access.name.copy(alloc)?,
        key: values_in(alloc, access.key.as_slice(), row)?,
    })
}
