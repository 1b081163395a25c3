// Whether rows fit the columns of their table, and are few enough.
ghost use Rattle.std.specs.Prelude.{◌≡◌, ◌+◌, ◌<◌, ◌^◌, nat_lt, length, All, OnOk, option_copied};
ghost use Rattle.catalogue.specs.Database.{RowFits, has_kind};
ghost use Rattle.beas_core.specs.Results.{IsRefusedAs, refused_if};
ghost use Rattle.catalogue.specs.Refusing.{wrong_width, wrong_type, misfit};

use beas_core::{ColType, Column, Counted, Duplicate, Fail, Name, Refusal, Row, Value};
use std::alloc::Global;

/// Refuses the first row of another width.
pub fn refuse_widths(columns: &[Column], rows: &[Row]) -> Result<(), Fail>
    requires few { length rows.now < 2 ^ 32 }
    requires narrow { All (λ row. length row < 2 ^ 32) rows.now }
    requires columns { length columns.now < 2 ^ 32 }
    ensures refused { IsRefusedAs result (wrong_width columns.now rows.now) }
    ensures wide { OnOk result (All (λ row. length row ≡ length columns.now) rows.now) }
{
    for (i, row) in rows.iter().enumerate() {
        if row.len() != columns.len() {
            return Err(Fail::Refused(Refusal::WrongWidth {
                row: i as u32 + 1,
                found: row.len() as u32,
                wanted: columns.len() as u32,
            }));
        }
    }
    Ok(())
}

/// Whether a value is of a type.
fn has_kind(kind: ColType, value: &Value) -> bool
    ensures { result ≡ has_kind kind value.now }
{
    match (kind, value) {
        (ColType::Integer, Value::Int(_)) | (ColType::Words, Value::Str(_)) => true,
        (ColType::Integer, Value::Str(_)) | (ColType::Words, Value::Int(_)) => false,
    }
}

/// The first column whose value in the row has another type, if there is one.
fn misfit<'a>(columns: &'a [Column], row: &[Value]) -> Option<&'a Name>
    requires { length row.now ≡ length columns.now }
    ensures { option_copied result ≡ misfit columns.now row.now }
{
    for (i, column) in columns.iter().enumerate() {
        if !has_kind(column.kind, &row[i]) {
            return Some(&column.name);
        }
    }
    None
}

/// Refuses the first row with a value of another type than its column's, and the first such column.
pub fn refuse_types(alloc: Global, columns: &[Column], rows: &[Row]) -> Result<(), Fail>
    requires few { length rows.now < 2 ^ 32 }
    requires wide { All (λ row. length row ≡ length columns.now) rows.now }
    ensures refused { IsRefusedAs result (wrong_type columns.now rows.now) }
    ensures fit { OnOk result (All (RowFits columns.now) rows.now) }
{
    for (i, row) in rows.iter().enumerate() {
        match misfit(columns, row.as_slice()) {
            None => {}
            Some(column) => {
                return Err(Fail::Refused(Refusal::WrongType {
                    row: i as u32 + 1,
                    column: column.copy(alloc)?,
                }));
            }
        }
    }
    Ok(())
}

/// Refuses more rows where there would be more than the limit.
pub fn refuse_too_many(there: u32, more: usize, limit: u32) -> Result<(), Fail>
    ensures { IsRefusedAs result (refused_if (nat_lt limit (there + more)) (Refusal.TooMany Counted.Rows limit)) }
{
    if there > limit || more > (limit - there) as usize {
        return Err(Fail::Refused(Refusal::TooMany {
            what: Counted::Rows,
            limit: u64::from(limit),
        }));
    }
    Ok(())
}
