// Columns by their names, and the bound of a constraint.
ghost use Rattle.std.specs.Prelude.{◌≡◌, ◌<◌, ◌≤◌, length, position, IfOk, IfSome, Some, None};
ghost use Rattle.std.specs.Str.{bytes_eq};
ghost use Rattle.std.specs.Option.{is_none};
ghost use Rattle.beas_core.specs.Spelling.{limit_in};
ghost use Rattle.catalogue.specs.Schema.{column_named};
ghost use Rattle.beas_core.specs.Results.{IsRefusedAs, refused_if};
ghost use Rattle.catalogue.specs.Refusing.{unknown_column, column_ids};

use beas_core::{Column, ColumnId, Duplicate, Fail, List, Name, Refusal, Text, limit_of};
use std::alloc::Global;

fn place_of(columns: &[Column], name: &Name) -> Option<usize>
    ensures place { result ≡ position (λ c. bytes_eq c.name name.now) columns.now }
    ensures within { IfSome result (λ i. i < length columns.now) }
{
    columns
        .iter()
        .position(|column| column.name.as_str() == name.as_str())
}

/// The column with this name, if there is one.
pub fn column_named(columns: &[Column], name: &Name) -> Option<ColumnId>
    requires { length columns.now ≤ 64 }
    ensures { result ≡ column_named columns.now name.now }
{
    match place_of(columns, name) {
        Some(place) => Some(ColumnId(place as u16)),
        None => None,
    }
}

/// The columns with these names. The first name without a column is refused.
pub fn ids_of(alloc: Global, columns: &[Column], names: &[Name]) -> Result<List<ColumnId>, Fail>
    requires { length columns.now ≤ 64 }
    ensures refused { IsRefusedAs result (unknown_column columns.now names.now) }
    ensures ids { IfOk result (λ ids. ids ≡ column_ids columns.now names.now) }
{
    let mut ids = List::new(alloc);
    for name in names {
        match column_named(columns, name) {
            Some(id) => ids.push(id)?,
            None => {
                return Err(Fail::Refused(Refusal::UnknownColumn {
                    table: None,
                    column: name.copy(alloc)?,
                }));
            }
        }
    }
    Ok(ids)
}

/// The bound that a statement writes, refused where it is out of range.
pub fn bound_of(alloc: Global, digits: &Text) -> Result<u32, Fail>
    ensures refused { IsRefusedAs result (refused_if (is_none (limit_in digits.now)) (Refusal.BadLimit digits.now)) }
    ensures bound { IfOk result (λ bound. limit_in digits.now ≡ Some bound) }
{
    match limit_of(digits) {
        Some(bound) => Ok(bound),
        None => Err(Fail::Refused(Refusal::BadLimit {
            digits: digits.copy(alloc)?,
        })),
    }
}
