// The codes of a row's values.
ghost use Rattle.std.specs.Prelude.{◌≡◌, ◌≤◌, ◌<◌, Some, List, length, IfOk, OnOk, IfSome, MatchOption};
ghost use Rattle.beas_core.specs.declared.value.Value.TheVariants.{Int};
ghost use Rattle.beas_core.specs.Groups.{value_at, project, member_columns};
ghost use Rattle.beas_core.specs.Shapes.{AccessIsWellFormed};
ghost use Rattle.code_index.specs.Codes.{code_of};
ghost use Rattle.code_index.specs.Reading.{KeepsCodes, Spells};
ghost use Rattle.code_index.specs.Spelling.{AllHaveCodes};

use crate::codes::column_at;
use crate::interner::Interner;
use beas_core::{Access, ColumnId, Duplicate, NoMemory, Value};
use std::alloc::Global;

/// The code of a row's value in a column, or none where it was never interned. A column that the row doesn't have stands
/// for the integer 0.
pub fn known_code(codes: &Interner, row: &[Value], column: ColumnId) -> Option<u64>
    ensures { result ≡ code_of codes.now (value_at row.now column) }
{
    match row.get(column.0 as usize) {
        Some(value) => codes.code(value),
        None => codes.code(&Value::Int(0)),
    }
}

/// A copy of a row's value in a column.
fn copy_in(alloc: Global, row: &[Value], column: ColumnId) -> Result<Value, NoMemory>
    ensures { IfOk result (λ copy. copy ≡ value_at row.now column) }
{
    match row.get(column.0 as usize) {
        Some(value) => value.copy(alloc),
        None => Ok(Value::Int(0)),
    }
}

/// The integer that a row has in a column, where it has one there.
fn integer_at(row: &[Value], column: ColumnId) -> Option<i64>
    ensures { IfSome result (λ integer. value_at row.now column ≡ Int integer) }
{
    match row.get(column.0 as usize) {
        Some(Value::Int(integer)) => Some(*integer),
        Some(Value::Str(_)) => None,
        None => Some(0),
    }
}

/// The code of a row's value in a column, which is interned where it wasn't yet. An integer is hashed once.
fn interned_in(
    alloc: Global,
    codes: &mut Interner,
    row: &[Value],
    column: ColumnId,
) -> Result<u64, NoMemory>
    ensures kept { KeepsCodes codes.old codes.new }
    ensures code { IfOk result (λ code. code_of codes.new (value_at row.now column) ≡ Some code) }
{
    if let Some(integer) = integer_at(row, column) {
        return codes.intern_integer(alloc, integer);
    }
    match known_code(codes, row, column) {
        Some(code) => Ok(code),
        None => codes.intern(alloc, copy_in(alloc, row, column)?),
    }
}

/// The codes of a row's values in the columns of a constraint's tuples, each at the place of its column, or none where
/// one of the values was never interned. It takes no memory.
#[tactic(auto, using(crate::proofs::Members::members_long))]
pub fn known_row(codes: &Interner, access: &Access, row: &[Value]) -> Option<[u64; 64]>
    requires { AccessIsWellFormed 64 access.now }
    ensures { MatchOption result (AllHaveCodes codes.now (project (member_columns access.now) row.now) → ⊥)
        (λ row_codes. Spells codes.now (member_columns access.now) row_codes row.now) }
{
    let mut row_codes = [0; 64];
    for i in 0..access.key.len() + access.fetched.len() {
        let column = column_at(access, i);
        match known_code(codes, row, column) {
            Some(code) => row_codes[column.0 as usize] = code,
            None => return None,
        }
    }
    Some(row_codes)
}

/// Writes the codes of a row's values in the columns of a constraint's tuples, each to the place of its column. Values that
/// weren't interned yet are, and all others keep their codes. Other places play no part, so one array serves many rows.
#[tactic(auto, using(crate::proofs::Members::members_long))]
pub fn interned_row(
    alloc: Global,
    codes: &mut Interner,
    access: &Access,
    row: &[Value],
    row_codes: &mut [u64; 64],
) -> Result<(), NoMemory>
    requires { AccessIsWellFormed 64 access.now }
    ensures kept { KeepsCodes codes.old codes.new }
    ensures spells { OnOk result (Spells codes.new (member_columns access.now) row_codes.new row.now) }
{
    for i in 0..access.key.len() + access.fetched.len() {
        let column = column_at(access, i);
        row_codes[column.0 as usize] = interned_in(alloc, codes, row, column)?;
    }
    Ok(())
}
