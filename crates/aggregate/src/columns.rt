// The columns of a group, and what is made of them.
ghost use Rattle.std.specs.Prelude.{◌≡◌, ◌<◌, ◌^◌, All, IfOk, length};
ghost use Rattle.aggregate.specs.Grouping.{cell_of, first_of, int_of, last_of, sum_of, values_in};

use crate::cell::{Cell, Fold};
use beas_core::{Duplicate, NoMemory, Row, Value};
use std::alloc::Global;

/// The distinct values of a column, in order.
pub(crate) fn values_in(alloc: Global, group: &[Row], column: usize) -> Result<Vec<Value>, NoMemory>
    requires { All (λ row. column < length row) group.now }
    ensures { IfOk result (λ values. values.items ≡ values_in column group.now) }
{
    let mut values = Vec::new(alloc);
    for row in group {
        values.push(row.as_slice()[column].copy(alloc)?)?;
    }
    values.sort_unstable();
    values.dedup();
    Ok(values)
}

fn int_of(value: &Value) -> i64
    ensures { result ≡ int_of value.now }
{
    match value {
        Value::Int(number) => *number,
        Value::Str(_) => 0,
    }
}

/// The sum of integers.
#[tactic(auto, using(crate::proofs::GroupFacts::sum_more))]
fn sum_of(values: &[Value]) -> i128
    requires { length values.now < 2 ^ 64 }
    ensures { result ≡ sum_of values.now }
{
    let mut sum: i128 = 0;
    for value in values {
        sum += i128::from(int_of(value));
    }
    sum
}

fn first_of(alloc: Global, values: &[Value]) -> Result<Value, NoMemory>
    ensures { IfOk result (λ value. value ≡ first_of values.now) }
{
    match values {
        [first, ..] => first.copy(alloc),
        [] => Ok(Value::Int(0)),
    }
}

fn last_of(alloc: Global, values: &[Value]) -> Result<Value, NoMemory>
    ensures { IfOk result (λ value. value ≡ last_of values.now) }
{
    match values {
        [.., last] => last.copy(alloc),
        [] => Ok(Value::Int(0)),
    }
}

/// What a fold makes of the distinct values of a column, which are in order.
pub(crate) fn cell_of(alloc: Global, fold: Fold, values: &[Value]) -> Result<Cell, NoMemory>
    requires { length values.now < 2 ^ 64 }
    ensures { IfOk result (λ cell. cell ≡ cell_of fold values.now) }
{
    match fold {
        Fold::Plain | Fold::Least => Ok(Cell::Plain(first_of(alloc, values)?)),
        Fold::Count => Ok(Cell::Count(values.len() as u64)),
        Fold::Sum => Ok(Cell::Sum(sum_of(values))),
        Fold::Greatest => Ok(Cell::Plain(last_of(alloc, values)?)),
    }
}
