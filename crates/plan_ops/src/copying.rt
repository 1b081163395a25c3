// Copies of values.
ghost use Rattle.std.specs.Prelude.{◌≡◌, ◌<◌, ◌+◌, ◌++◌, ◌∷◌, [], pos, length, slice_index_or, vec_capacity, vec_len, OnOk};
ghost use Rattle.beas_core.specs.declared.value.Value.TheVariants.{Int};

use beas_core::{Duplicate, NoMemory, Value};
use std::alloc::Global;

/// Adds a copy of a value, where there is room for it. A number is put in its place at once, since most values are numbers.
#[inline(always)]
pub fn push_copy(alloc: Global, value: &Value, values: &mut Vec<Value>) -> Result<(), NoMemory>
    requires { vec_len values.old < vec_capacity values.old }
    ensures items { OnOk result (values.new.items ≡ values.old.items ++ value.now ∷ []) }
    ensures len { OnOk result (vec_len values.new ≡ vec_len values.old + 1) }
    ensures room { OnOk result (vec_capacity values.new ≡ vec_capacity values.old) }
{
    match value {
        Value::Int(number) => values.push_reserved(Value::Int(*number)),
        Value::Str(_) => push_text(alloc, value, values)?,
    }
    Ok(())
}

// Adds a copy of a text, or of any value. It stands by itself so that `push_copy` stays short where it is put in.
#[inline(never)]
fn push_text(alloc: Global, value: &Value, values: &mut Vec<Value>) -> Result<(), NoMemory>
    requires { vec_len values.old < vec_capacity values.old }
    ensures items { OnOk result (values.new.items ≡ values.old.items ++ value.now ∷ []) }
    ensures len { OnOk result (vec_len values.new ≡ vec_len values.old + 1) }
    ensures room { OnOk result (vec_capacity values.new ≡ vec_capacity values.old) }
{
    values.push_reserved(value.copy(alloc)?);
    Ok(())
}

/// Adds a copy of the value at a place of the same vector, where there is room for it. No other piece of memory holds it
/// in between.
#[inline(always)]
pub fn push_copy_of(alloc: Global, values: &mut Vec<Value>, at: usize) -> Result<(), NoMemory>
    requires place { at < length values.old.items }
    requires room { vec_len values.old < vec_capacity values.old }
    ensures items { OnOk result (values.new.items
        ≡ values.old.items ++ slice_index_or values.old.items at (Int (pos 0)) ∷ []) }
    ensures len { OnOk result (vec_len values.new ≡ vec_len values.old + 1) }
    ensures room { OnOk result (vec_capacity values.new ≡ vec_capacity values.old) }
{
    match &values[at] {
        Value::Int(number) => {
            let number = *number;
            values.push_reserved(Value::Int(number));
        }
        Value::Str(_) => push_text_of(alloc, values, at)?,
    }
    Ok(())
}

// The same of a text, or of any value.
#[inline(never)]
fn push_text_of(alloc: Global, values: &mut Vec<Value>, at: usize) -> Result<(), NoMemory>
    requires place { at < length values.old.items }
    requires room { vec_len values.old < vec_capacity values.old }
    ensures items { OnOk result (values.new.items
        ≡ values.old.items ++ slice_index_or values.old.items at (Int (pos 0)) ∷ []) }
    ensures len { OnOk result (vec_len values.new ≡ vec_len values.old + 1) }
    ensures room { OnOk result (vec_capacity values.new ≡ vec_capacity values.old) }
{
    let value = values[at].copy(alloc)?;
    values.push_reserved(value);
    Ok(())
}
