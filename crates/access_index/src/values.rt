// Lists of values that are read where they stand: a key that is handed in, and what columns pick from a row.
ghost use Rattle.std.specs.Prelude.{◌≡◌, ◌<◌, List, pos, length, slice_index_or};
ghost use Rattle.std.specs.Option.{option_copied};
ghost use Rattle.beas_core.specs.declared.value.Value.{Value};
ghost use Rattle.beas_core.specs.Order.{row_cmp, value_cmp};
ghost use Rattle.beas_core.specs.Groups.{project};
ghost use Rattle.access_index.specs.Hashing.{or_zero, hash_of, with_value};

use beas_core::{ColumnId, Value, compare};
use seeded_hash::{FIXED_FACTOR, mixed};
use std::cmp::Ordering;

/// A list of values that is read where it stands.
pub trait Values: Drop {
    ghost list: { Self → List Value };

    fn len(&self) -> usize
        ensures { result ≡ length (list self.now) };

    /// The value at a place, or none where it stands for the integer 0.
    fn at(&self, place: usize) -> Option<&Value>
        requires { place < length (list self.now) }
        ensures { or_zero (option_copied result) ≡ slice_index_or (list self.now) place (Value.Int (pos 0)) };
}

/// Values as they are.
#[derive(Drop)]
pub struct Given<'a> {
    pub values: &'a [Value],
}

impl Values for Given<'_> {
    ghost list = { λ given. given.values.now };

    fn len(&self) -> usize {
        self.values.len()
    }

    fn at(&self, place: usize) -> Option<&Value> {
        self.values.get(place)
    }
}

/// The values of a row in some columns. A column that the row doesn't have stands for the integer 0.
#[derive(Drop)]
pub struct Picked<'a> {
    pub row: &'a [Value],
    pub columns: &'a [ColumnId],
}

impl Values for Picked<'_> {
    ghost list = { λ picked. project picked.columns.now picked.row.now };

    fn len(&self) -> usize {
        self.columns.len()
    }

    fn at(&self, place: usize) -> Option<&Value> {
        self.row.get(self.columns[place].0 as usize)
    }
}

/// The order of a value and one that may be absent.
pub fn compare_filled(left: &Value, right: Option<&Value>) -> Ordering
    ensures { result ≡ value_cmp left.now (or_zero (option_copied right.entry)) }
{
    match right {
        Some(right) => compare(left, right),
        None => compare(left, &Value::Int(0)),
    }
}

/// The order of rows, with one that is read where it stands.
pub fn compare_values<W: Values>(left: &[Value], right: &W) -> Ordering
    ensures { result ≡ row_cmp left.now (W.list right.now) }
{
    let len = right.len();
    for (i, value) in left.iter().enumerate() {
        if i >= len {
            return Ordering::Greater;
        }
        let order = compare_filled(value, right.at(i));
        if order != Ordering::Equal {
            return order;
        }
    }
    if left.len() < len {
        return Ordering::Less;
    }
    Ordering::Equal
}

fn mix_bytes(state: u64, bytes: &[u8]) -> u64
    ensures { result ≡ with_value state (Value.Str bytes.now) }
{
    let mut mixture = state;
    for byte in bytes {
        mixture = mixed(FIXED_FACTOR, mixture, u64::from(*byte));
    }
    mixture
}

fn mix_value(state: u64, value: Option<&Value>) -> u64
    ensures { result ≡ with_value state (or_zero (option_copied value.entry)) }
{
    match value {
        Some(Value::Int(number)) => mixed(FIXED_FACTOR, state, number.unsigned_abs()),
        Some(Value::Str(text)) => mix_bytes(state, text.as_str().as_bytes()),
        None => mixed(FIXED_FACTOR, state, 0),
    }
}

/// A hash of values, which equal values have alike.
#[tactic(auto, unfolding(crate::specs::Hashing::hash_of))]
pub fn hash_values<W: Values>(values: &W) -> u64
    ensures { result ≡ hash_of (W.list values.now) }
{
    let mut mixture = 0x243F_6A88_85A3_08D3;
    for i in 0..values.len() {
        mixture = mix_value(mixture, values.at(i));
    }
    mixture
}
