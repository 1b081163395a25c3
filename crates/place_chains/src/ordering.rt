// The tuples of a group in the order of their values at some places.
ghost use Rattle.std.specs.Prelude.{◌≡◌, ◌<◌, [], ℕ, List, IfOk, slice_index_or};
ghost use Rattle.std.specs.Ordering.{is_le, is_lt};
ghost use Rattle.beas_core.specs.Order.{row_cmp};
ghost use Rattle.beas_core.specs.Types.{Row};
ghost use Rattle.place_chains.specs.Fitting.{IsRun};
ghost use Rattle.place_chains.specs.TupleOrder.{IsOrder, IsReading, number_cmp, value_of, values_at};

use beas_core::{NoMemory, Value, compare};
use std::alloc::Global;
use std::cmp::Ordering;
use std::marker::Model;

/// The numbers of a group's tuples in the order of their values at some places, those with the same values ascending.
#[derive(Drop)]
pub struct TupleOrder {
    numbers: Vec<usize>,
}

impl Model for TupleOrder {
    ghost use Rattle.std.specs.Prelude.{List, ℕ};

    ghost Value = { List ℕ };

    ghost view = { λ s. s.numbers.items };
}

/// The value at a place of a row, and zero past its end.
pub fn value_or<'a>(row: &'a [Value], place: usize, zero: &'a Value) -> &'a Value
    ensures { result.now ≡ slice_index_or row.now place zero.now }
{
    match row.get(place) {
        Some(value) => value,
        None => zero,
    }
}

// The value of a tuple at a place, where `value` reads it. There is none past the last tuple, which a sort can't know.
fn value_in<'a, F: Fn(usize, usize) -> &'a Value>(
    count: usize,
    value: &F,
    zero: &'a Value,
    number: usize,
    place: usize,
) -> &'a Value
    requires { (i at : ℕ) → i < count → F.pre value.now i at }
    ensures { (tuples : List Row) → IsReading tuples count (F.post value.now) zero.now → result.now ≡ value_of tuples number place }
{
    if number < count {
        value(number, place)
    } else {
        zero
    }
}

// How two tuples stand by their values at some places, and where those are the same by their numbers.
fn compare_numbers<'a, F: Fn(usize, usize) -> &'a Value>(
    count: usize,
    value: &F,
    zero: &'a Value,
    places: &[usize],
    left: usize,
    right: usize,
) -> Ordering
    requires { (i at : ℕ) → i < count → F.pre value.now i at }
    ensures { (tuples : List Row) → IsReading tuples count (F.post value.now) zero.now → result ≡ number_cmp places.now tuples left right }
{
    for place in places {
        let order = compare(
            value_in(count, value, zero, left, *place),
            value_in(count, value, zero, right, *place),
        );
        if order != Ordering::Equal {
            return order;
        }
    }
    left.cmp(&right)
}

// How the values of a tuple at some places stand to those of a row at others.
fn compare_to_row<'a, F: Fn(usize, usize) -> &'a Value>(
    count: usize,
    value: &F,
    zero: &'a Value,
    own: &[usize],
    number: usize,
    places: &[usize],
    row: &[Value],
) -> Ordering
    requires { (i at : ℕ) → i < count → F.pre value.now i at }
    ensures { (tuples : List Row) → IsReading tuples count (F.post value.now) zero.now
        → result ≡ row_cmp (values_at own.now (slice_index_or tuples number [])) (values_at places.now row.now) }
{
    for at in 0..own.len().min(places.len()) {
        let order = compare(
            value_in(count, value, zero, number, own[at]),
            value_or(row, places[at], zero),
        );
        if order != Ordering::Equal {
            return order;
        }
    }
    own.len().cmp(&places.len())
}

impl TupleOrder {
    /// The order of so many tuples by their values at some places, where `value` reads that of a tuple at a place. It takes
    /// n log n comparisons, whatever the values are.
    pub fn new<'a, F: Fn(usize, usize) -> &'a Value>(
        alloc: Global,
        count: usize,
        value: &F,
        zero: &'a Value,
        places: &[usize],
    ) -> Result<TupleOrder, NoMemory>
        requires { (i at : ℕ) → i < count → F.pre value.now i at }
        ensures { (tuples : List Row) → IsReading tuples count (F.post value.now) zero.now → IfOk result (IsOrder places.now tuples) }
    {
        let mut numbers = Vec::with_capacity(alloc, count)?;
        for number in 0..count {
            numbers.push_reserved(number);
        }
        numbers.sort_unstable_by(
            |left: &usize, right: &usize|
                requires { (i at : ℕ) → i < count → F.pre value.now i at }
                ensures { (tuples : List Row) → IsReading tuples count (F.post value.entry.now) zero.entry.now
                    → result ≡ number_cmp places.entry.now tuples left.now right.now }
            { compare_numbers(count, value, zero, places, *left, *right) },
        );
        Ok(TupleOrder { numbers })
    }

    /// The numbers of the tuples whose values at the places of this order are those of a row at some places. They are found by
    /// halves.
    pub fn run<'a, F: Fn(usize, usize) -> &'a Value>(
        &self,
        count: usize,
        value: &F,
        zero: &'a Value,
        own: &[usize],
        places: &[usize],
        row: &[Value],
    ) -> &[usize]
        requires { (i at : ℕ) → i < count → F.pre value.now i at }
        ensures { (tuples : List Row) → IsReading tuples count (F.post value.now) zero.now → IsOrder own.now tuples self.now
            → IsRun own.now tuples (values_at places.now row.now) 0 result.now }
    {
        let from = self.numbers.partition_point(
            |number: &usize|
                requires { (i at : ℕ) → i < count → F.pre value.now i at }
                ensures { (tuples : List Row) → IsReading tuples count (F.post value.entry.now) zero.entry.now
                    → result ≡ is_lt (row_cmp (values_at own.entry.now (slice_index_or tuples number.now [])) (values_at places.entry.now row.entry.now)) }
            { compare_to_row(count, value, zero, own, *number, places, row).is_lt() },
        );
        let others = &self.numbers[from..];
        let len = others.partition_point(
            |number: &usize|
                requires { (i at : ℕ) → i < count → F.pre value.now i at }
                ensures { (tuples : List Row) → IsReading tuples count (F.post value.entry.now) zero.entry.now
                    → result ≡ is_le (row_cmp (values_at own.entry.now (slice_index_or tuples number.now [])) (values_at places.entry.now row.entry.now)) }
            { compare_to_row(count, value, zero, own, *number, places, row).is_le() },
        );
        &others[..len]
    }
}
