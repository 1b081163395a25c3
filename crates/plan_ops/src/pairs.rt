// A tuple of a step joined with a valuation.
ghost use Rattle.std.specs.Prelude.{◌≡◌, ◌<◌, ◌≤◌, ◌+◌, ◌++◌, ◌∷◌, [], length, take, drop, vec_capacity, vec_len, OnOk};
ghost use Rattle.beas_core.specs.Full.{same_value};
ghost use Rattle.plan_ops.specs.Joins.{IsWithin, at_place, fits_by, joined_by};

use crate::copying::{push_copy, push_copy_of};
use crate::joining::Join;
use beas_core::{NoMemory, Value};
use std::alloc::Global;

/// The value of a joined row at a place.
pub fn value_in_pair<'a>(row: &'a [Value], tuple: &'a [Value], place: usize) -> &'a Value
    requires { place < length row.now + length tuple.now }
    ensures { result.now ≡ at_place row.now tuple.now place }
{
    if place < row.len() {
        &row[place]
    } else {
        &tuple[place - row.len()]
    }
}

fn pair_agrees(row: &[Value], tuple: &[Value], check: (usize, usize)) -> bool
    requires left { check.0 < length row.now + length tuple.now }
    requires right { check.1 < length row.now + length tuple.now }
    ensures { result ≡ same_value (at_place row.now tuple.now check.0) (at_place row.now tuple.now check.1) }
{
    let left = value_in_pair(row, tuple, check.0);
    let right = value_in_pair(row, tuple, check.1);
    *left == *right
}

/// Whether a tuple fits the valuation.
pub fn pair_fits(join: &Join, row: &[Value], tuple: &[Value]) -> bool
    requires { IsWithin (length row.now + length tuple.now) join.now }
    ensures { result ≡ fits_by join.now.checks.items row.now tuple.now }
{
    for check in &join.checks {
        if !pair_agrees(row, tuple, *check) {
            return false;
        }
    }
    true
}

// Adds a copy of the value of a joined row at a place.
#[inline(always)]
fn push_placed(
    alloc: Global,
    values: &mut Vec<Value>,
    from: usize,
    width: usize,
    tuple: &[Value],
    place: usize,
) -> Result<(), NoMemory>
    requires row { from + width ≤ length values.old.items }
    requires place { place < width + length tuple.now }
    requires room { vec_len values.old < vec_capacity values.old }
    ensures items { OnOk result (values.new.items
        ≡ values.old.items ++ at_place (take width (drop from values.old.items)) tuple.now place ∷ []) }
    ensures len { OnOk result (vec_len values.new ≡ vec_len values.old + 1) }
    ensures room { OnOk result (vec_capacity values.new ≡ vec_capacity values.old) }
{
    if place < width {
        push_copy_of(alloc, values, from + place)
    } else {
        push_copy(alloc, &tuple[place - width], values)
    }
}

/// Adds the values of the valuation that one makes with a tuple. The one stands among these values, from a place on.
pub fn push_pair(
    alloc: Global,
    join: &Join,
    values: &mut Vec<Value>,
    from: usize,
    width: usize,
    tuple: &[Value],
) -> Result<(), NoMemory>
    requires row { from + width ≤ length values.old.items }
    requires within { IsWithin (width + length tuple.now) join.now }
    ensures { OnOk result (values.new.items
        ≡ values.old.items ++ joined_by join.now.sources.items (take width (drop from values.old.items)) tuple.now) }
{
    values.reserve(join.sources.len())?;
    for place in &join.sources {
        push_placed(alloc, values, from, width, tuple, *place)?;
    }
    Ok(())
}
