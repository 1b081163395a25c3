// The valuations that meet the comparisons.
ghost use Rattle.std.specs.Prelude.{◌≡◌, ◌≤◌, filter, length, pos, slice_index_or, All};
ghost use Rattle.beas_core.specs.declared.value.Value.TheVariants.{Int};
ghost use Rattle.beas_core.specs.Order.{value_cmp};
ghost use Rattle.beas_core.specs.Full.{sign_holds};
ghost use Rattle.beas_core.specs.Coverage.{place_class};
ghost use Rattle.beas_core.specs.Valuations.{as_bindings, classes_in, comparison_is_met};
ghost use Rattle.beas_core.specs.Extensions.{keep_met};
ghost use Rattle.plan_ops.specs.Over.{IsOver, bound_set, set_of};
ghost use Rattle.plan_ops.specs.Places.{place_of};

use crate::places::position_in;
use crate::valuations::Valuations;
use beas_core::{
    Comparison, List, Normal, Operand, Place, Row, Sign, Value, class_at, compare, sign_holds,
};
use place_chains::value_or;

// Drops the rows whose value at a place doesn't compare so with a fixed one.
fn keep_fixed(rows: &mut List<Row>, left: usize, sign: Sign, right: &Value, zero: &Value)
    ensures { rows.new
        ≡ filter (λ row. sign_holds sign (value_cmp (slice_index_or row left zero.now) right.now)) rows.old }
{
    rows.retain(|row| sign_holds(sign, compare(value_or(row.as_slice(), left, zero), right)));
}

// Drops the rows whose values at two places don't compare so.
fn keep_pair(rows: &mut List<Row>, left: usize, sign: Sign, right: usize, zero: &Value)
    ensures { rows.new
        ≡ filter
        (λ row. sign_holds sign (value_cmp (slice_index_or row left zero.now) (slice_index_or row right zero.now)))
        rows.old }
{
    rows.retain(|row| {
        let row = row.as_slice();
        sign_holds(
            sign,
            compare(value_or(row, left, zero), value_or(row, right, zero)),
        )
    });
}

/// Where the class of a place stands among ascending ones, or their number where it stands nowhere. It takes no memory.
pub fn position_among(block: &Normal, classes: &[u16], place: &Place) -> usize
    requires { classes.now ≡ classes_in (set_of block.now classes.now) }
    ensures { result ≡ place_of classes.now (place_class block.now place.now) }
{
    position_in(classes, class_at(block, place.atom, place.column))
}

// Drops the rows that fail a comparison, where its columns are all bound.
fn keep_meeting(
    block: &Normal,
    classes: &[u16],
    comparison: &Comparison,
    rows: &mut List<Row>,
    zero: &Value,
)
    requires classes { classes.now ≡ classes_in (set_of block.now classes.now) }
    requires widths { All (λ row. length row ≡ length classes.now) rows.old }
    requires zero { zero.now ≡ Int (pos 0) }
    ensures { rows.new ≡ filter (λ row. comparison_is_met block.now (set_of block.now classes.now)
        (as_bindings (set_of block.now classes.now) row) comparison.now) rows.old }
{
    let left = position_among(block, classes, &comparison.left);
    if left == classes.len() {
        return;
    }
    match &comparison.right {
        Operand::Fixed(value) => keep_fixed(rows, left, comparison.sign, value, zero),
        Operand::At(place) => {
            let right = position_among(block, classes, place);
            if right < classes.len() {
                keep_pair(rows, left, comparison.sign, right, zero);
            }
        }
    }
}

fn keep_all(block: &Normal, classes: &[u16], rows: &mut List<Row>, zero: &Value)
    requires classes { classes.now ≡ classes_in (set_of block.now classes.now) }
    requires widths { All (λ row. length row ≡ length classes.now) rows.old }
    requires zero { zero.now ≡ Int (pos 0) }
    ensures { rows.new ≡ keep_met block.now (set_of block.now classes.now) rows.old }
{
    for comparison in block.comparisons.as_slice() {
        keep_meeting(block, classes, comparison, rows, zero);
    }
}

/// Drops the valuations that fail a comparison whose columns are all bound. It takes no memory.
pub fn keep(block: &Normal, from: &mut Valuations)
    requires { IsOver (bound_set block.now from.old) from.old }
    ensures over { IsOver (bound_set block.now from.old) from.new }
    ensures rows { from.new.rows ≡ keep_met block.now (bound_set block.now from.old) from.old.rows }
    ensures classes { from.new.classes ≡ from.old.classes }
{
    let zero = Value::Int(0);
    keep_all(block, from.classes.as_slice(), &mut from.rows, &zero);
}
