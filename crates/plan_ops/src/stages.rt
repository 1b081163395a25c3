// One step from one valuation.
ghost use Rattle.std.specs.Prelude.{◌≡◌, ◌↔◌, ◌<◌, ◌≤◌, ◌+◌, ◌++◌, length, pos, slice_index_or, take, drop, map, IfOk, OnOk, IsTrue};
ghost use Rattle.beas_core.specs.declared.value.Value.TheVariants.{Int};
ghost use Rattle.beas_core.specs.Coverage.{ClassesInRange, holds_classes, key_classes};
ghost use Rattle.beas_core.specs.Groups.{project, value_at};
ghost use Rattle.beas_core.specs.Valuations.{as_bindings, classes_in, comparison_is_met, output_row};
ghost use Rattle.beas_core.specs.Extensions.{meets_bound};
ghost use Rattle.plan_ops.specs.Comparing.{sides_at};
ghost use Rattle.plan_ops.specs.Joins.{IsWithin, joined_by};
ghost use Rattle.plan_ops.specs.Over.{set_of};
ghost use Rattle.plan_ops.specs.Stages.{IsPair, IsStage, bound_with, joined_row, key_by, leads_to, set_before, use_at};

use crate::comparing::{Sides, all_sides};
use crate::joining::{Join, join_of};
use crate::pairs::{pair_fits, push_pair, value_in_pair};
use crate::picking::{push_values, values_in};
use crate::places::{are_bound, columns_at};
use crate::sieving::{Sieve, sieve_of};
use beas_core::{
    Access, ColumnId, Comparison, Duplicate, List, NoMemory, Normal, Operand, Row, Value, compare,
    sign_holds,
};
use std::alloc::Global;
use std::snapshot::Snapshot;

/// What is worked out once for a step, to go on from any valuation before it.
#[derive(Drop)]
pub struct Stage {
    /// The atom that the step is on.
    pub atom: u16,
    /// The constraint that it uses, for clauses alone: a copy of it would take memory at each step.
    pub access: Snapshot<Access>,
    /// The classes that are bound before it, ascending, for clauses alone.
    pub from: Snapshot<List<u16>>,
    /// How tuples of the constraint join these valuations.
    pub join: Join,
    /// Where the sides of each of the block's comparisons stand in valuations after it.
    pub sides: Vec<Sides>,
    /// Whether all classes of the block's output are bound before it: then none of its tuples changes the output of a valuation.
    pub settled: bool,
    /// Which of its tuples are kept.
    pub sieve: Sieve,
}

/// The stage of a step on an atom by a constraint, after valuations of these classes.
pub fn stage_of(
    alloc: Global,
    block: &Normal,
    atom: u16,
    access: &Access,
    from: &List<u16>,
) -> Result<Stage, NoMemory>
    requires ranges { ClassesInRange block.now }
    requires classes { from.now ≡ classes_in (set_of block.now from.now) }
    requires key { IsTrue (holds_classes (set_of block.now from.now)
        (key_classes block.now (record { atom = atom; access = access.now }))) }
    ensures stage { IfOk result (IsStage block.now) }
    ensures atom { IfOk result (λ stage. stage.atom ≡ atom) }
    ensures access { IfOk result (λ stage. stage.access.value ≡ access.now) }
    ensures from { IfOk result (λ stage. stage.from.value ≡ from.now) }
{
    let before = from.as_slice();
    let join = join_of(alloc, block, atom, access, before)?;
    let after = join.classes.as_slice();
    let sides = all_sides(alloc, block, after)?;
    let settled = are_bound(block, before, block.output.as_slice());
    let plain = settled & join.checks.is_empty();
    let sieve = sieve_of(alloc, block, before, atom, join.picked.tuple(), plain)?;
    Ok(Stage {
        atom,
        access: Snapshot::of(access),
        from: Snapshot::of(from),
        join,
        sides,
        settled,
        sieve,
    })
}

/// Puts the key that a valuation gives to a step in the place of what stood in a row.
#[inline(always)]
pub fn key_into(
    alloc: Global,
    stage: &Stage,
    row: &[Value],
    key: &mut Vec<Value>,
) -> Result<(), NoMemory>
    ensures { (normal : Normal) → IsStage normal stage.now → length row.now ≡ length stage.now.from.value
        → OnOk result (key.new.items ≡ key_by normal (use_at stage.now) (set_before normal stage.now) row.now) }
{
    key.clear();
    let columns = stage.join.picked.key();
    key.reserve(columns.len())?;
    push_values(alloc, columns, row, key)
}

// A value of a valuation joined with a tuple. The joined row isn't made.
fn joined_value<'a>(join: &Join, row: &'a [Value], tuple: &'a [Value], column: usize) -> &'a Value
    requires within { IsWithin (length row.now + length tuple.now) join.now }
    requires column { column < length join.now.sources.items }
    ensures { result.now ≡ slice_index_or (joined_by join.now.sources.items row.now tuple.now) column (Int (pos 0)) }
{
    value_in_pair(row, tuple, join.sources[column])
}

// Whether a valuation joined with a tuple meets a comparison, where its columns are all bound. They are where its sides stand.
fn pair_meets(
    block: &Normal,
    join: &Join,
    row: &[Value],
    tuple: &[Value],
    comparison: &Comparison,
    sides: Sides,
) -> bool
    requires classes { join.now.classes ≡ classes_in (set_of block.now join.now.classes) }
    requires within { IsWithin (length row.now + length tuple.now) join.now }
    requires sources { length join.now.sources.items ≡ length join.now.classes }
    requires sides { sides ≡ sides_at block.now join.now.classes comparison.now }
    ensures { result ≡ comparison_is_met block.now (set_of block.now join.now.classes)
        (as_bindings (set_of block.now join.now.classes) (joined_by join.now.sources.items row.now tuple.now)) comparison.now }
{
    let bound = join.classes.len();
    if sides.left == bound {
        return true;
    }
    let value = joined_value(join, row, tuple, sides.left);
    match &comparison.right {
        Operand::Fixed(fixed) => sign_holds(comparison.sign, compare(value, fixed)),
        Operand::At(_) => {
            if sides.right == bound {
                return true;
            }
            let other = joined_value(join, row, tuple, sides.right);
            sign_holds(comparison.sign, compare(value, other))
        }
    }
}

// Whether it meets every comparison whose columns are all bound.
fn pair_meets_all(block: &Normal, stage: &Stage, row: &[Value], tuple: &[Value]) -> bool
    requires classes { stage.now.join.classes ≡ classes_in (set_of block.now stage.now.join.classes) }
    requires within { IsWithin (length row.now + length tuple.now) stage.now.join }
    requires sources { length stage.now.join.sources.items ≡ length stage.now.join.classes }
    requires sides { stage.now.sides.items ≡ map (sides_at block.now stage.now.join.classes) block.now.comparisons }
    ensures { result ≡ meets_bound block.now (set_of block.now stage.now.join.classes)
        (joined_by stage.now.join.sources.items row.now tuple.now) }
{
    let sides = stage.sides.as_slice();
    for (i, comparison) in block.comparisons.as_slice().iter().enumerate() {
        if !pair_meets(block, &stage.join, row, tuple, comparison, sides[i]) {
            return false;
        }
    }
    true
}

/// Whether a tuple that the key of a valuation finds makes a valuation after the step of it: it fits, and the
/// comparisons are met. It makes no row and takes no memory.
pub fn leads(block: &Normal, stage: &Stage, row: &[Value], tuple: &[Value]) -> bool
    requires stage { IsStage block.now stage.now }
    requires pair { IsPair block.now stage.now row.now tuple.now }
    ensures { result ≡ leads_to block.now (use_at stage.now) (set_before block.now stage.now) row.now tuple.now }
{
    if !pair_fits(&stage.join, row, tuple) {
        return false;
    }
    pair_meets_all(block, stage, row, tuple)
}

/// Adds the values of the valuation that one makes with a tuple that its key finds. The one stands among these values, from
/// a place on.
pub fn push_joined(
    alloc: Global,
    stage: &Stage,
    values: &mut Vec<Value>,
    from: usize,
    width: usize,
    tuple: &[Value],
) -> Result<(), NoMemory>
    requires row { from + width ≤ length values.old.items }
    requires within { IsWithin (width + length tuple.now) stage.now.join }
    ensures { (normal : Normal) → IsStage normal stage.now
        → IsPair normal stage.now (take width (drop from values.old.items)) tuple.now
        → OnOk result (values.new.items ≡ values.old.items ++ joined_row normal (use_at stage.now)
        (set_before normal stage.now) (take width (drop from values.old.items)) tuple.now) }
{
    push_pair(alloc, &stage.join, values, from, width, tuple)
}

// The value of a joined row in a column. One past its end is made up, since nothing reaches it.
fn output_value(
    alloc: Global,
    join: &Join,
    row: &[Value],
    tuple: &[Value],
    column: ColumnId,
) -> Result<Value, NoMemory>
    requires within { IsWithin (length row.now + length tuple.now) join.now }
    ensures { IfOk result (λ value. value ≡ value_at (joined_by join.now.sources.items row.now tuple.now) column) }
{
    let column = usize::from(column.0);
    if column < join.sources.len() {
        joined_value(join, row, tuple, column).copy(alloc)
    } else {
        Ok(Value::Int(0))
    }
}

// The values of a joined row in some columns.
fn output_values(
    alloc: Global,
    join: &Join,
    row: &[Value],
    tuple: &[Value],
    columns: &[ColumnId],
) -> Result<Row, NoMemory>
    requires within { IsWithin (length row.now + length tuple.now) join.now }
    ensures { IfOk result (λ values. values ≡ project columns.now (joined_by join.now.sources.items row.now tuple.now)) }
{
    let mut values = Vec::with_capacity(alloc, columns.len())?;
    for column in columns {
        values.push_reserved(output_value(alloc, join, row, tuple, *column)?);
    }
    Ok(List::from_vec(values))
}

/// The output row of the valuation with the values of a tuple that its key finds. The valuation isn't made.
pub fn joined_output(
    alloc: Global,
    stage: &Stage,
    row: &[Value],
    tuple: &[Value],
) -> Result<Row, NoMemory>
    requires within { IsWithin (length row.now + length tuple.now) stage.now.join }
    ensures { (normal : Normal) → IsStage normal stage.now → IsPair normal stage.now row.now tuple.now
        → IfOk result (λ output. output ≡ output_row normal (bound_with normal (use_at stage.now) (set_before normal stage.now))
        (joined_row normal (use_at stage.now) (set_before normal stage.now) row.now tuple.now)) }
{
    output_values(alloc, &stage.join, row, tuple, stage.join.picked.output())
}

// Whether a joined row has a value in a column. One past its end has a made-up one, since nothing reaches it.
fn has_value(join: &Join, row: &[Value], tuple: &[Value], column: ColumnId, value: &Value) -> bool
    requires within { IsWithin (length row.now + length tuple.now) join.now }
    ensures { IsTrue result ↔ (value.now ≡ value_at (joined_by join.now.sources.items row.now tuple.now) column) }
{
    let column = usize::from(column.0);
    if column < join.sources.len() {
        *value == *joined_value(join, row, tuple, column)
    } else {
        *value == Value::Int(0)
    }
}

// Whether a joined row has these values in some columns.
fn has_values(
    join: &Join,
    row: &[Value],
    tuple: &[Value],
    columns: &[ColumnId],
    values: &[Value],
) -> bool
    requires within { IsWithin (length row.now + length tuple.now) join.now }
    ensures { IsTrue result ↔ (values.now ≡ project columns.now (joined_by join.now.sources.items row.now tuple.now)) }
{
    if values.len() != columns.len() {
        return false;
    }
    for (i, value) in values.iter().enumerate() {
        if !has_value(join, row, tuple, columns[i], value) {
            return false;
        }
    }
    true
}

/// Whether a row is the output row of the valuation with the values of a tuple that its key finds. It makes no row and
/// takes no memory.
pub fn is_joined_output(stage: &Stage, row: &[Value], tuple: &[Value], output: &[Value]) -> bool
    requires within { IsWithin (length row.now + length tuple.now) stage.now.join }
    ensures { (normal : Normal) → IsStage normal stage.now → IsPair normal stage.now row.now tuple.now
        → (IsTrue result ↔ (output.now ≡ output_row normal (bound_with normal (use_at stage.now) (set_before normal stage.now))
        (joined_row normal (use_at stage.now) (set_before normal stage.now) row.now tuple.now))) }
{
    has_values(&stage.join, row, tuple, stage.join.picked.output(), output)
}

/// The output row of a valuation of these classes.
pub fn output_of(
    alloc: Global,
    block: &Normal,
    classes: &[u16],
    row: &[Value],
) -> Result<Row, NoMemory>
    requires classes { classes.now ≡ classes_in (set_of block.now classes.now) }
    requires wide { length row.now ≡ length classes.now }
    ensures { IfOk result (λ output. output ≡ output_row block.now (set_of block.now classes.now) row.now) }
{
    let columns = columns_at(alloc, block, classes, block.output.as_slice())?;
    values_in(alloc, &columns, row)
}
