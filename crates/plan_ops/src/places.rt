// Where classes stand in valuations.
ghost use Rattle.std.specs.Prelude.{◌≡◌, ◌+◌, ◌++◌, ◌≤◌, length, map, vec_capacity, vec_len, IfOk};
ghost use Rattle.std.specs.Ordering.{nat_cmp};
ghost use Rattle.beas_core.specs.Coverage.{ClassesInRange, class_at as class_of_column, holds_classes, place_class};
ghost use Rattle.beas_core.specs.Sets.{IsInOrder};
ghost use Rattle.beas_core.specs.Valuations.{classes_in};
ghost use Rattle.plan_ops.specs.Over.{set_of};
ghost use Rattle.plan_ops.specs.Places.{column_of, place_of};

use beas_core::{ColumnId, NoMemory, Normal, Place, class_at, recall_classes};
use std::alloc::Global;

/// Where a class stands among ascending ones, or their number where it stands nowhere. It takes no memory.
pub fn position_in(classes: &[u16], class: u16) -> usize
    requires { IsInOrder nat_cmp classes.now }
    ensures { result ≡ place_of classes.now class }
{
    match classes.binary_search(&class) {
        Ok(at) => at,
        Err(_) => classes.len(),
    }
}

// The column that a class has in valuations.
fn column_in(block: &Normal, classes: &[u16], class: u16) -> ColumnId
    requires { classes.now ≡ classes_in (set_of block.now classes.now) }
    ensures { result ≡ column_of classes.now class }
{
    // A position is at most the number of classes, so that it fits a column's number.
    recall_classes(block);
    ColumnId(position_in(classes, class) as u16)
}

/// Whether the classes of some places all stand among these.
pub fn are_bound(block: &Normal, classes: &[u16], places: &[Place]) -> bool
    requires ranges { ClassesInRange block.now }
    requires classes { classes.now ≡ classes_in (set_of block.now classes.now) }
    ensures { result ≡ holds_classes (set_of block.now classes.now) (map (place_class block.now) places.now) }
{
    for place in places {
        let class = class_at(block, place.atom, place.column);
        if position_in(classes, class) == classes.len() {
            return false;
        }
    }
    true
}

/// Adds the columns that the classes of some columns of an atom have in valuations, where there is room for them.
pub fn push_columns_in(
    block: &Normal,
    classes: &[u16],
    atom: u16,
    columns: &[ColumnId],
    found: &mut Vec<ColumnId>,
)
    requires classes { classes.now ≡ classes_in (set_of block.now classes.now) }
    requires room { vec_len found.old + length columns.now ≤ vec_capacity found.old }
    ensures items { found.new.items ≡ found.old.items
        ++ map (λ c. column_of classes.now (class_of_column block.now atom c)) columns.now }
    ensures len { vec_len found.new ≡ vec_len found.old + length columns.now }
    ensures room { vec_capacity found.new ≡ vec_capacity found.old }
{
    for column in columns {
        found.push_reserved(column_in(block, classes, class_at(block, atom, *column)));
    }
}

/// Adds the columns that the classes of some places have in valuations, where there is room for them.
pub fn push_columns_at(block: &Normal, classes: &[u16], places: &[Place], found: &mut Vec<ColumnId>)
    requires classes { classes.now ≡ classes_in (set_of block.now classes.now) }
    requires room { vec_len found.old + length places.now ≤ vec_capacity found.old }
    ensures items { found.new.items ≡ found.old.items
        ++ map (λ p. column_of classes.now (place_class block.now p)) places.now }
    ensures len { vec_len found.new ≡ vec_len found.old + length places.now }
    ensures room { vec_capacity found.new ≡ vec_capacity found.old }
{
    for place in places {
        found.push_reserved(column_in(block, classes, class_at(block, place.atom, place.column)));
    }
}

/// The columns that the classes of some places have in valuations.
pub fn columns_at(
    alloc: Global,
    block: &Normal,
    classes: &[u16],
    places: &[Place],
) -> Result<Vec<ColumnId>, NoMemory>
    requires { classes.now ≡ classes_in (set_of block.now classes.now) }
    ensures { IfOk result (λ found. found.items
        ≡ map (λ p. column_of classes.now (place_class block.now p)) places.now) }
{
    let mut found = Vec::with_capacity(alloc, places.len())?;
    push_columns_at(block, classes, places, &mut found);
    Ok(found)
}
