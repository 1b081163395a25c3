// How the tuples of a step join the valuations before it.
ghost use Rattle.std.specs.Prelude.{◌≡◌, ◌<◌, ◌≤◌, ◌+◌, ◌++◌, length, vec_capacity, vec_len, All, IfOk};
ghost use Rattle.beas_core.specs.Coverage.{ClassesInRange};
ghost use Rattle.beas_core.specs.Groups.{member_columns};
ghost use Rattle.beas_core.specs.Valuations.{classes_in};
ghost use Rattle.plan_ops.specs.Joins.{IsJoin, checks_of as checks_in};
ghost use Rattle.plan_ops.specs.Over.{set_of};
ghost use Rattle.plan_ops.specs.Places.{places_in};

use crate::picked::Picked;
use crate::shared::Shared;
use crate::tables::{ClassList, classes_of, first_positions, positions_held};
use beas_core::{Access, ColumnId, List, NoMemory, Normal};
use std::alloc::Global;

/// What is worked out once for a step. A joined row is a valuation and then a tuple, and places are places of it.
#[derive(Drop)]
pub struct Join {
    /// The columns of a tuple, those of the step's key in the valuation, and those of the block's output after the step.
    pub picked: Picked,
    /// The classes that are bound after the step, ascending.
    pub classes: List<u16>,
    /// Where the value of each of these classes stands.
    pub sources: Vec<usize>,
    /// The places whose values are equal where the tuple fits the valuation.
    pub checks: Vec<(usize, usize)>,
    /// The places of the valuation and of the tuple that these compare.
    pub shared: Shared,
}

// Adds some columns, where there is room for them.
fn push_columns(columns: &[ColumnId], to: &mut Vec<ColumnId>)
    requires room { vec_len to.old + length columns.now ≤ vec_capacity to.old }
    ensures items { to.new.items ≡ to.old.items ++ columns.now }
    ensures len { vec_len to.new ≡ vec_len to.old + length columns.now }
    ensures room { vec_capacity to.new ≡ vec_capacity to.old }
{
    for column in columns {
        to.push_reserved(*column);
    }
}

// The columns of a tuple of a constraint, with room for as many more as its key and the block's output have.
fn columns_of(alloc: Global, block: &Normal, access: &Access) -> Result<Vec<ColumnId>, NoMemory>
    ensures { IfOk result (λ columns. columns.items ≡ member_columns access.now) }
{
    let more = access.key.len().saturating_add(block.output.len());
    let own = access.key.len().saturating_add(access.fetched.len());
    let count = own.saturating_add(more);
    let mut columns = Vec::with_capacity(alloc, count)?;
    push_columns(access.key.as_slice(), &mut columns);
    push_columns(access.fetched.as_slice(), &mut columns);
    Ok(columns)
}

// The places from `known` on whose classes stand at an earlier place too.
fn checks_of(
    alloc: Global,
    block: &Normal,
    places: &[usize],
    joined: &ClassList,
    known: usize,
) -> Result<Vec<(usize, usize)>, NoMemory>
    requires places { places.now ≡ places_in block.now.count joined.now }
    requires classes { All (λ class. class < block.now.count) joined.now }
    requires known { known ≤ length joined.now }
    ensures { IfOk result (λ checks. checks.items ≡ checks_in known joined.now) }
{
    let mut checks = Vec::new(alloc);
    for at in known..joined.len() {
        let first = places[usize::from(joined.get(at))];
        if at != first {
            checks.push((at, first))?;
        }
    }
    Ok(checks)
}

/// How tuples of a constraint on an atom join valuations over some classes.
pub fn join_of(
    alloc: Global,
    block: &Normal,
    atom: u16,
    access: &Access,
    classes: &[u16],
) -> Result<Join, NoMemory>
    requires ranges { ClassesInRange block.now }
    requires classes { classes.now ≡ classes_in (set_of block.now classes.now) }
    ensures { IfOk result (IsJoin block.now (record { atom = atom; access = access.now }) classes.now) }
{
    let columns = columns_of(alloc, block, access)?;
    let joined = ClassList::with_columns(block, classes, atom, &columns);
    let width = joined.len();
    let places = first_positions(alloc, block.count, &joined)?;
    // A tuple agrees with the valuation in the columns of its key.
    let checks = checks_of(alloc, block, &places, &joined, width - access.fetched.len())?;
    let shared = Shared::of_checks(alloc, &checks, classes.len())?;
    let bound = classes_of(alloc, block, &places, &joined)?;
    let sources = positions_held(places, width);
    let after = bound.as_slice();
    let picked = Picked::of(columns, block, classes, after, atom, access.key.as_slice())?;
    Ok(Join {
        picked,
        classes: bound,
        sources,
        checks,
        shared,
    })
}
