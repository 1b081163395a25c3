// Which tuples of a step are kept.
ghost use Rattle.std.specs.Prelude.{◌≡◌, ◌<◌, length, All, IfOk, IfSome, IsTrue, OnOk};
ghost use Rattle.beas_core.specs.Coverage.{ClassesInRange, place_class};
ghost use Rattle.beas_core.specs.Valuations.{classes_in, comparison_is_bound};
ghost use Rattle.plan_ops.specs.Over.{set_of};
ghost use Rattle.plan_ops.specs.Sieves.{IsOwn, IsSide, IsSieve};
ghost use Rattle.plan_ops.specs.SievesMade.{Lists};

use crate::keeping::position_among;
use beas_core::{ColumnId, Comparison, NoMemory, Normal, Operand, Place, class_at};
use std::alloc::Global;

/// A comparison that needs no other value than those of a tuple itself: its number among the block's, and the places of its sides
/// in the tuple. A fixed side has the place 0, which isn't read.
#[derive(Clone, Copy)]
pub struct Own {
    pub number: usize,
    pub left: usize,
    pub right: usize,
}

/// What decides which tuples of a step are kept: it lists the comparisons that need no other value than those of the tuple itself.
/// A tuple that fails one of them makes no valuation, so it isn't kept.
#[derive(Drop)]
pub struct Sieve {
    pub own: Vec<Own>,
    /// Whether it makes no difference to a valuation, or to its output, which of the tuples it goes on with that meet all of these.
    /// Then one of them is enough where no step comes after this one.
    pub one: bool,
}

// Where a tuple over some columns of an atom has the value of a place's class, if it has it.
fn side_of(block: &Normal, atom: u16, columns: &[ColumnId], place: &Place) -> Option<usize>
    requires ranges { ClassesInRange block.now }
    ensures { IfSome result (IsSide block.now atom columns.now (place_class block.now place.now)) }
{
    let class = class_at(block, place.atom, place.column);
    for (k, column) in columns.iter().enumerate() {
        if class_at(block, atom, *column) == class {
            return Some(k);
        }
    }
    None
}

// The comparison with a number, if the tuple has the value of each side that isn't fixed.
fn own_of(block: &Normal, atom: u16, columns: &[ColumnId], number: usize) -> Option<Own>
    requires ranges { ClassesInRange block.now }
    requires there { number < length block.now.comparisons }
    ensures own { IfSome result (IsOwn block.now atom columns.now) }
    ensures number { IfSome result (λ own. own.number ≡ number) }
{
    let comparison = &block.comparisons.as_slice()[number];
    let left = side_of(block, atom, columns, &comparison.left)?;
    let right = match &comparison.right {
        Operand::Fixed(_) => 0,
        Operand::At(place) => side_of(block, atom, columns, place)?,
    };
    Some(Own {
        number,
        left,
        right,
    })
}

// Whether each side of a comparison is fixed, or has its class among these.
fn is_bound(block: &Normal, classes: &[u16], comparison: &Comparison) -> bool
    requires classes { classes.now ≡ classes_in (set_of block.now classes.now) }
    ensures { IsTrue result → IsTrue (comparison_is_bound block.now (set_of block.now classes.now) comparison.now) }
{
    if position_among(block, classes, &comparison.left) == classes.len() {
        return false;
    }
    match &comparison.right {
        Operand::Fixed(_) => true,
        Operand::At(place) => position_among(block, classes, place) < classes.len(),
    }
}

// Lists the comparison with a number, if it needs no other value than the tuple's own. One whose sides are bound before the step
// isn't listed, since the valuation has met it. Says whether the comparison is of one of these two kinds.
fn list_own(
    block: &Normal,
    before: &[u16],
    atom: u16,
    columns: &[ColumnId],
    number: usize,
    own: &mut Vec<Own>,
) -> Result<bool, NoMemory>
    requires ranges { ClassesInRange block.now }
    requires before { before.now ≡ classes_in (set_of block.now before.now) }
    requires there { number < length block.now.comparisons }
    requires own { All (IsOwn block.now atom columns.now) own.old.items }
    ensures { IfOk result (Lists block.now (set_of block.now before.now) atom columns.now number own.old.items own.new.items) }
{
    if is_bound(block, before, &block.comparisons.as_slice()[number]) {
        return Ok(true);
    }
    let Some(found) = own_of(block, atom, columns, number) else {
        return Ok(false);
    };
    own.push(found)?;
    Ok(true)
}

/// The sieve of a step whose tuples have these columns of an atom, after valuations that bind the classes `before`. `plain` says
/// that no tuple changes the output of a valuation, and none is checked against it.
pub fn sieve_of(
    alloc: Global,
    block: &Normal,
    before: &[u16],
    atom: u16,
    columns: &[ColumnId],
    plain: bool,
) -> Result<Sieve, NoMemory>
    requires ranges { ClassesInRange block.now }
    requires before { before.now ≡ classes_in (set_of block.now before.now) }
    ensures { IfOk result (IsSieve block.now (set_of block.now before.now) atom columns.now plain) }
{
    let mut own = Vec::new(alloc);
    let mut one = plain;
    for number in 0..block.comparisons.len() {
        if !list_own(block, before, atom, columns, number, &mut own)? {
            one = false;
        }
    }
    Ok(Sieve { own, one })
}
