// Where the sides of comparisons stand in joined rows.
ghost use Rattle.std.specs.Prelude.{◌≡◌, map, IfOk};
ghost use Rattle.beas_core.specs.Valuations.{classes_in};
ghost use Rattle.plan_ops.specs.Comparing.{sides_at};
ghost use Rattle.plan_ops.specs.Over.{set_of};

use crate::keeping::position_among;
use beas_core::{Comparison, NoMemory, Normal, Operand};
use std::alloc::Global;

/// Where the two sides of a comparison stand among the classes that are bound, or the number of these where a side isn't
/// bound. A fixed value stands at 0, which nobody looks at.
#[derive(Clone, Copy)]
pub struct Sides {
    pub left: usize,
    pub right: usize,
}

fn sides_of(block: &Normal, classes: &[u16], comparison: &Comparison) -> Sides
    requires { classes.now ≡ classes_in (set_of block.now classes.now) }
    ensures { result ≡ sides_at block.now classes.now comparison.now }
{
    let left = position_among(block, classes, &comparison.left);
    let right = match &comparison.right {
        Operand::Fixed(_) => 0,
        Operand::At(place) => position_among(block, classes, place),
    };
    Sides { left, right }
}

/// Where the sides of each comparison of a block stand, so that no tuple looks for them anew.
pub fn all_sides(alloc: Global, block: &Normal, classes: &[u16]) -> Result<Vec<Sides>, NoMemory>
    requires { classes.now ≡ classes_in (set_of block.now classes.now) }
    ensures { IfOk result (λ sides. sides.items ≡ map (sides_at block.now classes.now) block.now.comparisons) }
{
    let comparisons = block.comparisons.as_slice();
    let mut sides = Vec::with_capacity(alloc, comparisons.len())?;
    for comparison in comparisons {
        sides.push_reserved(sides_of(block, classes, comparison));
    }
    Ok(sides)
}
