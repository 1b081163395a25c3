// The output of a block.
ghost use Rattle.std.specs.Prelude.{◌≡◌, IfOk, map};
ghost use Rattle.beas_core.specs.Order.{row_cmp};
ghost use Rattle.beas_core.specs.Sets.{distinct};
ghost use Rattle.beas_core.specs.Valuations.{output_row};
ghost use Rattle.plan_ops.specs.Over.{IsOver, bound_set};

use crate::picking::distinct_values;
use crate::places::columns_at;
use crate::valuations::Valuations;
use beas_core::{List, NoMemory, Normal, Row};
use std::alloc::Global;

/// The distinct output rows of valuations, in order.
pub fn project(alloc: Global, block: &Normal, from: &Valuations) -> Result<List<Row>, NoMemory>
    requires { IsOver (bound_set block.now from.now) from.now }
    ensures { IfOk result (λ rows. rows
        ≡ distinct row_cmp (map (output_row block.now (bound_set block.now from.now)) from.now.rows)) }
{
    let columns = columns_at(
        alloc,
        block,
        from.classes.as_slice(),
        block.output.as_slice(),
    )?;
    let rows = distinct_values(alloc, &columns, from.rows.as_slice())?;
    Ok(List::from_vec(rows))
}
