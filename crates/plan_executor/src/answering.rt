// The answers of blocks: from the start each step extends the valuations, and those that meet the comparisons stay.
ghost use Rattle.std.specs.Prelude.{◌≡◌, ◌+◌, ◌*◌, ◌<◌, ◌≤◌, ◌^◌, IfOk, IsTrue, is_some, length};
ghost use Rattle.beas_core.specs.Coverage.{ClassesInRange, ConstantsInRange, start_classes};
ghost use Rattle.beas_core.specs.Derivations.{access_in, bound_by, is_live, key_is_bound, IsSound};
ghost use Rattle.beas_core.specs.Fits.{StepsHold};
ghost use Rattle.beas_core.specs.Numbers.{announced_from};
ghost use Rattle.beas_core.specs.Reads.{reads_of, step_reads};
ghost use Rattle.beas_core.specs.Valuations.{answers_of, starts};
ghost use Rattle.std.specs.Option.{option_copied};
ghost use Rattle.beas_core.specs.Guides.{GuideFits};
ghost use Rattle.beas_core.specs.Extensions.{extensions, keep_met};
ghost use Rattle.plan_ops.specs.Over.{Counts, IsOver, bound_set};

use beas_core::{AccessPort, DStep, List, NoMemory, Normal, Row, Steps};
use plan_ops::{Valuations, extend, keep, project, start_block};
use std::alloc::Global;
use std::sync::ledger::Ledger;

// The valuations after one step more.
fn take_step<P: AccessPort, L: Ledger>(
    alloc: Global,
    port: &P,
    block: &Normal,
    step: &DStep,
    from: &Valuations,
    reads: &mut u128,
    steps: &mut Steps<L>,
) -> Result<Valuations, NoMemory>
    requires ranges { ClassesInRange block.now }
    requires live { IsTrue (is_live (P.accesses port.now) step.now.access) }
    requires key { IsTrue (key_is_bound block.now (P.accesses port.now) (bound_set block.now from.now) step.now) }
    requires over { IsOver (bound_set block.now from.now) from.now }
    requires room { reads.old + length from.now.rows * (access_in (P.accesses port.now) step.now.access).bound
        < 2 ^ 128 }

    ensures over { IfOk result (IsOver
        (bound_by block.now (P.accesses port.now) (bound_set block.now from.now) step.now)) }
    ensures rows { IfOk result (λ found. found.rows
        ≡ keep_met block.now (bound_by block.now (P.accesses port.now) (bound_set block.now from.now) step.now)
        (extensions (P.rows port.now) block.now (P.accesses port.now) step.now (bound_set block.now from.now)
        from.now.rows)) }
    ensures reads { Counts result reads.old reads.new (step_reads (P.rows port.now) block.now (P.accesses port.now)
        step.now (bound_set block.now from.now) from.now.rows) }
    ensures steps { Counts result steps.old steps.new (step_reads (P.rows port.now) block.now (P.accesses port.now)
        step.now (bound_set block.now from.now) from.now.rows) }
{
    let mut found = extend(alloc, port, block, step, from, reads, steps)?;
    keep(block, &mut found);
    Ok(found)
}

/// The answers of a block, of a guided one those that stand in its guide.
pub fn answer_block<P: AccessPort, L: Ledger>(
    alloc: Global,
    port: &P,
    block: &Normal,
    guide: Option<&List<Row>>,
    plan: &[DStep],
    reads: &mut u128,
    steps: &mut Steps<L>,
) -> Result<List<Row>, NoMemory>
    requires classes { ClassesInRange block.now }
    requires constants { ConstantsInRange block.now }
    requires fits { GuideFits block.now (option_copied guide) }
    requires sound { IsSound block.now (P.accesses port.now)
        (start_classes block.now (is_some (option_copied guide))) plan.now }
    requires holds { StepsHold (P.rows port.now) (P.accesses port.now) plan.now }
    requires room { reads.old
        + announced_from (P.accesses port.now) (length (starts block.now (option_copied guide))) plan.now < 2 ^ 128 }

    ensures rows { IfOk result (λ rows. rows
        ≡ answers_of (P.rows port.now) block.now (P.accesses port.now) (option_copied guide.entry) plan.now) }
    ensures reads { Counts result reads.old reads.new
        (reads_of (P.rows port.now) block.now (P.accesses port.now) (option_copied guide.entry) plan.now) }
    ensures steps { Counts result steps.old steps.new
        (reads_of (P.rows port.now) block.now (P.accesses port.now) (option_copied guide.entry) plan.now) }
{
    let mut from = start_block(alloc, block, guide)?;
    for step in plan {
        from = take_step(alloc, port, block, step, &from, reads, steps)?;
    }
    project(alloc, block, &from)
}
