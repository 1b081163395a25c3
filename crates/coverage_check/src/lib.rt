//! Whether access constraints cover a block.
#![tactic(auto)]

ghost use Rattle.std.specs.Prelude.{◌≡◌, IfOk};
ghost use Rattle.beas_core.specs.Classes.{normal_of};
ghost use Rattle.beas_core.specs.Coverage.{own_reason};
ghost use Rattle.beas_core.specs.Shapes.{BlockIsWellFormed};

use attribute_closure::{close, reason};
use beas_core::{Access, Block, List, NoMemory, NotCovered};
use normal_form::normalise;
use std::alloc::Global;

/// Why constraints don't cover a block by itself, nothing where they do: the first needed column whose class the
/// covered set lacks, and where there is none the first atom that no constraint serves.
#[tactic(auto, using(crate::proofs::NormalFacts::in_range, crate::proofs::NormalFacts::few_atoms, crate::proofs::NormalFacts::few_needed))]
pub fn check(
    alloc: Global,
    accesses: &List<Access>,
    block: &Block,
) -> Result<Option<NotCovered>, NoMemory>
    requires { BlockIsWellFormed block.now }
    ensures { IfOk result (λ why. why ≡ own_reason (normal_of block.now) accesses.now) }
{
    let normal = normalise(alloc, block)?;
    let covered = close(alloc, &normal, accesses)?;
    reason(alloc, &normal, accesses, &covered)
}
