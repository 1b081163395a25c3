// Fronts of derivations: what the first uses bind, and what their steps read at most.
ghost use Rattle.std.specs.Prelude.{◌≡◌, ◌++◌, ◌∷◌, [], IfOk, List, OnOk, map};
ghost use Rattle.std.specs.Bool.{OnTrue};
ghost use Rattle.beas_core.specs.Derivations.{with_use};
ghost use Rattle.beas_core.specs.Types.{ClassSet, Use};
ghost use Rattle.attribute_closure.specs.Uses.{as_use};
ghost use Rattle.plan_builder.specs.Fronts.{IsFront, SizesAre};
ghost use Rattle.plan_builder.specs.Trials.{keys_are_bound, set_after};

use crate::sets::{add_use, adds};
use attribute_closure::{UseAt, holds_columns};
use beas_core::{NoMemory, Normal, Sizes};
use bound_calculator::with_step;
use std::alloc::Global;

/// What the first uses of a derivation come to: the classes that are bound after them, and the sizes of their steps
/// where one valuation stands before the first. There are no sizes where the reads pass 2^128 - 1.
#[derive(Drop)]
pub struct Front {
    pub set: Vec<bool>,
    pub sizes: Option<Sizes>,
}

impl Front {
    /// Before the first use.
    pub fn start(alloc: Global, set: &[bool]) -> Result<Front, NoMemory>
        ensures { IfOk result (λ front. (normal : Normal) → IsFront normal set.now [] front) }
    {
        Ok(Front {
            set: Vec::from_slice(alloc, set)?,
            sizes: Some(Sizes { reads: 0, last: 1 }),
        })
    }

    /// Goes back to where no use is taken yet. Its room is kept.
    pub fn restart(&mut self, set: &[bool]) -> Result<(), NoMemory>
        ensures { OnOk result ((normal : Normal) → IsFront normal set.now [] self.new) }
    {
        self.set.clear();
        self.set.extend_from_slice(set)?;
        self.sizes = Some(Sizes { reads: 0, last: 1 });
        Ok(())
    }
}

// The sizes with the step of one use more, before which these classes are bound.
fn sizes_with(
    block: &Normal,
    set: &[bool],
    sizes: Option<Sizes>,
    found: &UseAt<'_>,
) -> Option<Sizes>
    ensures { (start : ClassSet) (done : List Use) → set.now ≡ set_after block.now start done
        → SizesAre block.now start done sizes → SizesAre block.now start (done ++ as_use found.now ∷ []) result }
{
    match sizes {
        None => None,
        Some(sizes) => with_step(sizes, adds(block, set, found), found.access.bound),
    }
}

fn take_use(block: &Normal, found: &UseAt<'_>, front: &mut Front)
    ensures set { front.new.set.items ≡ with_use block.now front.old.set.items (as_use found.now) }
    ensures front { (start : ClassSet) (done : List Use) → IsFront block.now start done front.old
        → IsFront block.now start (done ++ as_use found.now ∷ []) front.new }
{
    front.sizes = sizes_with(block, &front.set, front.sizes, found);
    add_use(block, found, &mut front.set);
}

/// Takes uses in order. False where the key of one isn't bound when it comes up.
#[tactic(auto, using(crate::proofs::DropTurns::keys_broken, crate::proofs::DropTurns::keys_go_on, crate::proofs::DropTurns::keys_end))]
pub fn take_uses(block: &Normal, uses: &[UseAt<'_>], front: &mut Front) -> bool
    ensures keys { result ≡ keys_are_bound block.now front.old.set.items (map as_use uses.now) }
    ensures front { (start : ClassSet) (done : List Use) → IsFront block.now start done front.old
        → OnTrue result (IsFront block.now start (done ++ map as_use uses.now) front.new) }
{
    for found in uses {
        if !holds_columns(block, &front.set, found.atom, found.access.key.as_slice()) {
            return false;
        }
        take_use(block, found, front);
    }
    true
}
