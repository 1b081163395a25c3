// Laws on what a query answers, and on what the steps of a derivation find.
ghost use Rattle.std.specs.Prelude.{◌≡◌, ◌↔◌, Bool, ℕ, List, All, Contains, IsTrue, Some, is_some};
ghost use Rattle.beas_core.specs.Types.{Guide, Row};
ghost use Rattle.beas_core.specs.Shapes.{AccessIsWellFormed, BlockIsWellFormed, width_of};
ghost use Rattle.beas_core.specs.Full.{full_of, full_of_block};
ghost use Rattle.beas_core.specs.Classes.{normal_of};
ghost use Rattle.beas_core.specs.Coverage.{ClassesInRange, ConstantsInRange, start_classes};
ghost use Rattle.beas_core.specs.Derivations.{IsSound, access_in, steps_are_sound};
ghost use Rattle.beas_core.specs.Valuations.{answers_of};
ghost use Rattle.beas_core.specs.Queries.{answers, inside, query_answers};
ghost use Rattle.beas_core.specs.Fronts.{FrontsExtend};
ghost use Rattle.beas_core.specs.Guides.{GuideFits};

use beas_core::{AccessPort, Block, DStep, List, Normal, Prepared};

/// A query answers what it answers in full, whichever of its blocks are guided. For every set of rows that guides it,
/// its answers and its full answer have the same members in the set; without a guide they are equal.
pub fn law_guided<P: AccessPort>(port: &P, prepared: &Prepared)
    ensures inside { (guided : List Bool) (n : ℕ) (found : List Row) (row : Row) → Contains found row
        → Contains (answers (P.rows port.now) guided n (Some found) prepared.now.query) row
        ↔ Contains (full_of (P.rows port.now) prepared.now.query) row }
    ensures alone { (guided : List Bool) → query_answers (P.rows port.now) guided prepared.now.query
        ≡ full_of (P.rows port.now) prepared.now.query }
{}

/// The valuations after one step more are the extensions of those before it that meet the comparisons.
pub fn law_step<P: AccessPort>(port: &P, normal: &Normal, steps: &List<DStep>)
    requires classes { ClassesInRange normal.now }
    requires constants { ConstantsInRange normal.now }
    ensures { (guide : Guide) → GuideFits normal.now guide
        → IsTrue (steps_are_sound normal.now (P.accesses port.now) (start_classes normal.now (is_some guide)) steps.now)
        → FrontsExtend (P.rows port.now) normal.now (P.accesses port.now) guide steps.now }
{}

/// The outputs of the last valuations of a sound derivation are the full answer of the block, and under a guide those
/// of its rows that stand in the guide.
pub fn law_answer<P: AccessPort>(port: &P, block: &Block, steps: &List<DStep>)
    requires block { BlockIsWellFormed block.now }
    requires accesses { All (λ s. AccessIsWellFormed (width_of block.now.atoms s.atom)
        (access_in (P.accesses port.now) s.access)) steps.now }
    ensures { (guide : Guide) → GuideFits (normal_of block.now) guide
        → IsSound (normal_of block.now) (P.accesses port.now) (start_classes (normal_of block.now) (is_some guide))
        steps.now
        → answers_of (P.rows port.now) (normal_of block.now) (P.accesses port.now) guide steps.now
        ≡ inside guide (full_of_block (P.rows port.now) block.now) }
{}
