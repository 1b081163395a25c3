// Laws on covered sets, reasons and derivations, and on what is prepared from them.
ghost use Rattle.std.specs.Prelude.{◌≡◌, ◌≤◌, ◌↔◌, ℕ, List, length, map, IsTrue, Contains, false, Some, None, is_some};
ghost use Rattle.std.specs.List.{list_all};
ghost use Rattle.beas_core.specs.declared.plan.DStep.{DStep};
ghost use Rattle.beas_core.specs.declared.plan.Prepared.{Prepared};
ghost use Rattle.beas_core.specs.declared.schema.Access.{Access};
ghost use Rattle.beas_core.specs.Types.{ClassSet, TableRows};
ghost use Rattle.beas_core.specs.Shapes.{EachIdOnce};
ghost use Rattle.beas_core.specs.Coverage.{ClassesInRange, IsLeastClosed, covered_set, is_covered, reason};
ghost use Rattle.beas_core.specs.Derivations.{IsSound, greedy_steps};
ghost use Rattle.beas_core.specs.Pruning.{capped_number, derivation, pruned};
ghost use Rattle.beas_core.specs.Guiding.{block_tasks, first_uncovered, is_guided_task};
ghost use Rattle.beas_core.specs.Fits.{Fits, GuidedOnlyWithGuide, KeepsConstraints, KeepsRows};
ghost use Rattle.beas_core.specs.Covered.{IsCovered, task_is_covered};
ghost use Rattle.beas_laws.specs.Kept.{IsUnchanged};

use beas_core::{Access, List, Normal, Query};

/// The covered set is the least set that holds the start and is closed under the constraints.
pub fn law_covered_set(normal: &Normal, accesses: &List<Access>, start: &List<bool>)
    requires start { length start.now ≡ normal.now.count }
    requires classes { ClassesInRange normal.now }
    ensures { IsLeastClosed normal.now accesses.now start.now (covered_set normal.now accesses.now start.now) }
{}

/// There is no reason exactly where the set holds the class of each needed column and each atom has a use that serves
/// it; and that is what it means to be covered.
pub fn law_reason(normal: &Normal, accesses: &List<Access>, set: &List<bool>)
    ensures none { (reason normal.now accesses.now set.now ≡ None) ↔ IsCovered normal.now accesses.now set.now }
    ensures covered { IsTrue (is_covered normal.now accesses.now set.now) ↔ IsCovered normal.now accesses.now set.now }
{}

/// Each block of a query is covered for its start exactly where there is no first block that isn't, whatever
/// constraints each block may use; and a block is guided only where it has a guide.
pub fn law_first_uncovered(query: &Query)
    ensures covered { (constraints : ℕ → List Access)
        → IsTrue (list_all task_is_covered (block_tasks constraints query.now))
        ↔ (first_uncovered (block_tasks constraints query.now) ≡ None) }
    ensures guided { (constraints : ℕ → List Access)
        → GuidedOnlyWithGuide (map is_guided_task (block_tasks constraints query.now)) 0 false query.now }
{}

/// The canonical derivation is sound.
pub fn law_derivation_sound(normal: &Normal, accesses: &List<Access>, start: &List<bool>)
    requires { EachIdOnce accesses.now }
    ensures { (steps : List DStep) → derivation normal.now accesses.now start.now ≡ Some steps
        → IsSound normal.now accesses.now start.now steps }
{}

/// The canonical derivation is what is left of the greedy steps: it is sound, and its capped number is no greater
/// than theirs.
pub fn law_pruned(accesses: &List<Access>, block: &Normal)
    requires { EachIdOnce accesses.now }
    ensures left { (start : ClassSet) (steps : List DStep) → greedy_steps block.now accesses.now start ≡ Some steps
        → derivation block.now accesses.now start ≡ Some (pruned block.now accesses.now start steps) }
    ensures sound { (start : ClassSet) (steps : List DStep) → greedy_steps block.now accesses.now start ≡ Some steps
        → IsSound block.now accesses.now start (pruned block.now accesses.now start steps) }
    ensures no_greater { (start : ClassSet) (steps : List DStep)
        → capped_number accesses.now (pruned block.now accesses.now start steps) ≤ capped_number accesses.now steps }
{}

/// A derivation exists exactly where the block is covered, and is lacking exactly where there is a reason.
pub fn law_derivation_exists(normal: &Normal, accesses: &List<Access>, start: &List<bool>)
    requires start { length start.now ≡ normal.now.count }
    requires classes { ClassesInRange normal.now }
    requires ids { EachIdOnce accesses.now }
    ensures covered { IsTrue (is_some (derivation normal.now accesses.now start.now))
        ↔ IsTrue (is_covered normal.now accesses.now (covered_set normal.now accesses.now start.now)) }
    ensures lacking { (derivation normal.now accesses.now start.now ≡ None)
        ↔ IsTrue (is_some (reason normal.now accesses.now (covered_set normal.now accesses.now start.now))) }
{}

/// A derivation stays sound with more constraints live.
pub fn law_more_accesses(normal: &Normal, accesses: &List<Access>, more: &List<Access>)
    requires ids { EachIdOnce more.now }
    requires within { (access : Access) → Contains accesses.now access → Contains more.now access }
    ensures { (start : ClassSet) (steps : List DStep) → IsSound normal.now accesses.now start steps
        → IsSound normal.now more.now start steps }
{}

/// A prepared query that fits goes on fitting, with the same answers, probes and reads, over all constraints and rows
/// that keep the constraints of its derivations and the rows of its tables, whatever else they have.
pub fn law_still_fits(accesses: &List<Access>, other: &List<Access>)
    ensures { (rows other_rows : TableRows) (prepared : Prepared) → Fits accesses.now rows prepared
        → KeepsConstraints accesses.now other.now prepared.derivations
        → KeepsRows rows other_rows prepared.query
        → IsUnchanged accesses.now other.now rows other_rows prepared }
{}

/// So a prepared query that fits goes on fitting with more constraints live.
pub fn law_more_fits(accesses: &List<Access>, more: &List<Access>)
    requires ids { EachIdOnce more.now }
    requires within { (access : Access) → Contains accesses.now access → Contains more.now access }
    ensures { (rows : TableRows) (prepared : Prepared) → Fits accesses.now rows prepared → Fits more.now rows prepared }
{}
