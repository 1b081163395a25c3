// Laws on what is announced: it bounds the valuations and the reads.
ghost use Rattle.std.specs.Prelude.{◌≤◌, ℕ, IsTrue, length, is_some};
ghost use Rattle.beas_core.specs.Coverage.{ClassesInRange, ConstantsInRange, start_classes};
ghost use Rattle.beas_core.specs.Derivations.{steps_are_sound};
ghost use Rattle.beas_core.specs.Fits.{Fits, StepsHold};
ghost use Rattle.beas_core.specs.Queries.{announced_in, query_answers, query_reads, query_size};
ghost use Rattle.beas_core.specs.Fronts.{FrontsAreBounded};
ghost use Rattle.beas_core.specs.Guides.{BlockStart, StartFits};

use beas_core::{Access, AccessPort, DStep, Derivation, List, Normal, Prepared, Query};
use plan_ops::ask_for_all;

/// Where the constraints hold, the valuations after each front of the steps are at most its last size; and the reads
/// of each front, with what the next step may read, are at most the announced number, as are those of all steps.
pub fn law_block_bound<P: AccessPort>(port: &P, normal: &Normal, steps: &List<DStep>)
    requires classes { ClassesInRange normal.now }
    requires constants { ConstantsInRange normal.now }
    requires holds { StepsHold (P.rows port.now) (P.accesses port.now) steps.now }
    ensures { (start : BlockStart) → StartFits normal.now start
        → IsTrue (steps_are_sound normal.now (P.accesses port.now) (start_classes normal.now (is_some start.guide))
        steps.now)
        → FrontsAreBounded (P.rows port.now) normal.now (P.accesses port.now) start steps.now }
{}

/// A prepared query that fits has at most as many answers as its size says, and takes at most as many reads as its
/// bound says.
pub fn law_bound<P: AccessPort>(port: &P, prepared: &Prepared)
    requires { Fits (P.accesses port.now) (P.rows port.now) prepared.now }
    ensures answers { length (query_answers (P.rows port.now) prepared.now.guided prepared.now.query)
        ≤ query_size (P.accesses port.now) prepared.now.guided prepared.now.derivations prepared.now.query }
    ensures reads { query_reads (P.rows port.now) (P.accesses port.now) prepared.now.guided prepared.now.derivations
        prepared.now.query ≤ prepared.now.bound }
{
    ask_for_all(port, prepared.derivations.as_slice());
}

/// More answers of its guide never lessen what is announced of a query.
pub fn law_more_answers(
    accesses: &List<Access>,
    query: &Query,
    guided: &List<bool>,
    plans: &List<Derivation>,
)
    ensures { (n few many : ℕ) → few ≤ many
        → announced_in accesses.now guided.now plans.now n few query.now
        ≤ announced_in accesses.now guided.now plans.now n many query.now }
{}
