// Laws on scan plans.
ghost use Rattle.std.specs.Prelude.{◌≡◌, None};
ghost use Rattle.beas_core.specs.Guiding.{block_tasks, first_uncovered};
ghost use Rattle.beas_core.specs.Shapes.{QueryIsWellFormed};
ghost use Rattle.plan_builder.specs.Preparation.{preparation};
ghost use Rattle.partial_plan.specs.Scans.{TableSizes};
ghost use Rattle.partial_plan.specs.ScanPlans.{plan_without_scans, scan_preparation};
ghost use Rattle.partial_plan.proofs.NumberFacts.{AgreeOn};

use beas_core::Query;
use catalogue::Catalogue;

/// What is announced of a query that may scan depends on the numbers of rows of its own tables alone.
pub fn law_sizes_alone(catalogue: &Catalogue, query: &Query)
    requires { QueryIsWellFormed query.now }
    ensures { (sizes others : TableSizes) → AgreeOn sizes others query.now
        → scan_preparation catalogue.now sizes query.now ≡ scan_preparation catalogue.now others query.now }
{}

/// A query that is covered is prepared as ever: without scans, with the same number.
pub fn law_covered_alone(catalogue: &Catalogue, query: &Query)
    requires well_formed { QueryIsWellFormed query.now }
    requires covered { first_uncovered (block_tasks (λ n. catalogue.now.accesses) query.now) ≡ None }
    ensures { (sizes : TableSizes) → scan_preparation catalogue.now sizes query.now
        ≡ plan_without_scans (preparation catalogue.now query.now) }
{}
