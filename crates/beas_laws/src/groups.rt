// Laws on groups.
ghost use Rattle.std.specs.Prelude.{◌≡◌, Contains, List};
ghost use Rattle.beas_core.specs.Types.{Row};
ghost use Rattle.aggregate.specs.Grouping.{grouped_rows};

use aggregate::Fold;
use beas_core::{List, Row};

/// Rows with the same members have the same groups, with the same cells, however often each member stands there. So
/// what a grouped statement makes of the listed rows of an answer is what it would make of all joined rows.
pub fn law_listed_groups(listed: &List<Row>, keys: u16, folds: &List<Fold>)
    ensures { (joined : List Row)
        → ((row : Row) → (Contains joined row → Contains listed.now row) × (Contains listed.now row → Contains joined row))
        → grouped_rows keys folds.now joined ≡ grouped_rows keys folds.now listed.now }
{}
