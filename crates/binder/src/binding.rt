// Binds a query.
ghost use Rattle.std.specs.Prelude.{◌≡◌, ◌<◌, ◌≤◌, ◌^◌, All, IfOk, length};
ghost use Rattle.beas_core.specs.Results.{IsRefusedAs};
ghost use Rattle.beas_core.specs.Shapes.{QueryIsWellFormed};
ghost use Rattle.beas_core.specs.Trees.{blocks_of as blocks_in};
ghost use Rattle.catalogue.specs.Queries.{QueryIsOver};
ghost use Rattle.name_resolution.specs.Binding.{blocks_of, refusals, bound_query};
ghost use Rattle.name_resolution.specs.Refusing.{first};

use crate::at_once::bound_at_once;
use beas_core::{Fail, Limits, Query};
use catalogue::{Catalogue, recall_soundness};
use name_resolution::bound_by_kinds;
use sql_text::SelectTree;
use std::alloc::Global;

/// Binds a query: each name becomes the one place that it stands for.
pub fn bind(
    alloc: Global,
    catalogue: &Catalogue,
    limits: &Limits,
    tree: &SelectTree,
) -> Result<Query, Fail>
    requires blocks { length (blocks_of tree.now) < 2 ^ 32 }
    requires conditions { All (λ b. length b.conditions < 2 ^ 32) (blocks_of tree.now) }
    ensures refused { IsRefusedAs result (first (refusals limits.now catalogue.now tree.now)) }
    ensures query { IfOk result (λ query. query ≡ bound_query catalogue.now tree.now) }
    ensures well_formed { IfOk result (λ query.
        All (λ b. 1 ≤ length b.from_items) (blocks_of tree.now) → QueryIsWellFormed query) }
    ensures over { IfOk result (QueryIsOver catalogue.now) }
    ensures count { IfOk result (λ query. length (blocks_in query) ≡ length (blocks_of tree.now)) }
{
    recall_soundness(catalogue);
    if let Some(query) = bound_at_once(alloc, catalogue, limits, tree)? {
        return Ok(query);
    }
    bound_by_kinds(alloc, catalogue, limits, tree)
}
