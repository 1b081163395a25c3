// Laws on queries.
ghost use Rattle.std.specs.Prelude.{◌≡◌, List};
ghost use Rattle.beas_core.specs.declared.plan.Prepared.{Prepared};
ghost use Rattle.beas_core.specs.declared.schema.Access.{Access};
ghost use Rattle.beas_core.specs.Fits.{KeepsConstraints, KeepsRows, PlanFits};
ghost use Rattle.beas_core.specs.Full.{full_of};
ghost use Rattle.beas_core.specs.Trees.{QueryTree};
ghost use Rattle.beas_core.specs.Types.{TableRows};
ghost use Rattle.desk_model.specs.Frames.{QueryStays, SameForQuery};
ghost use Rattle.desk_model.specs.Keeping.{kept_accesses, kept_tables, rows_in};

/// Where each table that a query names stays as it was, so do the constraints of its derivations and the rows of its
/// tables. So it goes on fitting, with the same probes, reads and full answer.
pub fn law_same_query()
    ensures { (before after : List Access) (old new : TableRows) (prepared : Prepared) → PlanFits before prepared
        → SameForQuery before after old new prepared.query → QueryStays before after old new prepared }
{}

/// The full answer depends on the rows of the tables that a query names alone.
pub fn law_same_answer()
    ensures { (old new : TableRows) (query : QueryTree) → KeepsRows old new query → full_of new query ≡ full_of old query }
{}

/// What is kept for a query is what it sees. So a query that fits does so over what is kept alone, with the same probes,
/// reads and full answer.
pub fn law_kept_query()
    ensures kept { (accesses : List Access) (rows : TableRows) (prepared : Prepared)
        → KeepsConstraints accesses (kept_accesses accesses prepared.derivations) prepared.derivations
        × KeepsRows rows (rows_in (kept_tables rows prepared.query)) prepared.query }
    ensures same { (accesses : List Access) (rows : TableRows) (prepared : Prepared) → PlanFits accesses prepared
        → QueryStays accesses (kept_accesses accesses prepared.derivations) rows
        (rows_in (kept_tables rows prepared.query)) prepared }
{}
