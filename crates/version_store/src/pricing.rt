// What is announced of a query, whatever the budget.
ghost use Rattle.std.specs.Prelude.{◌≡◌, IfOk, None};
ghost use Rattle.beas_core.specs.Fits.{PlanFits};
ghost use Rattle.beas_core.specs.Results.{Gives};
ghost use Rattle.catalogue.specs.Database.{schema_of};
ghost use Rattle.report.specs.declared.reports.Report.TheVariants.{Explained};
ghost use Rattle.report.specs.Plans.{plan_text};
ghost use Rattle.session.specs.Announced.{announcement};
ghost use Rattle.session.specs.Applying.{database_of};
ghost use Rattle.session.specs.Effects.{explain_effect};
ghost use Rattle.session.specs.Statements.{TreeIsWellFormed};

use beas_core::{Fail, NoMemory, Prepared};
use binder::bind;
use plan_builder::prepare;
use report::{Report, plan_text};
use session::Session;
use sql_text::SelectTree;
use std::alloc::Global;

/// A query as it is prepared where there is no budget.
pub fn prepared(alloc: Global, session: &Session, tree: &SelectTree) -> Result<Prepared, Fail>
    requires { TreeIsWellFormed tree.now }
    ensures announced { Gives result
        (announcement session.now.limits None (schema_of (database_of session.now)) tree.now) }
    ensures plan { IfOk result (PlanFits (database_of session.now).accesses) }
{
    let catalogue = &session.guarded.catalogue;
    let query = bind(alloc, catalogue, &session.limits, tree)?;
    prepare(alloc, catalogue, query)
}

// The number that is announced, and the plan lines.
fn explained(alloc: Global, session: &Session, prepared: &Prepared) -> Result<Report, NoMemory>
    requires { PlanFits (database_of session.now).accesses prepared.now }
    ensures { IfOk result (λ report. report ≡ Explained prepared.now.bound (plan_text (schema_of (database_of session.now)) prepared.now)) }
{
    let plan = plan_text(alloc, prepared, &session.guarded.catalogue)?;
    Ok(Report::Explained {
        bound: prepared.bound,
        plan,
    })
}

/// What EXPLAIN reports of a query where there is no budget.
pub fn price(alloc: Global, session: &Session, tree: &SelectTree) -> Result<Report, NoMemory>
    requires { TreeIsWellFormed tree.now }
    ensures { IfOk result (λ report. report
        ≡ (explain_effect session.now.limits None (database_of session.now) tree.now).report) }
{
    match prepared(alloc, session, tree) {
        Ok(prepared) => explained(alloc, session, &prepared),
        Err(Fail::Refused(why)) => Ok(Report::Refused { why }),
        Err(Fail::NoMemory) => Err(NoMemory),
    }
}
