// Queries: what is announced of them, and what they answer.
ghost use Rattle.std.specs.Prelude.{◌≡◌, ◌≤◌, ◌+◌, IfOk, OnOk};
ghost use Rattle.beas_core.specs.Fits.{Fits, PlanFits};
ghost use Rattle.beas_core.specs.Full.{full_of};
ghost use Rattle.beas_core.specs.Types.{TableRows};
ghost use Rattle.beas_core.specs.Results.{Gives};
ghost use Rattle.catalogue.specs.Database.{rows_at, schema_of};
ghost use Rattle.catalogue.specs.Queries.{QueryIsOver, RowsAreWide};
ghost use Rattle.report.specs.declared.reports.Report.TheVariants.{Answered};
ghost use Rattle.report.specs.Plans.{plan_text};
ghost use Rattle.session.specs.Stores.{database_in};
ghost use Rattle.session.specs.Announced.{announcement};
ghost use Rattle.session.specs.Applying.{settings_in};
ghost use Rattle.session.specs.Carrying.{CarriesOut};
ghost use Rattle.session.specs.Effects.{answer_effect, explain_effect, plan_shown, reads_in, select_effect};
ghost use Rattle.session.specs.Statements.{TreeIsWellFormed};
ghost use Rattle.session.specs.Turns.{IsWithin};

use crate::settings::{Settings, refuse_above};
use crate::stored::Store;
use beas_core::{Answer, Duplicate, Fail, List, Name, NoMemory, Prepared, Steps, Text};
use binder::bind;
use catalogue::Catalogue;
use cursor_executor::{Cursor, Turn};
use plan_builder::prepare;
use plan_executor::execute;
use report::{Report, plan_text};
use sql_text::SelectTree;
use std::alloc::Global;
use std::sync::ledger::Ledger;

/// What is announced of a query. It is handed no rows.
pub fn announcement(
    alloc: Global,
    catalogue: &Catalogue,
    settings: &Settings,
    tree: &SelectTree,
) -> Result<Prepared, Fail>
    requires { TreeIsWellFormed tree.now }
    ensures announced { Gives result
        (announcement settings.now.limits.now settings.now.budget catalogue.now tree.now) }
    ensures plan { IfOk result (PlanFits catalogue.now.accesses) }
    ensures fits { IfOk result (λ prepared. (rows : TableRows) → RowsAreWide catalogue.now rows
        → Fits catalogue.now.accesses rows prepared) }
    ensures over { IfOk result (λ prepared. QueryIsOver catalogue.now prepared.query) }
{
    let query = bind(alloc, catalogue, settings.limits, tree)?;
    let prepared = prepare(alloc, catalogue, query)?;
    Ok(refuse_above(settings.budget, prepared.bound, prepared)?)
}

/// What is announced of a query over the store, whose rows it fits.
pub fn prepared_over(
    alloc: Global,
    store: &Store,
    settings: &Settings,
    tree: &SelectTree,
) -> Result<Prepared, Fail>
    requires { TreeIsWellFormed tree.now }
    ensures announced { Gives result
        (announcement settings.now.limits.now settings.now.budget (schema_of (database_in store.now)) tree.now) }
    ensures plan { IfOk result (PlanFits store.now.catalogue.accesses) }
    ensures fits { IfOk result (Fits store.now.catalogue.accesses (rows_at (database_in store.now))) }
    ensures over { IfOk result (λ prepared. QueryIsOver store.now.catalogue prepared.query) }
{
    announcement(alloc, &store.catalogue, settings, tree)
}

fn plan_lines(alloc: Global, store: &Store, prepared: &Prepared) -> Result<Text, NoMemory>
    requires { PlanFits store.now.catalogue.accesses prepared.now }
    ensures { IfOk result (λ text. text ≡ plan_text (schema_of (database_in store.now)) prepared.now) }
{
    plan_text(alloc, prepared, &store.catalogue)
}

/// The plan lines of a query where they are wanted.
pub fn plan_shown(
    alloc: Global,
    store: &Store,
    prepared: &Prepared,
    explain: bool,
) -> Result<Text, NoMemory>
    requires { PlanFits store.now.catalogue.accesses prepared.now }
    ensures { IfOk result (λ text. text ≡ plan_shown explain (database_in store.now) prepared.now) }
{
    if explain {
        plan_lines(alloc, store, prepared)
    } else {
        Ok(Text::new(alloc))
    }
}

/// The answer of a query, by the operations of its derivations.
pub fn answer<L: Ledger>(
    alloc: Global,
    store: &Store,
    prepared: &Prepared,
    steps: &mut Steps<L>,
) -> Result<Answer, NoMemory>
    requires { Fits store.now.catalogue.accesses (rows_at (database_in store.now)) prepared.now }
    ensures rows { IfOk result (λ answer. answer.rows
        ≡ full_of (rows_at (database_in store.now)) prepared.now.query) }
    ensures reads { IfOk result (λ answer. answer.reads ≡ reads_in (database_in store.now) prepared.now) }
    ensures within { IfOk result (λ answer. answer.reads ≤ prepared.now.bound) }
    ensures cost { OnOk result (steps.new ≡ steps.old + reads_in (database_in store.now) prepared.now) }
    ensures at_most { steps.new ≤ steps.old + reads_in (database_in store.now) prepared.now }
    ensures no_fewer { steps.old ≤ steps.new }
{
    execute(alloc, store, prepared, steps)
}

/// The answer of a query, by a cursor that goes on, probe by probe, until none is due.
fn answer_by_cursor<L: Ledger>(
    alloc: Global,
    store: &Store,
    prepared: Prepared,
    steps: &mut Steps<L>,
) -> Result<Answer, NoMemory>
    requires { Fits store.now.catalogue.accesses (rows_at (database_in store.now)) prepared }
    ensures rows { IfOk result (λ answer. answer.rows ≡ full_of (rows_at (database_in store.now)) prepared.query) }
    ensures reads { IfOk result (λ answer. answer.reads ≡ reads_in (database_in store.now) prepared) }
    ensures within { IfOk result (λ answer. answer.reads ≤ prepared.bound) }
    ensures cost { OnOk result (steps.new ≡ steps.old + reads_in (database_in store.now) prepared) }
    ensures at_most { steps.new ≤ steps.old + reads_in (database_in store.now) prepared }
    ensures no_fewer { steps.old ≤ steps.new }
{
    let mut cursor = Cursor::begin(alloc, prepared)?;
    'probes: loop {
        match cursor.advance(alloc, store, steps) {
            Ok(Turn::Probed) => {}
            Ok(Turn::Done) => return Ok(cursor.finish()),
            Err(NoMemory) => {
                drop(cursor);
                return Err(NoMemory);
            }
        }
    }
}

/// What the report of a query says above its rows.
#[derive(Drop)]
struct Heading {
    plan: Text,
    header: List<Name>,
}

/// The plan lines of a query, where they are wanted, and its header.
fn heading_of(
    alloc: Global,
    store: &Store,
    explain: bool,
    prepared: &Prepared,
) -> Result<Heading, NoMemory>
    requires { PlanFits store.now.catalogue.accesses prepared.now }
    ensures plan { IfOk result (λ heading. heading.plan ≡ plan_shown explain (database_in store.now) prepared.now) }
    ensures header { IfOk result (λ heading. heading.header ≡ prepared.now.header) }
{
    let plan = plan_shown(alloc, store, prepared, explain)?;
    let header = prepared.header.copy(alloc)?;
    Ok(Heading { plan, header })
}

/// The report of an answer.
fn answered(bound: u128, heading: Heading, answer: Answer) -> Report
    ensures { result ≡ Answered bound heading.plan heading.header answer.rows answer.reads }
{
    Report::Answered {
        bound,
        plan: heading.plan,
        header: heading.header,
        rows: answer.rows,
        reads: answer.reads,
    }
}

/// The report of a query that is announced.
fn answer_report<L: Ledger>(
    alloc: Global,
    store: &Store,
    explain: bool,
    prepared: Prepared,
    steps: &mut Steps<L>,
) -> Result<Report, Fail>
    requires plan { PlanFits store.now.catalogue.accesses prepared }
    requires fits { Fits store.now.catalogue.accesses (rows_at (database_in store.now)) prepared }
    ensures carried { CarriesOut (answer_effect explain (database_in store.now) prepared)
        (database_in store.now) result (database_in store.now) steps.old steps.new }
    ensures within { IfOk result IsWithin }
{
    let bound = prepared.bound;
    let Ok(heading) = heading_of(alloc, store, explain, &prepared) else {
        drop(prepared);
        return Err(Fail::NoMemory);
    };
    let answer = answer_by_cursor(alloc, store, prepared, steps)?;
    Ok(answered(bound, heading, answer))
}

/// A query, announced and then answered from the indexes of the constraints.
pub fn select<L: Ledger>(
    alloc: Global,
    store: &Store,
    settings: &Settings,
    tree: &SelectTree,
    steps: &mut Steps<L>,
) -> Result<Report, Fail>
    requires { TreeIsWellFormed tree.now }
    ensures carried { CarriesOut (select_effect (settings_in settings.now) (database_in store.now) tree.now)
        (database_in store.now) result (database_in store.now) steps.old steps.new }
    ensures within { IfOk result IsWithin }
{
    let prepared = prepared_over(alloc, store, settings, tree)?;
    answer_report(alloc, store, settings.explain, prepared, steps)
}

/// EXPLAIN: what is announced of a query, and its plan lines. It reads nothing.
pub fn explain(
    alloc: Global,
    store: &Store,
    settings: &Settings,
    tree: &SelectTree,
) -> Result<Report, Fail>
    requires { TreeIsWellFormed tree.now }
    ensures carried { CarriesOut
        (explain_effect settings.now.limits.now settings.now.budget (database_in store.now) tree.now)
        (database_in store.now) result (database_in store.now) 0 0 }
    ensures within { IfOk result IsWithin }
{
    let prepared = prepared_over(alloc, store, settings, tree)?;
    let bound = prepared.bound;
    let plan = plan_lines(alloc, store, &prepared);
    drop(prepared);
    Ok(Report::Explained { bound, plan: plan? })
}
