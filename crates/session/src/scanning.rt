// SCAN OK: queries whose tables may be scanned.
ghost use Rattle.std.specs.Prelude.{◌≡◌, ◌≤◌, ◌<◌, ◌+◌, ◌^◌, length, true, IfOk, OnOk};
ghost use Rattle.beas_core.specs.declared.schema.TableId.{TableId};
ghost use Rattle.beas_core.specs.Full.{full_of};
ghost use Rattle.beas_core.specs.Results.{Gives};
ghost use Rattle.beas_core.specs.Shapes.{QueryIsWellFormed};
ghost use Rattle.beas_core.specs.Trees.{blocks_of};
ghost use Rattle.beas_core.specs.Types.{TableRows};
ghost use Rattle.catalogue.specs.Database.{rows_at, schema_of};
ghost use Rattle.catalogue.specs.Queries.{QueryIsOver, RowsAreWide};
ghost use Rattle.partial_plan.specs.ScanPlans.{ScanPlanFits};
ghost use Rattle.partial_plan.specs.Scans.{rows_of_tables, sizes_of_tables};
ghost use Rattle.session.specs.Announced.{binding, scan_announcement};
ghost use Rattle.session.specs.Applying.{settings_in};
ghost use Rattle.session.specs.Carrying.{CarriesOut};
ghost use Rattle.session.specs.Effects.{scan_answer_effect, scan_effect, scan_reads_in, scans_shown, sizes_in};
ghost use Rattle.session.specs.Statements.{TreeIsWellFormed};
ghost use Rattle.session.specs.Stores.{database_in};
ghost use Rattle.session.specs.Turns.{IsWithin};

use crate::settings::{Settings, refuse_above};
use crate::stored::Store;
use beas_core::{Answer, Fail, Limits, List, Name, NoMemory, Query, Steps, Text};
use binder::bind;
use catalogue::Catalogue;
use partial_plan::{ScanPlan, scan_execute, scan_prepare};
use report::{Report, plan_text_over};
use row_store::Rows;
use sql_text::SelectTree;
use std::alloc::Global;
use std::sync::ledger::Ledger;

/// Recalls that limits allow at most 64 blocks of a query. It changes nothing.
fn recall_few_blocks(limits: &Limits)
    ensures { limits.now.blocks ≤ 64 }
{
    let _blocks = limits.blocks;
}

/// The query of a tree, which has few blocks.
fn bound_query(
    alloc: Global,
    catalogue: &Catalogue,
    limits: &Limits,
    tree: &SelectTree,
) -> Result<Query, Fail>
    requires { TreeIsWellFormed tree.now }
    ensures bound { Gives result (binding limits.now catalogue.now tree.now) }
    ensures form { IfOk result QueryIsWellFormed }
    ensures over { IfOk result (QueryIsOver catalogue.now) }
    ensures few { IfOk result (λ query. length (blocks_of query) < 2 ^ 27) }
{
    // A plan that scans is made of few blocks.
    recall_few_blocks(limits);
    bind(alloc, catalogue, limits, tree)
}

/// What is announced of a query whose tables may be scanned. Of their rows it uses the numbers alone.
pub fn scan_announcement(
    alloc: Global,
    catalogue: &Catalogue,
    tables: &List<Rows>,
    settings: &Settings,
    tree: &SelectTree,
) -> Result<ScanPlan, Fail>
    requires tree { TreeIsWellFormed tree.now }
    requires tables { length tables.now ≡ length catalogue.now.tables }
    ensures announced { Gives result (scan_announcement settings.now.limits.now settings.now.budget
        catalogue.now (sizes_of_tables tables.now) tree.now) }
    ensures fits { IfOk result (λ plan. (rows : TableRows) → RowsAreWide catalogue.now rows
        → ((id : TableId) → rows id ≡ rows_of_tables tables.now id)
        → ScanPlanFits catalogue.now.accesses rows tables.now plan) }
{
    let query = bound_query(alloc, catalogue, settings.limits, tree)?;
    let plan = scan_prepare(alloc, catalogue, tables, query)?;
    Ok(refuse_above(settings.budget, plan.bound, plan)?)
}

/// What is announced over the store, whose rows it fits.
pub fn announced_over(
    alloc: Global,
    store: &Store,
    settings: &Settings,
    tree: &SelectTree,
) -> Result<ScanPlan, Fail>
    requires { TreeIsWellFormed tree.now }
    ensures announced { Gives result (scan_announcement settings.now.limits.now settings.now.budget
        (schema_of (database_in store.now)) (sizes_in (database_in store.now)) tree.now) }
    ensures fits { IfOk result (ScanPlanFits
        store.now.catalogue.accesses (rows_at (database_in store.now)) store.now.rows) }
{
    scan_announcement(alloc, &store.catalogue, &store.rows, settings, tree)
}

fn scan_lines(alloc: Global, store: &Store, plan: &ScanPlan) -> Result<Text, NoMemory>
    requires { ScanPlanFits store.now.catalogue.accesses (rows_at (database_in store.now)) store.now.rows plan.now }
    ensures { IfOk result (λ text. text ≡ scans_shown true (database_in store.now) plan.now) }
{
    plan_text_over(alloc, &plan.prepared, &store.catalogue, &plan.scans)
}

/// The plan lines of a query whose tables are scanned, where they are wanted.
fn scans_shown(
    alloc: Global,
    store: &Store,
    plan: &ScanPlan,
    explain: bool,
) -> Result<Text, NoMemory>
    requires { ScanPlanFits store.now.catalogue.accesses (rows_at (database_in store.now)) store.now.rows plan.now }
    ensures { IfOk result (λ text. text ≡ scans_shown explain (database_in store.now) plan.now) }
{
    if explain {
        scan_lines(alloc, store, plan)
    } else {
        Ok(Text::new(alloc))
    }
}

/// The answer of a query whose tables are scanned.
fn scanned_answer<L: Ledger>(
    alloc: Global,
    store: &Store,
    plan: &ScanPlan,
    steps: &mut Steps<L>,
) -> Result<Answer, NoMemory>
    requires { ScanPlanFits store.now.catalogue.accesses (rows_at (database_in store.now)) store.now.rows plan.now }
    ensures rows { IfOk result (λ answer. answer.rows
        ≡ full_of (rows_at (database_in store.now)) plan.now.prepared.query) }
    ensures reads { IfOk result (λ answer. answer.reads ≡ scan_reads_in (database_in store.now) plan.now) }
    ensures within { IfOk result (λ answer. answer.reads ≤ plan.now.bound) }
    ensures cost { OnOk result (steps.new ≡ steps.old + scan_reads_in (database_in store.now) plan.now) }
    ensures at_most { steps.new ≤ steps.old + scan_reads_in (database_in store.now) plan.now }
    ensures no_fewer { steps.old ≤ steps.new }
{
    scan_execute(alloc, store, &store.rows, plan, steps)
}

/// The plan lines of a query whose tables are scanned, and its answer.
#[derive(Drop)]
struct Scanned {
    lines: Text,
    answer: Answer,
}

/// What the report of a query says whose tables are scanned.
fn scanned_with_lines<L: Ledger>(
    alloc: Global,
    store: &Store,
    explain: bool,
    plan: &ScanPlan,
    steps: &mut Steps<L>,
) -> Result<Scanned, NoMemory>
    requires { ScanPlanFits store.now.catalogue.accesses (rows_at (database_in store.now)) store.now.rows plan.now }
    ensures lines { IfOk result (λ scanned. scanned.lines ≡ scans_shown explain (database_in store.now) plan.now) }
    ensures rows { IfOk result (λ scanned. scanned.answer.rows
        ≡ full_of (rows_at (database_in store.now)) plan.now.prepared.query) }
    ensures reads { IfOk result (λ scanned. scanned.answer.reads ≡ scan_reads_in (database_in store.now) plan.now) }
    ensures within { IfOk result (λ scanned. scanned.answer.reads ≤ plan.now.bound) }
    ensures cost { OnOk result (steps.new ≡ steps.old + scan_reads_in (database_in store.now) plan.now) }
    ensures at_most { steps.new ≤ steps.old + scan_reads_in (database_in store.now) plan.now }
    ensures no_fewer { steps.old ≤ steps.new }
{
    let lines = scans_shown(alloc, store, plan, explain)?;
    let answer = scanned_answer(alloc, store, plan, steps)?;
    Ok(Scanned { lines, answer })
}

/// The header of a query that is run. All else of its plan is let go.
fn header_of(plan: ScanPlan) -> List<Name>
    ensures { result ≡ plan.prepared.header }
{
    drop(plan.scans);
    let prepared = plan.prepared;
    drop(prepared.query);
    drop(prepared.normals);
    drop(prepared.derivations);
    drop(prepared.guided);
    prepared.header
}

/// The report of a query that is announced with scans.
fn scanned_report<L: Ledger>(
    alloc: Global,
    store: &Store,
    explain: bool,
    plan: ScanPlan,
    steps: &mut Steps<L>,
) -> Result<Report, Fail>
    requires { ScanPlanFits store.now.catalogue.accesses (rows_at (database_in store.now)) store.now.rows plan }
    ensures carried { CarriesOut (scan_answer_effect explain (database_in store.now) plan)
        (database_in store.now) result (database_in store.now) steps.old steps.new }
    ensures within { IfOk result IsWithin }
{
    let Ok(scanned) = scanned_with_lines(alloc, store, explain, &plan, steps) else {
        drop(plan);
        return Err(Fail::NoMemory);
    };
    let answer = scanned.answer;
    Ok(Report::Answered {
        bound: plan.bound,
        plan: scanned.lines,
        header: header_of(plan),
        rows: answer.rows,
        reads: answer.reads,
    })
}

/// SCAN OK: a query, which needn't be covered; where it lacks a constraint, a table is read whole.
pub fn scan_ok<L: Ledger>(
    alloc: Global,
    store: &Store,
    settings: &Settings,
    tree: &SelectTree,
    steps: &mut Steps<L>,
) -> Result<Report, Fail>
    requires { TreeIsWellFormed tree.now }
    ensures carried { CarriesOut (scan_effect (settings_in settings.now) (database_in store.now) tree.now)
        (database_in store.now) result (database_in store.now) steps.old steps.new }
    ensures within { IfOk result IsWithin }
{
    let plan = announced_over(alloc, store, settings, tree)?;
    scanned_report(alloc, store, settings.explain, plan, steps)
}
