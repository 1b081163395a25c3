// The plan of a query as data.
ghost use Rattle.std.specs.Prelude.{◌≡◌, ◌-◌, ◌<◌, ◌^◌, IfOk, IsErrOf, None, Ok, Some, length};
ghost use Rattle.beas_core.specs.Fits.{PlanFits};
ghost use Rattle.catalogue.specs.Database.{schema_of};
ghost use Rattle.piece_reader.specs.Sayings.{IsReadAs, reading_of};
ghost use Rattle.session.specs.Statements.{StatementIsWellFormed, TreeIsWellFormed};
ghost use Rattle.beas_run.specs.Plans.{plan_of_reading, query_plan, statement_plan, text_of};
ghost use Rattle.beas_run.specs.Prices.{price_of, statement_price};

use crate::pricing::Unpriced;
use beas_core::{Fail, NoMemory, Prepared, Refusal, Text};
use desk_model::law_said_well;
use piece_reader::{Event, read_piece};
use plan_data::plan_json;
use sql_text::{SelectTree, Statement};
use sql_tokens::Token;
use std::alloc::Global;
use version_store::Desk;

/// The plan of the query that a piece says, as a JSON text, whatever the budget is; its refusal; or why the piece says nothing.
/// Nothing is read, and whether a session's query is open doesn't matter.
pub fn planned(
    alloc: Global,
    desk: &Desk,
    tokens: &[Token],
) -> Result<Result<Text, Refusal>, Unpriced>
    requires { length tokens.now < 2 ^ 32 - 1 }
    ensures planned { IfOk result (λ plan. plan_of_reading desk.now (reading_of tokens.now) ≡ Some plan) }
    ensures other { IsErrOf result Unpriced.NotAQuery → price_of desk.now (reading_of tokens.now) ≡ None }
{
    match read_piece(alloc, tokens) {
        Ok(event) => {
            let plan = event_planned(alloc, desk, tokens, &event);
            drop(event);
            plan
        }
        Err(Fail::Refused(why)) => Ok(Err(why)),
        Err(Fail::NoMemory) => Err(Unpriced::NoMemory),
    }
}

/// The same of what a piece says.
fn event_planned(
    alloc: Global,
    desk: &Desk,
    tokens: &[Token],
    event: &Event,
) -> Result<Result<Text, Refusal>, Unpriced>
    requires few { length tokens.now < 2 ^ 32 - 1 }
    requires said { IsReadAs tokens.now (Ok event.now) }
    ensures planned { IfOk result (λ plan. plan_of_reading desk.now (Ok event.now) ≡ Some plan) }
    ensures other { IsErrOf result Unpriced.NotAQuery → price_of desk.now (Ok event.now) ≡ None }
{
    match event {
        Event::Said { statement, .. } => {
            law_said_well(tokens, event, statement);
            statement_planned(alloc, desk, statement)
        }
        Event::Stepped { .. } => Err(Unpriced::NotAQuery),
    }
}

/// The same of a statement.
fn statement_planned(
    alloc: Global,
    desk: &Desk,
    statement: &Statement,
) -> Result<Result<Text, Refusal>, Unpriced>
    requires { StatementIsWellFormed statement.now }
    ensures planned { IfOk result (λ plan. statement_plan desk.now statement.now ≡ Some plan) }
    ensures other { IsErrOf result Unpriced.NotAQuery → statement_price desk.now statement.now ≡ None }
{
    match statement {
        Statement::Select { tree } => match query_planned(alloc, desk, tree) {
            Ok(plan) => Ok(plan),
            Err(NoMemory) => Err(Unpriced::NoMemory),
        },
        _ => Err(Unpriced::NotAQuery),
    }
}

/// The same of a query.
fn query_planned(
    alloc: Global,
    desk: &Desk,
    tree: &SelectTree,
) -> Result<Result<Text, Refusal>, NoMemory>
    requires { TreeIsWellFormed tree.now }
    ensures { IfOk result (λ plan. plan ≡ query_plan desk.now tree.now) }
{
    match desk.plan(alloc, tree) {
        Ok(prepared) => {
            let text = plan_text(alloc, desk, &prepared);
            drop(prepared);
            Ok(Ok(text?))
        }
        Err(Fail::Refused(why)) => Ok(Err(why)),
        Err(Fail::NoMemory) => Err(NoMemory),
    }
}

/// The text of a query that is prepared.
fn plan_text(alloc: Global, desk: &Desk, prepared: &Prepared) -> Result<Text, NoMemory>
    requires { PlanFits desk.now.state.db.accesses prepared.now }
    ensures { IfOk result (λ text. text ≡ text_of (schema_of desk.now.state.db) prepared.now) }
{
    let header = prepared.header.as_slice();
    plan_json(alloc, prepared, header, desk.catalogue())
}
