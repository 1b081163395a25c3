// What a query would cost.
ghost use Rattle.std.specs.Prelude.{◌≡◌, ◌-◌, ◌<◌, ◌^◌, IfOk, IsErrOf, None, Ok, Some, length};
ghost use Rattle.piece_reader.specs.Sayings.{IsReadAs, reading_of};
ghost use Rattle.session.specs.Statements.{StatementIsWellFormed};
ghost use Rattle.beas_run.specs.Prices.{price_of, statement_price};

use beas_core::{Fail, NoMemory};
use desk_model::law_said_well;
use piece_reader::{Event, read_piece};
use report::Report;
use sql_text::Statement;
use sql_tokens::Token;
use std::alloc::Global;
use version_store::Desk;

/// Why a piece has no price.
#[derive(Clone, Copy, Debug, PartialEq, Eq)]
pub enum Unpriced {
    /// It says something else than a query.
    NotAQuery,
    /// Memory ran out.
    NoMemory,
}

/// What EXPLAIN would report of the query that a piece says, if there were no budget, or why the piece says nothing. Nothing is
/// read, and whether a session's query is open doesn't matter.
pub fn priced(alloc: Global, desk: &Desk, tokens: &[Token]) -> Result<Report, Unpriced>
    requires { length tokens.now < 2 ^ 32 - 1 }
    ensures priced { IfOk result (λ report. price_of desk.now (reading_of tokens.now) ≡ Some report) }
    ensures other { IsErrOf result Unpriced.NotAQuery → price_of desk.now (reading_of tokens.now) ≡ None }
{
    match read_piece(alloc, tokens) {
        Ok(event) => {
            let price = event_priced(alloc, desk, tokens, &event);
            drop(event);
            price
        }
        Err(Fail::Refused(why)) => Ok(Report::Refused { why }),
        Err(Fail::NoMemory) => Err(Unpriced::NoMemory),
    }
}

/// What is reported of a query that is priced.
fn event_priced(
    alloc: Global,
    desk: &Desk,
    tokens: &[Token],
    event: &Event,
) -> Result<Report, Unpriced>
    requires few { length tokens.now < 2 ^ 32 - 1 }
    requires said { IsReadAs tokens.now (Ok event.now) }
    ensures priced { IfOk result (λ report. price_of desk.now (Ok event.now) ≡ Some report) }
    ensures other { IsErrOf result Unpriced.NotAQuery → price_of desk.now (Ok event.now) ≡ None }
{
    match event {
        Event::Said { statement, .. } => {
            law_said_well(tokens, event, statement);
            statement_priced(alloc, desk, statement)
        }
        Event::Stepped { .. } => Err(Unpriced::NotAQuery),
    }
}

/// The same of a statement.
fn statement_priced(alloc: Global, desk: &Desk, statement: &Statement) -> Result<Report, Unpriced>
    requires { StatementIsWellFormed statement.now }
    ensures priced { IfOk result (λ report. statement_price desk.now statement.now ≡ Some report) }
    ensures other { IsErrOf result Unpriced.NotAQuery → statement_price desk.now statement.now ≡ None }
{
    match statement {
        Statement::Select { tree } => match desk.announce(alloc, tree) {
            Ok(report) => Ok(report),
            Err(NoMemory) => Err(Unpriced::NoMemory),
        },
        _ => Err(Unpriced::NotAQuery),
    }
}
