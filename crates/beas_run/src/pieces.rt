// One piece of a script, at a desk.
ghost use Rattle.std.specs.Prelude.{◌≡◌, ◌<◌, ◌≤◌, ◌+◌, ◌-◌, ◌^◌, length, sum, IfOk, OnErr, IsSomeAnd, Some, Ok};
ghost use Rattle.outside.specs.Seen.{IsLater};
ghost use Rattle.desk_model.specs.OpenQueries.{reads_of};
ghost use Rattle.desk_model.specs.Desks.{DeskEffect, query_of};
ghost use Rattle.piece_reader.specs.Sayings.{reading_of};
ghost use Rattle.session.specs.Statements.{StatementIsWellFormed};
ghost use Rattle.session.specs.Turns.{IsWithin};
ghost use Rattle.beas_run.specs.Pieces.{GoesOnBy, IsDone, IsLeft, LeavesDesk, Reaches, answered_from, has_probed, is_opened};
ghost use Rattle.beas_run.specs.Shares.{open_reads};
ghost use Rattle.version_store.specs.Desks.{EventIsWellFormed, IsTaken, session_in, share_at, without_query_of};

use beas_core::{Fail, NoMemory, Steps};
use outside::Files;
use piece_reader::{Event, UNNAMED, read_piece};
use report::Report;
use sql_text::Statement;
use sql_tokens::Token;
use std::alloc::Global;
use std::sync::ledger::Ledger;
use version_store::Desk;

/// Does what a session says.
fn say<F: Files, L: Ledger>(
    alloc: Global,
    desk: &mut Desk,
    session: u32,
    statement: Statement,
    files: &mut F,
    steps: &mut Steps<L>,
) -> Result<Report, NoMemory>
    requires session { session ≤ 64 }
    requires well_formed { StatementIsWellFormed statement }
    ensures { IsTaken (Event.Said session statement) result desk.old desk.new steps.old steps.new
        (F.seen files.old) (F.seen files.new) }
{
    let event = Event::Said { session, statement };
    let report = desk.event(alloc, files, &event, steps);
    drop(event);
    report
}

/// Goes on with a session's query.
fn step<F: Files, L: Ledger>(
    alloc: Global,
    desk: &mut Desk,
    session: u32,
    files: &mut F,
    steps: &mut Steps<L>,
) -> Result<Report, NoMemory>
    requires { session ≤ 64 }
    ensures taken { IsTaken (Event.Stepped session) result desk.old desk.new steps.old steps.new
        (F.seen files.old) (F.seen files.new) }
    ensures unread { files.new ≡ files.old }
{
    let event = Event::Stepped { session };
    let report = desk.event(alloc, files, &event, steps);
    drop(event);
    report
}

/// Whether an event has opened a query, by its report.
fn is_opened(report: &Report) -> bool
    ensures { result ≡ is_opened report.now }
{
    matches!(report, Report::Opened { .. })
}

/// Whether an event has made a probe, by its report.
fn has_probed(report: &Result<Report, NoMemory>) -> bool
    ensures { result ≡ has_probed report.now }
{
    matches!(report, Ok(Report::Probed { .. }))
}

/// Goes on with the query that the pieces without a session have opened, event by event, until it is answered. There is one
/// event for each probe that is due, and one more, which answers.
fn answer<F: Files, L: Ledger>(
    alloc: Global,
    desk: &mut Desk,
    files: &mut F,
    steps: &mut Steps<L>,
) -> Result<Report, NoMemory>
    requires { IsSomeAnd (query_of 0 desk.old.state) (λ query. query.made ≡ Some 0) }
    ensures answered { IfOk result (λ report. (first : DeskEffect) → first.state ≡ desk.old.state → first.cost ≡ 0
        → Reaches (answered_from first) report desk.old desk.new steps.old steps.new) }
    ensures within { IfOk result IsWithin }
    ensures closed { IfOk result (λ _. desk.new ≡ without_query_of 0 desk.old) }
    ensures db { OnErr result (desk.new.state.db ≡ desk.old.state.db) }
    ensures others { OnErr result (without_query_of 0 desk.new ≡ without_query_of 0 desk.old) }
    ensures at_most { OnErr result (steps.new + sum desk.old.shares ≤ steps.old + open_reads desk.old.state) }
    ensures own_reads { OnErr result (IsSomeAnd (query_of 0 desk.old.state)
        (λ query. steps.new + share_at 0 desk.old ≤ steps.old + reads_of query)) }
    ensures no_fewer { steps.old ≤ steps.new }
    ensures settings { desk.new.settings ≡ desk.old.settings }
    ensures unread { files.new ≡ files.old }
{
    let turn = Event::Stepped { session: UNNAMED };
    'probes: loop {
        let report = desk.event(alloc, files, &turn, steps);
        if !has_probed(&report) {
            drop(turn);
            return report;
        }
        drop(report);
    }
}

/// Carries out a statement that names no session. A query that it opens is answered before anything else is done.
fn carry_out_statement<F: Files, L: Ledger>(
    alloc: Global,
    desk: &mut Desk,
    statement: Statement,
    files: &mut F,
    steps: &mut Steps<L>,
) -> Result<Report, NoMemory>
    requires { StatementIsWellFormed statement }
    ensures done { IfOk result (λ report. IsDone desk.old.settings (Ok (Event.Said 0 statement)) report
        desk.old desk.new steps.old steps.new (F.seen files.old) (F.seen files.new)) }
    ensures left { OnErr result (IsLeft desk.old.settings (Ok (Event.Said 0 statement))
        desk.old desk.new steps.old steps.new (F.seen files.old) (F.seen files.new)) }
    ensures goes_on { IfOk result (λ report. GoesOnBy (Ok (Event.Said 0 statement)) report
        desk.old desk.new steps.old steps.new) }
    ensures desk { OnErr result (LeavesDesk (Ok (Event.Said 0 statement)) desk.old desk.new steps.old steps.new) }
    ensures settings { desk.new.settings ≡ desk.old.settings }
    ensures later { IsLater (F.seen files.old) (F.seen files.new) }
{
    let report = say(alloc, desk, UNNAMED, statement, files, steps)?;
    if is_opened(&report) {
        drop(report);
        answer(alloc, desk, files, steps)
    } else {
        Ok(report)
    }
}

/// Does what a piece says. The report is that of its last event.
fn carry_out_event<F: Files, L: Ledger>(
    alloc: Global,
    desk: &mut Desk,
    event: Event,
    files: &mut F,
    steps: &mut Steps<L>,
) -> Result<Report, NoMemory>
    requires session { session_in event ≤ 64 }
    requires well_formed { EventIsWellFormed event }
    ensures done { IfOk result (λ report. IsDone desk.old.settings (Ok event) report
        desk.old desk.new steps.old steps.new (F.seen files.old) (F.seen files.new)) }
    ensures left { OnErr result (IsLeft desk.old.settings (Ok event)
        desk.old desk.new steps.old steps.new (F.seen files.old) (F.seen files.new)) }
    ensures goes_on { IfOk result (λ report. GoesOnBy (Ok event) report
        desk.old desk.new steps.old steps.new) }
    ensures desk { OnErr result (LeavesDesk (Ok event) desk.old desk.new steps.old steps.new) }
    ensures settings { desk.new.settings ≡ desk.old.settings }
    ensures later { IsLater (F.seen files.old) (F.seen files.new) }
{
    match event {
        Event::Said { session, statement } => {
            if session == UNNAMED {
                carry_out_statement(alloc, desk, statement, files, steps)
            } else {
                say(alloc, desk, session, statement, files, steps)
            }
        }
        Event::Stepped { session } => step(alloc, desk, session, files, steps),
    }
}

/// Reads a piece and does what it says, and gives what is reported of it.
pub fn report_on<F: Files, L: Ledger>(
    alloc: Global,
    desk: &mut Desk,
    tokens: &[Token],
    files: &mut F,
    steps: &mut Steps<L>,
) -> Result<Report, NoMemory>
    requires { length tokens.now < 2 ^ 32 - 1 }
    ensures done { IfOk result (λ report. IsDone desk.old.settings (reading_of tokens.now) report
        desk.old desk.new steps.old steps.new (F.seen files.old) (F.seen files.new)) }
    ensures left { OnErr result (IsLeft desk.old.settings (reading_of tokens.now)
        desk.old desk.new steps.old steps.new (F.seen files.old) (F.seen files.new)) }
    ensures goes_on { IfOk result (λ report. GoesOnBy (reading_of tokens.now) report
        desk.old desk.new steps.old steps.new) }
    ensures desk { OnErr result (LeavesDesk (reading_of tokens.now) desk.old desk.new
        steps.old steps.new) }
    ensures settings { desk.new.settings ≡ desk.old.settings }
    ensures later { IsLater (F.seen files.old) (F.seen files.new) }
{
    match read_piece(alloc, tokens) {
        Ok(event) => carry_out_event(alloc, desk, event, files, steps),
        Err(Fail::Refused(why)) => Ok(Report::Refused { why }),
        Err(Fail::NoMemory) => Err(NoMemory),
    }
}
