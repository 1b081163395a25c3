// A query is opened.
ghost use Rattle.std.specs.Prelude.{◌≡◌, ◌≤◌, ℕ, Err, IfOk, None, OnErr, OnOk};
ghost use Rattle.beas_core.specs.Fits.{Fits};
ghost use Rattle.catalogue.specs.Database.{rows_at, schema_of};
ghost use Rattle.desk_model.specs.Desks.{opened_effect, query_of};
ghost use Rattle.report.specs.declared.reports.Report.TheVariants.{Opened};
ghost use Rattle.piece_reader.specs.declared.event.Event.TheVariants.{Said};
ghost use Rattle.session.specs.Announced.{announcement};
ghost use Rattle.session.specs.Applying.{database_of};
ghost use Rattle.session.specs.Carrying.{reported};
ghost use Rattle.session.specs.Effects.{plan_shown, reads_in};
ghost use Rattle.session.specs.Statements.{TreeIsWellFormed};
ghost use Rattle.session.specs.Turns.{IsWithin};
ghost use Rattle.sql_text.specs.declared.tree.Statement.TheVariants.{Select};
ghost use Rattle.version_store.specs.Desks.{GoesOn};
ghost use Rattle.version_store.specs.Events.{Happens};
ghost use Rattle.version_store.specs.Stored.{AreKept, IsNew, Opens, seen_in, state_in};

use crate::open::OpenQuery;
use crate::store::KeptTable;
use beas_core::{Duplicate, Fail, List, Name, NoMemory, Prepared, Text};
use cursor_executor::Cursor;
use plan_ops::ask_for_all;
use report::Report;
use session::{Session, plan_shown};
use sql_text::SelectTree;
use std::alloc::Global;

// The plan lines and the header of a query that is announced.
fn shown(
    alloc: Global,
    session: &Session,
    prepared: &Prepared,
) -> Result<(Text, List<Name>), NoMemory>
    requires { Fits (database_of session.now).accesses (rows_at (database_of session.now)) prepared.now }
    ensures { IfOk result (λ shown. (shown.0 ≡ plan_shown session.now.explain (database_of session.now) prepared.now)
        × (shown.1 ≡ prepared.now.header)) }
{
    let plan = plan_shown(alloc, &session.guarded, prepared, session.explain)?;
    let header = prepared.header.copy(alloc)?;
    Ok((plan, header))
}

// A query that is announced, before its first turn.
fn begin(
    alloc: Global,
    session: &Session,
    number: u32,
    prepared: Prepared,
) -> Result<OpenQuery<KeptTable>, NoMemory>
    requires { Fits (database_of session.now).accesses (rows_at (database_of session.now)) prepared }
    ensures { IfOk result (IsNew session.now number prepared) }
{
    match shown(alloc, session, &prepared) {
        Ok((plan, header)) => match Cursor::begin(alloc, prepared) {
            Ok(cursor) => Ok(OpenQuery {
                session: number,
                cursor,
                header,
                plan,
                parts: Vec::new(alloc),
            }),
            Err(why) => {
                drop(header);
                drop(plan);
                Err(why)
            }
        },
        Err(why) => {
            drop(prepared);
            Err(why)
        }
    }
}

// Asks for the constraints of a query's derivations, and so learns that they hold, which bounds its reads.
fn ask(session: &Session, prepared: &Prepared)
    requires { Fits (database_of session.now).accesses (rows_at (database_of session.now)) prepared.now }
    ensures { reads_in (database_of session.now) prepared.now ≤ prepared.now.bound }
{
    ask_for_all(&session.guarded, prepared.derivations.as_slice());
}

// Opens a query that is announced.
fn put(
    alloc: Global,
    session: &Session,
    queries: &mut Vec<OpenQuery<KeptTable>>,
    number: u32,
    prepared: Prepared,
) -> Result<Report, NoMemory>
    requires fits { Fits (database_of session.now).accesses (rows_at (database_of session.now)) prepared }
    requires kept { AreKept (database_of session.now) queries.old.items }
    requires idle { query_of number (state_in session.now queries.old.items) ≡ None }
    ensures kept { AreKept (database_of session.now) queries.new.items }
    ensures did { IfOk result (λ report. report ≡ Opened number prepared.bound) }
    ensures opens { OnOk result (Opens session.now number prepared queries.old.items queries.new.items) }
    ensures err { OnErr result (queries.new.items ≡ queries.old.items) }
{
    ask(session, &prepared);
    let bound = prepared.bound;
    let query = begin(alloc, session, number, prepared)?;
    queries.push(query)?;
    Ok(Report::Opened {
        session: number,
        bound,
    })
}

// Reports a refusal.
fn report_refusal(fail: Fail) -> Result<Report, NoMemory>
    ensures { result ≡ reported (Err fail) }
{
    match fail {
        Fail::Refused(why) => Ok(Report::Refused { why }),
        Fail::NoMemory => Err(NoMemory),
    }
}

/// Opens a query where it is announced, which reads nothing.
pub fn open(
    alloc: Global,
    session: &Session,
    queries: &mut Vec<OpenQuery<KeptTable>>,
    number: u32,
    tree: &SelectTree,
) -> Result<Report, NoMemory>
    requires tree { TreeIsWellFormed tree.now }
    requires kept { AreKept (database_of session.now) queries.old.items }
    requires idle { query_of number (state_in session.now queries.old.items) ≡ None }
    ensures kept { AreKept (database_of session.now) queries.new.items }
    ensures did { (s : ℕ) → IfOk result (λ report. Happens
        (opened_effect session.now.explain (state_in session.now queries.old.items) number
        (announcement session.now.limits session.now.budget (schema_of (database_of session.now)) tree.now))
        report (seen_in session.now queries.old.items) (seen_in session.now queries.new.items) s s) }
    ensures goes_on { (s : ℕ) → IfOk result (λ report. GoesOn (Said number (Select tree.now)) report
        (seen_in session.now queries.old.items) (seen_in session.now queries.new.items) s s) }
    ensures within { IfOk result IsWithin }
    ensures err { OnErr result (seen_in session.now queries.new.items ≡ seen_in session.now queries.old.items) }
{
    match session.announce(alloc, tree) {
        Ok(prepared) => put(alloc, session, queries, number, prepared),
        Err(fail) => report_refusal(fail),
    }
}
