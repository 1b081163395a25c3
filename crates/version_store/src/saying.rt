// What a session says.
ghost use Rattle.std.specs.Prelude.{◌≡◌, ◌<◌, ℕ, false, true, All, IfSome, None, OnOk, length, map};
ghost use Rattle.beas_core.specs.declared.schema.TableId.{TableId as Number};
ghost use Rattle.catalogue.specs.Database.{schema_of};
ghost use Rattle.desk_model.specs.Changes.{changes};
ghost use Rattle.desk_model.specs.Desks.{action_of_event, query_of};
ghost use Rattle.piece_reader.specs.declared.event.Event.TheVariants.{Said};
ghost use Rattle.version_store.specs.Held.{HasPart, cursor_of};
ghost use Rattle.session.specs.Applying.{database_of, settings_of};
ghost use Rattle.session.specs.Effects.{Does, Effect, action_of};
ghost use Rattle.session.specs.Statements.{StatementIsWellFormed};
ghost use Rattle.version_store.specs.Desks.{IsTaken, waits_for_file};
ghost use Rattle.version_store.specs.Events.{IsNoSelect, changed_table, table_of_named};
ghost use Rattle.version_store.specs.Stored.{AreKept, IsOpenAt, held_at, seen_in, state_in, table_in};

use crate::freezing::freeze_for;
use crate::going::position_of;
use crate::open::OpenQuery;
use crate::opening::open;
use crate::store::{CurrentStore, KeptTable};
use beas_core::{Name, NoMemory, Refusal, Steps, TableId};
use catalogue::{Catalogue, recall_soundness};
use outside::Files;
use report::Report;
use session::Session;
use sql_text::Statement;
use std::alloc::Global;
use std::sync::ledger::Ledger;

// The table of the live constraint with this name.
fn table_of_named(catalogue: &Catalogue, name: &Name) -> Option<TableId>
    ensures table { result ≡ table_of_named catalogue.now.accesses name.now }
    ensures there { IfSome result (λ t. t.0 < length catalogue.now.tables) }
{
    // No two constraints have one id, and each is on a table that is there.
    recall_soundness(catalogue);
    let id = catalogue.access_named(name)?;
    Some(catalogue.access(id).table)
}

// The one table that a statement may change.
fn changed_table(catalogue: &Catalogue, statement: &Statement) -> Option<TableId>
    ensures table { result ≡ changed_table catalogue.now statement.now }
    ensures there { IfSome result (λ t. t.0 < length catalogue.now.tables) }
{
    match statement {
        Statement::Insert { table, .. } => catalogue.table(table),
        Statement::Load { table, .. } => catalogue.table(table),
        Statement::Delete { table, .. } => catalogue.table(table),
        Statement::DropAccess { name } => table_of_named(catalogue, name),
        _ => None,
    }
}

// Keeps a table for each open query that names it. Nothing changes for the queries.
fn keep(
    alloc: Global,
    session: &Session,
    queries: &mut Vec<OpenQuery<KeptTable>>,
    table: TableId,
) -> Result<(), NoMemory>
    requires table { table.0 < length (database_of session.now).tables }
    requires kept { All (IsOpenAt (database_of session.now)) queries.old.items }
    ensures kept { All (IsOpenAt (database_of session.now)) queries.new.items }
    ensures held { map (held_at (database_of session.now)) queries.new.items
        ≡ map (held_at (database_of session.now)) queries.old.items }
    ensures cursors { map cursor_of queries.new.items ≡ map cursor_of queries.old.items }
    ensures frozen { OnOk result (All (HasPart table_in table) queries.new.items) }
{
    // What is kept is kept over a schema that is sound.
    recall_soundness(&session.guarded.catalogue);
    let store = CurrentStore {
        store: &session.guarded,
    };
    freeze_for(alloc, &store, queries, table)
}

// Keeps the table that a statement may change for each open query that names it. Nothing changes for the queries.
fn keep_changed(
    alloc: Global,
    session: &Session,
    queries: &mut Vec<OpenQuery<KeptTable>>,
    statement: &Statement,
) -> Result<(), NoMemory>
    requires kept { All (IsOpenAt (database_of session.now)) queries.old.items }
    ensures kept { All (IsOpenAt (database_of session.now)) queries.new.items }
    ensures held { map (held_at (database_of session.now)) queries.new.items
        ≡ map (held_at (database_of session.now)) queries.old.items }
    ensures cursors { map cursor_of queries.new.items ≡ map cursor_of queries.old.items }
    ensures frozen { OnOk result ((t : Number) → changes (schema_of (database_of session.now)) statement.now t ≡ true
        → All (HasPart table_in t) queries.new.items) }
{
    // No two tables and no two constraints have one name, so a statement changes one table at most.
    recall_soundness(&session.guarded.catalogue);
    match changed_table(&session.guarded.catalogue, statement) {
        Some(table) => keep(alloc, session, queries, table),
        None => Ok(()),
    }
}

// Carries out a statement other than SELECT, said by any session that has no open query. The tables that it may change are
// kept before for the open queries, for which nothing changes.
fn carry_out<F: Files, L: Ledger>(
    alloc: Global,
    session: &mut Session,
    queries: &mut Vec<OpenQuery<KeptTable>>,
    files: &mut F,
    statement: &Statement,
    steps: &mut Steps<L>,
) -> Result<Report, NoMemory>
    requires well_formed { StatementIsWellFormed statement.now }
    requires other { IsNoSelect statement.now }
    requires kept { AreKept (database_of session.old) queries.old.items }
    ensures kept { AreKept (database_of session.new) queries.new.items }
    ensures taken { (number : ℕ) → query_of number (state_in session.old queries.old.items) ≡ None
        → IsTaken (Said number statement.now) result
        (seen_in session.old queries.old.items) (seen_in session.new queries.new.items)
        steps.old steps.new (F.seen files.old) (F.seen files.new) }
    ensures unread { (effect : Effect)
        → action_of (settings_of session.old) (database_of session.old) statement.now ≡ Does effect
        → files.new ≡ files.old }
{
    keep_changed(alloc, session, queries, statement)?;
    session.apply(alloc, files, statement, steps)
}

// What a session without an open query says.
fn say_idle<F: Files, L: Ledger>(
    alloc: Global,
    session: &mut Session,
    queries: &mut Vec<OpenQuery<KeptTable>>,
    files: &mut F,
    number: u32,
    statement: &Statement,
    steps: &mut Steps<L>,
) -> Result<Report, NoMemory>
    requires well_formed { StatementIsWellFormed statement.now }
    requires kept { AreKept (database_of session.old) queries.old.items }
    requires idle { query_of number (state_in session.old queries.old.items) ≡ None }
    ensures kept { AreKept (database_of session.new) queries.new.items }
    ensures taken { IsTaken (Said number statement.now) result
        (seen_in session.old queries.old.items) (seen_in session.new queries.new.items)
        steps.old steps.new (F.seen files.old) (F.seen files.new) }
    ensures unread { waits_for_file (action_of_event (settings_of session.old) (state_in session.old queries.old.items)
        (Said number statement.now)) ≡ false → files.new ≡ files.old }
{
    match statement {
        Statement::Select { tree } => open(alloc, session, queries, number, tree),
        _ => carry_out(alloc, session, queries, files, statement, steps),
    }
}

/// Does what a session says. Where its query is open it is refused, whatever it says.
pub fn say<F: Files, L: Ledger>(
    alloc: Global,
    session: &mut Session,
    queries: &mut Vec<OpenQuery<KeptTable>>,
    files: &mut F,
    number: u32,
    statement: &Statement,
    steps: &mut Steps<L>,
) -> Result<Report, NoMemory>
    requires well_formed { StatementIsWellFormed statement.now }
    requires kept { AreKept (database_of session.old) queries.old.items }
    ensures kept { AreKept (database_of session.new) queries.new.items }
    ensures taken { IsTaken (Said number statement.now) result
        (seen_in session.old queries.old.items) (seen_in session.new queries.new.items)
        steps.old steps.new (F.seen files.old) (F.seen files.new) }
    ensures unread { waits_for_file (action_of_event (settings_of session.old) (state_in session.old queries.old.items)
        (Said number statement.now)) ≡ false → files.new ≡ files.old }
{
    if position_of(queries.as_slice(), number).is_some() {
        return Ok(Report::Refused {
            why: Refusal::SessionBusy { session: number },
        });
    }
    say_idle(alloc, session, queries, files, number, statement, steps)
}
