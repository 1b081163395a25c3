// A desk.
ghost use Rattle.std.specs.Prelude.{◌≡◌, ◌≤◌, [], None, false, IfOk};
ghost use Rattle.beas_core.specs.Fits.{PlanFits};
ghost use Rattle.beas_core.specs.Results.{Gives};
ghost use Rattle.catalogue.specs.Database.{schema_of};
ghost use Rattle.desk_model.specs.Desks.{action_of_event, query_of};
ghost use Rattle.session.specs.Announced.{announcement};
ghost use Rattle.session.specs.Effects.{explain_effect};
ghost use Rattle.session.specs.Statements.{TreeIsWellFormed};
ghost use Rattle.session.specs.Applying.{database_of, settings_of};
ghost use Rattle.version_store.specs.Desks.{EventIsWellFormed, IsTaken, session_in, waits_for_file, without_query_of};

use crate::going::{drop_query, step};
use crate::open::OpenQuery;
use crate::pricing::{prepared, price};
use crate::saying::say;
use crate::store::KeptTable;
use beas_core::{Fail, NoMemory, Prepared, Steps};
use catalogue::{Catalogue, recall_soundness};
use outside::Files;
use piece_reader::Event;
use report::Report;
use session::Session;
use sql_text::SelectTree;
use std::alloc::Global;
use std::marker::Model;
use std::sync::ledger::Ledger;

/// A session's database at which sessions take turns, each with at most one open query. A query that is open goes on seeing
/// the rows and the constraints that it saw where it was opened. There are no threads: events come one after another, and
/// each is done whole.
///
/// It isn't `Debug`, since rows are handed out by `Rows::row` and by probes alone.
#[derive(Drop)]
pub struct Desk {
    session: Session,
    queries: Vec<OpenQuery<KeptTable>>,
}

impl Model for Desk {
    ghost use Rattle.version_store.specs.Desks.{Seen};
    ghost use Rattle.version_store.specs.Coding.{coded_desk};

    ghost Value = { Seen };

    ghost coded = { coded_desk };

    ghost use Rattle.session.specs.Applying.{database_of};
    ghost use Rattle.version_store.specs.Stored.{AreKept, seen_in};

    ghost view = { λ d. seen_in d.session d.queries.items };

    ghost invariant = { λ d. AreKept (database_of d.session) d.queries.items };
}

impl Desk {
    /// A desk over a session's database, with no open query. It takes no memory.
    pub fn new(alloc: Global, session: Session) -> Desk
        ensures { result ≡ record {
          settings = settings_of session;
          state = record { db = database_of session; queries = [] };
          shares = [];
          probes = [];
        } }
    {
        // The schema of a desk is sound.
        recall_soundness(&session.guarded.catalogue);
        Desk {
            session,
            queries: Vec::new(alloc),
        }
    }

    /// Does what an event asks for, and reports it. A statement of a session whose query is open is refused, and so is a
    /// turn of a session that has none. A query that is announced is opened, and counts no read; any other statement is
    /// carried out as `Session::apply` does. A turn makes one due probe of the session's query, and counts its share of the
    /// reads; where no probe is due it makes none, and the query is answered over the rows of its opening, and closed.
    ///
    /// Out of memory in a statement, the desk is as it was. Out of memory in a turn, that query is lost: each further turn
    /// of it says so and probes nothing, and all else is as it was.
    pub fn event<F: Files, L: Ledger>(
        &mut self,
        alloc: Global,
        files: &mut F,
        event: &Event,
        steps: &mut Steps<L>,
    ) -> Result<Report, NoMemory>
        requires session { session_in event.now ≤ 64 }
        requires well_formed { EventIsWellFormed event.now }
        ensures taken { IsTaken event.now result self.old self.new steps.old steps.new
            (F.seen files.old) (F.seen files.new) }
        ensures unread { waits_for_file (action_of_event self.old.settings self.old.state event.now) ≡ false
            → files.new ≡ files.old }
    {
        match event {
            Event::Said { session, statement } => say(
                alloc,
                &mut self.session,
                &mut self.queries,
                files,
                *session,
                statement,
                steps,
            ),
            Event::Stepped { session } => {
                step(alloc, &self.session, &mut self.queries, *session, steps)
            }
        }
    }

    /// What EXPLAIN would report of a query if there were no budget: the number that it announces and its plan lines, or its
    /// refusal. It reads no row, and whether a session's query is open doesn't matter.
    pub fn announce(&self, alloc: Global, tree: &SelectTree) -> Result<Report, NoMemory>
        requires { TreeIsWellFormed tree.now }
        ensures announced { IfOk result (λ report. report
            ≡ (explain_effect self.now.settings.limits None self.now.state.db tree.now).report) }
    {
        price(alloc, &self.session, tree)
    }

    /// The query of which `announce` tells, as it is prepared, or its refusal. It reads no row either.
    pub fn plan(&self, alloc: Global, tree: &SelectTree) -> Result<Prepared, Fail>
        requires { TreeIsWellFormed tree.now }
        ensures planned { Gives result
            (announcement self.now.settings.limits None (schema_of self.now.state.db) tree.now) }
        ensures fits { IfOk result (PlanFits self.now.state.db.accesses) }
    {
        prepared(alloc, &self.session, tree)
    }

    /// Tables and constraints, by which a plan is read.
    pub fn catalogue(&self) -> &Catalogue
        ensures { result.now ≡ schema_of self.now.state.db }
    {
        &self.session.guarded.catalogue
    }

    /// Changes the budget, and whether reports of queries show their plans. The queries that are open keep the plans that they
    /// were opened with.
    pub fn set(&mut self, budget: Option<u64>, explain: bool)
        ensures { self.new ≡ record self.old {
          settings = record { limits = self.old.settings.limits; budget = budget; explain = explain };
        } }
    {
        self.session.budget = budget;
        self.session.explain = explain;
    }

    /// Drops the open query of a session, where it has one, without a report.
    pub fn drop_query(&mut self, session: u32)
        ensures dropped { self.new ≡ without_query_of session self.old }
        ensures idle { query_of session self.new.state ≡ None }
    {
        drop_query(&self.session, &mut self.queries, session);
    }

    /// The session as it stands. The open queries are dropped. It takes no memory.
    pub fn close(self) -> Session
        ensures db { database_of result ≡ self.state.db }
        ensures settings { settings_of result ≡ self.settings }
    {
        self.session
    }
}

/// A desk and its open queries have these fields and no others: with a further one, such as the rows that one run leaves to
/// the next, this wouldn't compile. `cursor_executor::cursor_fields` says so of their cursors.
pub fn desk_fields(desk: &Desk) {
    let Desk {
        session: _session,
        queries,
    } = desk;
    if let Some(query) = queries.first() {
        let OpenQuery {
            session: _number,
            cursor: _cursor,
            header: _header,
            plan: _plan,
            parts: _parts,
        } = query;
    }
}
