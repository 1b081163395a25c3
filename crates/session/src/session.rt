// A session: the database, and what its statements are decided by.
ghost use Rattle.std.specs.Prelude.{◌≡◌, ◌≤◌, ◌⊎◌, [], IfOk, OnErr};
ghost use Rattle.beas_core.specs.Fits.{Fits};
ghost use Rattle.beas_core.specs.Results.{Gives};
ghost use Rattle.outside.specs.Counts.{raised};
ghost use Rattle.outside.specs.Seen.{IsLater};
ghost use Rattle.session.specs.Announced.{announcement, scan_announcement};
ghost use Rattle.session.specs.Carrying.{Performs, reported};
ghost use Rattle.session.specs.Effects.{Effect, Does, action_of, sizes_in};
ghost use Rattle.session.specs.Statements.{StatementIsWellFormed, TreeIsWellFormed};
ghost use Rattle.session.specs.Turns.{IsWithin};

use crate::changes::{delete, insert, load};
use crate::discovery::{discover_group, discover_pairs};
use crate::grouping::grouped;
use crate::queries::{announcement, explain, select};
use crate::scanning::{announced_over, scan_ok};
use crate::settings::Settings;
use crate::specialising::specialise_block;
use crate::stored::Store;
use crate::tables::{create_access, create_table, drop_access};
use beas_core::{Fail, Limits, NoMemory, Prepared, Steps};
use outside::Files;
use partial_plan::ScanPlan;
use report::Report;
use sql_text::{SelectTree, Statement};
use std::alloc::Global;
use std::sync::ledger::Ledger;

/// Tables with their rows and constraints, and what statements over them are decided by.
#[derive(Drop)]
pub struct Session {
    /// The tables with their rows, and the constraints with their indexes.
    pub guarded: Store,
    pub limits: Limits,
    /// A query with a greater number isn't run.
    pub budget: Option<u64>,
    /// Whether the report of a query shows its plan.
    pub explain: bool,
}

impl Session {
    ghost use Rattle.catalogue.specs.Database.{rows_at, schema_of};
    ghost use Rattle.partial_plan.specs.ScanPlans.{ScanPlanFits};
    ghost use Rattle.session.specs.Applying.{IsApplied, MayCost, MayLoad, database_of, settings_in, settings_of};

    /// A session without tables, whose maps will hash with the seed 0. It takes no memory.
    pub fn new(alloc: Global, limits: Limits, budget: Option<u64>, explain: bool) -> Session
        ensures db { database_of result ≡ record { tables = []; accesses = []; created = 0 } }
        ensures settings { settings_of result ≡ record { limits = limits; budget = budget; explain = explain } }
    {
        Session::seeded(alloc, limits, budget, explain, 0)
    }

    /// A session without tables, whose maps will hash with a seed. It makes no difference to what is answered. It is meant
    /// to keep whoever doesn't know it from choosing values that collide, which no clause promises. It takes no memory.
    pub fn seeded(
        alloc: Global,
        limits: Limits,
        budget: Option<u64>,
        explain: bool,
        seed: u64,
    ) -> Session
        ensures db { database_of result ≡ record { tables = []; accesses = []; created = 0 } }
        ensures settings { settings_of result ≡ record { limits = limits; budget = budget; explain = explain } }
    {
        Session {
            guarded: Store::seeded(alloc, seed),
            limits,
            budget,
            explain,
        }
    }

    /// Lets the session go. A crate in which a session is let go by the end of its scope proves anew what that does to
    /// each part of the store, and one that calls this doesn't.
    pub fn discard(self) {
        self.guarded.discard();
    }

    /// What its statements are decided by.
    fn settings(&self) -> Settings<'_>
        ensures { settings_in result ≡ settings_of self.now }
    {
        Settings {
            limits: &self.limits,
            budget: self.budget,
            explain: self.explain,
        }
    }

    /// What is announced of a query: the query as it is prepared, or its refusal. It reads no row, and no row matters:
    /// sessions with equal catalogues, limits and budgets announce the same.
    pub fn announce(&self, alloc: Global, tree: &SelectTree) -> Result<Prepared, Fail>
        requires { TreeIsWellFormed tree.now }
        ensures announced { Gives result
            (announcement self.now.limits self.now.budget self.now.guarded.catalogue tree.now) }
        ensures fits { IfOk result (Fits self.now.guarded.catalogue.accesses (rows_at (database_of self.now))) }
    {
        announcement(alloc, &self.guarded.catalogue, &self.settings(), tree)
    }

    /// What is announced of a query whose tables may be scanned: the query as it is prepared with its scans, or its
    /// refusal. It reads no row, and of the tables their numbers of rows alone matter.
    pub fn announce_scan(&self, alloc: Global, tree: &SelectTree) -> Result<ScanPlan, Fail>
        requires { TreeIsWellFormed tree.now }
        ensures announced { Gives result (scan_announcement self.now.limits self.now.budget
            (schema_of (database_of self.now)) (sizes_in (database_of self.now)) tree.now) }
        ensures fits { IfOk result (ScanPlanFits
            self.now.guarded.catalogue.accesses (rows_at (database_of self.now)) self.now.guarded.rows) }
    {
        announced_over(alloc, &self.guarded, &self.settings(), tree)
    }

    /// Carries out a statement, and reports it. A refused statement changes nothing. Out of memory, the session is as
    /// it was.
    pub fn apply<F: Files, L: Ledger>(
        &mut self,
        alloc: Global,
        files: &mut F,
        statement: &Statement,
        steps: &mut Steps<L>,
    ) -> Result<Report, NoMemory>
        requires { StatementIsWellFormed statement.now }
        ensures applied { IfOk result (λ report. IsApplied self.old.limits.file
            (action_of (settings_of self.old) (database_of self.old) statement.now)
            report (database_of self.new) steps.old steps.new (F.seen files.old) (F.seen files.new)) }
        ensures within { IfOk result IsWithin }
        ensures settings { settings_of self.new ≡ settings_of self.old }

        // Out of memory.
        ensures unchanged { OnErr result (database_of self.new ≡ database_of self.old) }
        ensures at_most { MayCost
            (action_of (settings_of self.old) (database_of self.old) statement.now) steps.old steps.new }
        ensures no_fewer { steps.old ≤ steps.new }

        // The files.
        ensures unread { (effect : Effect)
            → action_of (settings_of self.old) (database_of self.old) statement.now ≡ Does effect
            → files.new ≡ files.old }
        ensures loaded { MayLoad (action_of (settings_of self.old) (database_of self.old) statement.now)
            (F.seen files.old) (F.seen files.new) }
        ensures later { IsLater (F.seen files.old) (F.seen files.new) }
    {
        report_of(self.carry_out(alloc, files, statement, steps))
    }

    /// Carries out a statement.
    fn carry_out<F: Files, L: Ledger>(
        &mut self,
        alloc: Global,
        files: &mut F,
        statement: &Statement,
        steps: &mut Steps<L>,
    ) -> Result<Report, Fail>
        requires { StatementIsWellFormed statement.now }
        ensures performed { Performs self.old.limits.file
            (action_of (settings_of self.old) (database_of self.old) statement.now)
            (database_of self.old) result (database_of self.new) steps.old steps.new
            (F.seen files.old) (F.seen files.new) }
        ensures within { IfOk result IsWithin }
        ensures settings { settings_of self.new ≡ settings_of self.old }
        ensures unread { (effect : Effect)
            → action_of (settings_of self.old) (database_of self.old) statement.now ≡ Does effect
            → files.new ≡ files.old }
        ensures later { IsLater (F.seen files.old) (F.seen files.new) }
        ensures counted { ((F.seen files.new).loads ≡ (F.seen files.old).loads)
            ⊎ ((F.seen files.new).loads ≡ raised 1 (F.seen files.old).loads) }
    {
        let limits = &self.limits;
        let settings = Settings {
            limits,
            budget: self.budget,
            explain: self.explain,
        };
        let store = &mut self.guarded;
        match statement {
            Statement::CreateTable { name, columns } => {
                create_table(alloc, store, limits, name, columns)
            }
            Statement::CreateAccess { spec } => create_access(alloc, store, limits, spec, steps),
            Statement::DropAccess { name } => drop_access(alloc, store, name),
            Statement::Load { table, file } => load(alloc, store, limits, table, file, files),
            Statement::Insert { table, rows } => insert(alloc, store, limits, table, rows),
            Statement::Delete { table, conditions } => {
                delete(alloc, store, limits, table, conditions, steps)
            }
            Statement::DiscoverGroup {
                table,
                key,
                fetched,
            } => { discover_group(alloc, store, table, key, fetched, steps) }
            Statement::DiscoverPairs { table, limit } => {
                discover_pairs(alloc, store, table, limit, steps)
            }
            Statement::Select { tree } => select(alloc, store, &settings, tree, steps),
            Statement::Explain { tree } => explain(alloc, store, &settings, tree),
            Statement::ScanOk { tree } => scan_ok(alloc, store, &settings, tree, steps),
            Statement::Grouped { items, keys, inner } => {
                grouped(alloc, store, &settings, items, keys, inner, steps)
            }
            Statement::Specialise { tree } => specialise_block(alloc, store, limits, tree),
        }
    }
}

/// A refused statement is reported too.
fn report_of(outcome: Result<Report, Fail>) -> Result<Report, NoMemory>
    ensures { result ≡ reported outcome }
{
    match outcome {
        Ok(report) => Ok(report),
        Err(Fail::Refused(why)) => Ok(Report::Refused { why }),
        Err(Fail::NoMemory) => Err(NoMemory),
    }
}
