// A database that is asked statement by statement.
ghost use Rattle.std.specs.Prelude.{◌≡◌, ◌≢◌, ◌-◌, ◌<◌, IfErr, IfOk, IsSome, OnErr, OnOk, length, option_map, slice_range};
ghost use Rattle.beas_library.specs.Engines.{HasDone, HasFile, HasLeft, HasPriced, HasSaid, HasWanted, IsFresh, IsPlanOf, IsUnpricedFor, with_report, with_settings, without_query};
ghost use Rattle.beas_library.specs.OnePiece.{IsRefusedFor};
ghost use Rattle.beas_core.specs.Refusals.{number_of};
ghost use Rattle.report.specs.Reports.{report_text};
ghost use Rattle.report.specs.Texts.{refusal_text};
ghost use Rattle.beas_library.specs.Refusals.{IsRefusalOf, IsTextOf};
ghost use Rattle.beas_library.specs.Told.{refusal_told};
ghost use Rattle.desk_model.specs.Desks.{query_of};

use crate::handed_files::HandedFiles;
use crate::pieces::{OnePiece, Why, one_piece};
use beas_core::{Bytes, Limits, NoMemory, Refusal, Steps, Text};
use beas_run::{Unpriced, planned, priced, report_on};
use piece_reader::UNNAMED;
use report::{Report, text};
use session::Session;
use std::alloc::Global;
use std::sync::ledger::Ledger;
use version_store::Desk;

/// Tables and constraints, the queries that sessions have open over them, the files that LOAD may read, and the report of the
/// last statement.
#[derive(Drop)]
pub struct Engine {
    desk: Desk,
    files: HandedFiles,
    pub(crate) report: Option<Report>,
    pub(crate) number: u32,
}

impl Engine {
    /// An engine without tables, files or report. It takes no memory.
    pub fn new(alloc: Global, limits: Limits, budget: Option<u64>, explain: bool) -> Engine
        ensures { IsFresh limits budget explain result }
    {
        Engine {
            desk: Desk::new(alloc, Session::new(alloc, limits, budget, explain)),
            files: HandedFiles::new(alloc),
            report: None,
            number: 0,
        }
    }

    /// Changes the budget, and whether reports of queries show their plans. Open queries keep what they were opened with.
    pub fn set(&mut self, budget: Option<u64>, explain: bool)
        ensures { self.new ≡ with_settings budget explain self.old }
    {
        self.desk.set(budget, explain);
    }

    /// Hands over a file: LOAD of this name reads these bytes from then on. Out of memory, all is as it was.
    pub fn add_file(&mut self, name: Text, bytes: Bytes) -> Result<(), NoMemory>
        ensures added { OnOk result (HasFile name bytes self.old self.new) }
        ensures err { OnErr result (self.new ≡ self.old) }
    {
        self.files.add(name, bytes)
    }

    /// Carries out the one statement of a text, as a script's next one, and holds its report. A text without a statement or
    /// with several leaves all as it was, and so do bytes that are no text. Out of memory, tables and constraints are as they
    /// were, and a query is lost that the statement was to go on with.
    pub fn say<L: Ledger>(
        &mut self,
        alloc: Global,
        text: &[u8],
        steps: &mut Steps<L>,
    ) -> Result<(), Why>
        ensures said { OnOk result (HasSaid text.now self.old self.new steps.old steps.new) }
        ensures why { IfErr result (λ why. IsRefusedFor why text.now) }
        ensures unchanged { IfErr result (λ why. why ≢ Why.NoMemory
            → (self.new ≡ self.old) × (steps.new ≡ steps.old)) }
        ensures wanting { IfErr result (λ why. why ≡ Why.NoMemory
            → HasWanted text.now self.old self.new steps.old steps.new) }
    {
        let piece = one_piece(alloc, text)?;
        self.carry_out(alloc, &piece, steps)
    }

    /// Carries out a statement, and holds its report.
    fn carry_out<L: Ledger>(
        &mut self,
        alloc: Global,
        piece: &OnePiece,
        steps: &mut Steps<L>,
    ) -> Result<(), Why>
        ensures done { OnOk result (HasDone piece.now self.old self.new steps.old steps.new) }
        ensures why { IfErr result (λ why. why ≡ Why.NoMemory) }
        ensures left { OnErr result (HasLeft piece.now self.old self.new steps.old steps.new) }
    {
        match report_on(
            alloc,
            &mut self.desk,
            piece.tokens(),
            &mut self.files,
            steps,
        ) {
            Ok(report) => {
                self.hold(report);
                Ok(())
            }
            Err(NoMemory) => {
                self.desk.drop_query(UNNAMED);
                Err(Why::NoMemory)
            }
        }
    }

    /// Tells what EXPLAIN would report of the one query of a text if there were no budget, and holds that. Nothing is read.
    pub fn price(&mut self, alloc: Global, text: &[u8]) -> Result<(), Why>
        ensures priced { OnOk result (HasPriced text.now self.old self.new) }
        ensures why { IfErr result (λ why. IsUnpricedFor self.old.desk why text.now) }
        ensures err { OnErr result (self.new ≡ self.old) }
    {
        let piece = one_piece(alloc, text)?;
        match priced(alloc, &self.desk, piece.tokens()) {
            Ok(report) => {
                self.hold(report);
                Ok(())
            }
            Err(Unpriced::NotAQuery) => Err(Why::NotAQuery),
            Err(Unpriced::NoMemory) => Err(Why::NoMemory),
        }
    }

    /// The plan of the one query of a text as a JSON text, whatever the budget is, or the query's refusal. Nothing is read, and
    /// the last report stays.
    pub fn plan_data(&self, alloc: Global, text: &[u8]) -> Result<Result<Text, Refusal>, Why>
        ensures plan { IfOk result (λ plan. IsPlanOf self.now.desk text.now plan) }
        ensures why { IfErr result (λ why. IsUnpricedFor self.now.desk why text.now) }
    {
        let piece = one_piece(alloc, text)?;
        match planned(alloc, &self.desk, piece.tokens()) {
            Ok(plan) => Ok(plan),
            Err(Unpriced::NotAQuery) => Err(Why::NotAQuery),
            Err(Unpriced::NoMemory) => Err(Why::NoMemory),
        }
    }

    /// Holds a report in the place of the last one, with the next number.
    fn hold(&mut self, report: Report)
        ensures { self.new ≡ with_report report self.old }
    {
        self.report = Some(report);
        self.number = self.number.saturating_add(1);
    }

    /// Drops the open query of a session, if it has one, without a report.
    pub fn drop_query(&mut self, session: u32)
        ensures dropped { self.new ≡ without_query session self.old }
        ensures idle { query_of session self.new.desk.state ≡ None }
    {
        self.desk.drop_query(session);
    }

    /// The last report as the program writes it.
    pub fn report_text(&self, alloc: Global) -> Result<Option<Text>, NoMemory>
        ensures text { IfOk result (λ lines. lines ≡ option_map (report_text self.now.number) self.now.report) }
        ensures err { OnErr result (IsSome self.now.report) }
    {
        match &self.report {
            Some(report) => Ok(Some(text(alloc, self.number, report)?)),
            None => Ok(None),
        }
    }

    /// The number of the refusal, if the last statement was refused.
    pub fn refusal_number(&self) -> Option<u32>
        ensures { result ≡ option_map number_of (refusal_told self.now.report) }
    {
        match &self.report {
            Some(Report::Refused { why }) => Some(why.number()),
            _ => None,
        }
    }

    /// The text of the refusal, if the last statement was refused.
    pub fn refusal_text(&self, alloc: Global) -> Result<Option<Bytes>, NoMemory>
        ensures wording { IfOk result (λ wording. wording ≡ option_map refusal_text (refusal_told self.now.report)) }
        ensures err { OnErr result (IsSome (refusal_told self.now.report)) }
    {
        match &self.report {
            Some(report) => match report {
                Report::Refused { why } => {
                    let wording = refusal_wording(alloc, self.number, report, why.number())?;
                    Ok(Some(wording))
                }
                _ => Ok(None),
            },
            None => Ok(None),
        }
    }
}

/// What stands behind the number in the report of a refusal.
fn refusal_wording(alloc: Global, k: u32, report: &Report, number: u32) -> Result<Bytes, NoMemory>
    requires { IsRefusalOf number report.now }
    ensures { IfOk result (λ wording. IsTextOf wording report.now) }
{
    let line = text(alloc, k, report)?;
    let before = format!(in alloc; "{k} refused {number} ")?;
    let bytes = line.as_str().as_bytes();
    let front = before.as_str();
    let wording = but_last(bytes, front.len());
    let copy = copy_of(alloc, wording)?;
    Ok(copy)
}

/// A copy of bytes.
fn copy_of(alloc: Global, bytes: &[u8]) -> Result<Bytes, NoMemory>
    ensures { IfOk result (λ copy. copy ≡ bytes.now) }
{
    match bytes.to_vec(alloc) {
        Ok(copy) => Ok(Bytes::from_vec(copy)),
        Err(_) => Err(NoMemory),
    }
}

/// The bytes from a place on, without the last.
fn but_last(bytes: &[u8], from: usize) -> &[u8]
    requires { from < length bytes.now }
    ensures { result.now ≡ slice_range bytes.now from (length bytes.now - 1) }
{
    &bytes[from..bytes.len() - 1]
}
