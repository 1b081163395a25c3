// Who takes the reports of a script: the output that they are written to, or totals that they are counted in.
ghost use Rattle.std.specs.Prelude.{◌≡◌, ◌⊎◌, ◌++◌, ◌∷◌, [], true, List, OnOk, IsErrOf};
ghost use Rattle.outside.specs.Counts.{raised};
ghost use Rattle.outside.specs.Parts.{SentPart};
ghost use Rattle.outside.specs.Seen.{Sent};
ghost use Rattle.report.specs.declared.reports.Report.{Report};
ghost use Rattle.report.specs.Reports.{report_text};
ghost use Rattle.beas_run.specs.Audiences.{HasTaken, counted, totals_over, unshown};
ghost use Rattle.beas_run.specs.Endings.{TellsFault};

use crate::ending::Ending;
use beas_core::NoMemory;
use demo_gen::{Outcome, Summary};
use outside::Sink;
use report::{Report, text};
use std::alloc::Global;

/// One that takes the reports of a script, each before the next piece.
pub trait Audience {
    /// What is told of the output where the reports are taken so: what stands there, or nothing.
    ghost shown: { Sent → Sent };

    /// It took these reports, in this order, and no others.
    ghost took: { Self → List Report → Type 0 };

    /// Takes the report of the piece with this number.
    fn take<O: Sink>(
        &mut self,
        alloc: Global,
        number: u32,
        report: &Report,
        out: &mut O,
    ) -> Result<(), Ending>
        requires { HasTaken (took self.old) number }
        ensures took { OnOk result ((reports : List Report) → took self.old reports
            → took self.new (reports ++ report.now ∷ [])) }
        ensures whole { OnOk result ((shown (O.seen out.old)).told ≡ true → (shown (O.seen out.new)).bytes
            ≡ (shown (O.seen out.old)).bytes ++ report_text number report.now) }
        ensures part { (shown (O.seen out.old)).told ≡ true → SentPart
            (shown (O.seen out.old)).bytes (shown (O.seen out.new)).bytes (report_text number report.now) }
        ensures unsent { IsErrOf result Ending.NoMemory → (shown (O.seen out.old)).told ≡ true
            → (shown (O.seen out.new)).bytes ≡ (shown (O.seen out.old)).bytes }
        ensures out { TellsFault result (shown (O.seen out.old)) (shown (O.seen out.new)) }
        ensures put { OnOk result ((shown (O.seen out.new)).puts ≡ raised 1 (shown (O.seen out.old)).puts) }
        ensures put_fault { IsErrOf result Ending.Fault
            → (shown (O.seen out.new)).puts ≡ raised 1 (shown (O.seen out.old)).puts }
        ensures put_once { ((shown (O.seen out.new)).puts ≡ (shown (O.seen out.old)).puts)
            ⊎ ((shown (O.seen out.new)).puts ≡ raised 1 (shown (O.seen out.old)).puts) }
        ensures unused { ((sent : Sent) → shown sent ≡ unshown) → out.new ≡ out.old };
}

/// Writes each report to the output.
#[derive(Drop)]
pub struct Writer;

impl Audience for Writer {
    ghost shown = { λ sent. sent };

    ghost took = { λ _ _. Unit {0} };

    fn take<O: Sink>(
        &mut self,
        alloc: Global,
        number: u32,
        report: &Report,
        out: &mut O,
    ) -> Result<(), Ending>
        ensures whole { OnOk result ((O.seen out.old).told ≡ true → (O.seen out.new).bytes
            ≡ (O.seen out.old).bytes ++ report_text number report.now) }
        ensures part { (O.seen out.old).told ≡ true → SentPart
            (O.seen out.old).bytes (O.seen out.new).bytes (report_text number report.now) }
        ensures unsent { IsErrOf result Ending.NoMemory → (O.seen out.old).told ≡ true
            → (O.seen out.new).bytes ≡ (O.seen out.old).bytes }
        ensures out { TellsFault result (O.seen out.old) (O.seen out.new) }
        ensures put { OnOk result ((O.seen out.new).puts ≡ raised 1 (O.seen out.old).puts) }
        ensures put_fault { IsErrOf result Ending.Fault → (O.seen out.new).puts ≡ raised 1 (O.seen out.old).puts }
        ensures put_once { ((O.seen out.new).puts ≡ (O.seen out.old).puts)
            ⊎ ((O.seen out.new).puts ≡ raised 1 (O.seen out.old).puts) }
    {
        let lines = text(alloc, number, report)?;
        out.put(lines.as_str().as_bytes())?;
        Ok(())
    }
}

/// Counts each report, and writes none.
#[derive(Drop)]
pub struct Counter {
    pub summary: Summary,
}

/// What is counted of a report.
fn counted(report: &Report) -> Outcome
    ensures { result ≡ counted report.now }
{
    match report {
        Report::Refused { .. } => Outcome::Refused,
        Report::Answered {
            bound,
            rows,
            reads,
            ..
        } => Outcome::Answered {
            rows: rows.len(),
            reads: *reads,
            bound: *bound,
        },
        Report::Done
        | Report::Changed { .. }
        | Report::Greatest { .. }
        | Report::Pairs { .. }
        | Report::Explained { .. }
        | Report::Grouped { .. }
        | Report::Specialised { .. }
        | Report::Opened { .. }
        | Report::Probed { .. } => Outcome::Other,
    }
}

impl Audience for Counter {
    ghost shown = { λ _. unshown };

    ghost took = { λ counter reports. counter.summary ≡ totals_over reports };

    fn take<O: Sink>(
        &mut self,
        alloc: Global,
        number: u32,
        report: &Report,
        out: &mut O,
    ) -> Result<(), Ending>
        requires { HasTaken (λ reports. self.old.summary ≡ totals_over reports) number }
        ensures took { (reports : List Report) → self.old.summary ≡ totals_over reports
            → self.new.summary ≡ totals_over (reports ++ report.now ∷ []) }
        ensures unused { out.new ≡ out.old }
        ensures never { IsErrOf result Ending.Fault → ⊥ }
    {
        self.summary.add(counted(report));
        Ok(())
    }
}
