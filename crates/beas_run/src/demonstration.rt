// The run of a demonstration: its pieces, and one line of their totals.
ghost use Rattle.std.specs.Prelude.{◌≡◌, ◌≢◌, ◌<◌, ◌≤◌, ◌++◌, ◌⊎◌, true, length, Ok};
ghost use Rattle.demo_gen.specs.Summaries.{summary_text};
ghost use Rattle.outside.specs.Counts.{Rose, raised};
ghost use Rattle.outside.specs.Parts.{SentPart};
ghost use Rattle.outside.specs.Seen.{IsLaterSink, Seen};
ghost use Rattle.session.specs.Applying.{settings_of};
ghost use Rattle.beas_run.specs.Demonstrations.{Demonstrated, empty_files};
ghost use Rattle.beas_run.specs.Endings.{status_of};
ghost use Rattle.beas_run.specs.NoSessions.{NamesNoSession};
ghost use Rattle.beas_run.specs.Readings.{readings_of};
ghost use Rattle.beas_run.specs.Walks.{moment};

use crate::audience::Counter;
use crate::script::walk;
use beas_core::{Bytes, Steps};
use catalogue::recall_soundness;
use demo_gen::Summary;
use outside::{Files, FilesError, Sink, SinkError};
use session::Session;
use std::alloc::Global;
use std::sync::ledger::Ledger;

/// Files that are all empty, in the place of those that a run has: a demonstration loads none.
#[derive(Drop)]
struct EmptyFiles;

impl Files for EmptyFiles {
    ghost seen = { λ _. empty_files };

    fn read(&mut self, alloc: Global, _name: &str, _limit: u64) -> Result<Bytes, FilesError> {
        Ok(Bytes::from_vec(Vec::new(alloc)))
    }
}

/// Writes the line of the totals.
fn put_summary<O: Sink>(alloc: Global, refused: bool, summary: &Summary, out: &mut O) -> u8
    ensures statuses { (result ≡ status_of (Ok refused)) ⊎ (result ≡ 4) ⊎ (result ≡ 5) }
    ensures whole { result < 2 → (O.seen out.old).told ≡ true
        → (O.seen out.new).bytes ≡ (O.seen out.old).bytes ++ summary_text summary.now }
    ensures part { (O.seen out.old).told ≡ true
        → SentPart (O.seen out.old).bytes (O.seen out.new).bytes (summary_text summary.now) }
    ensures unsent { result ≡ 5 → (O.seen out.old).told ≡ true → (O.seen out.new).bytes ≡ (O.seen out.old).bytes }
    ensures out { IsLaterSink (O.seen out.old) (O.seen out.new) }
    ensures no_fault { result ≢ 4 → (O.seen out.new).faults ≡ (O.seen out.old).faults }
    ensures fault { result ≡ 4 → Rose (O.seen out.old).faults (O.seen out.new).faults }
    ensures puts { ((O.seen out.new).puts ≡ raised 1 (O.seen out.old).puts)
        ⊎ ((result ≡ 5) × ((O.seen out.new).puts ≡ (O.seen out.old).puts)) }
{
    let Ok(line) = summary.text(alloc) else {
        return 5;
    };
    match out.put(line.as_str().as_bytes()) {
        Ok(()) if refused => 1,
        Ok(()) => 0,
        Err(SinkError::Failed) => 4,
        Err(SinkError::NoMemory) => 5,
    }
}

/// Runs a script without `@` over a session and no files but empty ones, and writes one line of the totals of
/// its reports: 0 where no report is a refusal, 1 where one is, 4 where the output failed, 5 where memory ran out.
pub fn write_totals<O: Sink, L: Ledger>(
    alloc: Global,
    session: &mut Session,
    script: &str,
    out: &mut O,
    steps: &mut Steps<L>,
) -> u8
    requires short { length script.now ≤ 16777216 }
    requires plain { NamesNoSession script.now }
    ensures demonstrated { (files : Seen) → Demonstrated (settings_of session.old) (readings_of script.now) result
        (moment session.old steps.old (O.seen out.old) files) (moment session.new steps.new (O.seen out.new) files) }
    ensures statuses { (result < 2) ⊎ (result ≡ 4) ⊎ (result ≡ 5) }
    ensures settings { settings_of session.new ≡ settings_of session.old }
    ensures out { IsLaterSink (O.seen out.old) (O.seen out.new) }
    ensures no_fault { result ≢ 4 → (O.seen out.new).faults ≡ (O.seen out.old).faults }
    ensures fault { result ≡ 4 → Rose (O.seen out.old).faults (O.seen out.new).faults }
{
    // With a sound schema, what a script without sessions reads is the sum of what its statements read.
    recall_soundness(&session.guarded.catalogue);
    let mut counter = Counter {
        summary: Summary::new(),
    };
    let mut files = EmptyFiles;
    match walk(alloc, session, script, &mut counter, &mut files, out, steps) {
        Ok(refused) => put_summary(alloc, refused, &counter.summary, out),
        // A count doesn't fail, so memory ran out.
        Err(_) => 5,
    }
}
