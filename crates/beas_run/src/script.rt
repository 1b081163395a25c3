// A script, piece by piece, before one that takes the reports.
ghost use Rattle.std.specs.Prelude.{◌≡◌, ◌≢◌, ◌<◌, ◌≤◌, ◌-◌, ◌^◌, ◌⊎◌, [], length, IfOk, IfErr};
ghost use Rattle.outside.specs.Counts.{Rose};
ghost use Rattle.outside.specs.Seen.{IsLater, IsLaterSink, Sent};
ghost use Rattle.piece_reader.specs.Sayings.{reading_of};
ghost use Rattle.session.specs.Applying.{settings_of};
ghost use Rattle.session.specs.Turns.{is_refusal};
ghost use Rattle.beas_run.specs.Audiences.{HasTaken, unshown};
ghost use Rattle.beas_run.specs.Endings.{TellsFault, status_of};
ghost use Rattle.beas_run.specs.Pieces.{IsReported, IsUndone, IsUnreported, moment_of, scene};
ghost use Rattle.beas_run.specs.Readings.{readings_of};
ghost use Rattle.beas_run.specs.Walks.{moment, Walked, WalkedBefore};

use crate::audience::{Audience, Writer};
use crate::ending::Ending;
use crate::pieces::report_on;
use beas_core::{Limits, List, Steps};
use outside::{Files, Sink};
use report::Report;
use session::Session;
use sql_tokens::{Token, lex_piece};
use std::alloc::Global;
use std::mem::replace;
use std::sync::ledger::Ledger;
use version_store::Desk;

fn is_refusal(report: &Report) -> bool
    ensures { result ≡ is_refusal report.now }
{
    matches!(report, Report::Refused { .. })
}

/// Carries out a piece, and hands its report on. It tells whether the report is a refusal.
fn carry_out<A: Audience, F: Files, O: Sink, L: Ledger>(
    alloc: Global,
    desk: &mut Desk,
    tokens: &[Token],
    number: u32,
    audience: &mut A,
    files: &mut F,
    out: &mut O,
    steps: &mut Steps<L>,
) -> Result<bool, Ending>
    requires short { length tokens.now < 2 ^ 32 - 1 }
    requires taken { HasTaken (A.took audience.old) number }
    ensures reported { IfOk result (λ refused. IsReported desk.old.settings (reading_of tokens.now) number refused
        (A.took audience.old) (A.took audience.new)
        (scene desk.old steps.old (A.shown (O.seen out.old)) (F.seen files.old))
        (scene desk.new steps.new (A.shown (O.seen out.new)) (F.seen files.new))) }
    ensures stopped { IfErr result (λ why.
        let before = scene desk.old steps.old (A.shown (O.seen out.old)) (F.seen files.old) in
        let after = scene desk.new steps.new (A.shown (O.seen out.new)) (F.seen files.new) in
        ((why ≡ Ending.NoMemory) × IsUndone desk.old.settings (reading_of tokens.now) before after)
        ⊎ IsUnreported desk.old.settings (reading_of tokens.now) number why before after) }
    ensures settings { desk.new.settings ≡ desk.old.settings }
    ensures files { IsLater (F.seen files.old) (F.seen files.new) }
    ensures out { TellsFault result (A.shown (O.seen out.old)) (A.shown (O.seen out.new)) }
    ensures unused { ((sent : Sent) → A.shown sent ≡ unshown) → out.new ≡ out.old }
{
    let report = report_on(alloc, desk, tokens, files, steps)?;
    match audience.take(alloc, number, &report, out) {
        Ok(()) => {
            let refusal = is_refusal(&report);
            drop(report);
            Ok(refusal)
        }
        Err(why) => {
            drop(report);
            Err(why)
        }
    }
}

/// Carries out the pieces of a text. Each is cut out when it comes, and its report is handed on before the next piece.
fn carry_out_all<A: Audience, F: Files, O: Sink, L: Ledger>(
    alloc: Global,
    desk: &mut Desk,
    script: &str,
    audience: &mut A,
    files: &mut F,
    out: &mut O,
    steps: &mut Steps<L>,
) -> Result<bool, Ending>
    requires few { length script.now ≤ 16777216 }
    requires none { A.took audience.old [] }
    requires idle { (desk.old.state.queries ≡ []) × (desk.old.shares ≡ []) }
    ensures walked { WalkedBefore (A.took audience.new)
        desk.old.settings (readings_of script.now) (status_of result)
        (moment_of (scene desk.old steps.old (A.shown (O.seen out.old)) (F.seen files.old)))
        (moment_of (scene desk.new steps.new (A.shown (O.seen out.new)) (F.seen files.new))) }
    ensures settings { desk.new.settings ≡ desk.old.settings }
    ensures files { IsLater (F.seen files.old) (F.seen files.new) }
    ensures out { TellsFault result (A.shown (O.seen out.old)) (A.shown (O.seen out.new)) }
    ensures unused { ((sent : Sent) → A.shown sent ≡ unshown) → out.new ≡ out.old }
{
    let mut refused = false;
    let mut tokens = List::new(alloc);
    let mut number = 0;
    let mut at = 0;
    'pieces: while at < script.len() {
        at = lex_piece(alloc, script, at, &mut tokens)?;
        if tokens.is_empty() {
            continue;
        }
        number += 1;
        let piece = tokens.as_slice();
        refused |= carry_out(alloc, desk, piece, number, audience, files, out, steps)?;
    }
    Ok(refused)
}

/// Carries out the pieces of a text, and hands on each report before the next piece. It tells whether a report is a
/// refusal. The session stands at a desk meanwhile, and is as the pieces left it afterwards; queries that are still open
/// are dropped.
pub fn walk<A: Audience, F: Files, O: Sink, L: Ledger>(
    alloc: Global,
    session: &mut Session,
    script: &str,
    audience: &mut A,
    files: &mut F,
    out: &mut O,
    steps: &mut Steps<L>,
) -> Result<bool, Ending>
    requires few { length script.now ≤ 16777216 }
    requires none { A.took audience.old [] }
    ensures walked { WalkedBefore (A.took audience.new)
        (settings_of session.old) (readings_of script.now) (status_of result)
        (moment session.old steps.old (A.shown (O.seen out.old)) (F.seen files.old))
        (moment session.new steps.new (A.shown (O.seen out.new)) (F.seen files.new)) }
    ensures settings { settings_of session.new ≡ settings_of session.old }
    ensures files { IsLater (F.seen files.old) (F.seen files.new) }
    ensures out { TellsFault result (A.shown (O.seen out.old)) (A.shown (O.seen out.new)) }
    ensures unused { ((sent : Sent) → A.shown sent ≡ unshown) → out.new ≡ out.old }
{
    let spare = Session::new(alloc, Limits::standard(), None, false);
    let mut desk = Desk::new(alloc, replace(session, spare));
    let ended = carry_out_all(alloc, &mut desk, script, audience, files, out, steps);
    replace(session, desk.close()).discard();
    ended
}

/// How a run over a script ends, as the status of the program.
fn status_of(ended: Result<bool, Ending>) -> u8
    ensures { result ≡ status_of ended }
{
    match ended {
        Ok(false) => 0,
        Ok(true) => 1,
        Err(Ending::Fault) => 4,
        Err(Ending::NoMemory) => 5,
    }
}

/// Runs a script over a session, and writes its reports: 0 where no report is a refusal, 1 where one is, 4 where the
/// output failed, 5 where memory ran out.
pub fn write_reports<F: Files, O: Sink, L: Ledger>(
    alloc: Global,
    session: &mut Session,
    script: &str,
    files: &mut F,
    out: &mut O,
    steps: &mut Steps<L>,
) -> u8
    requires { length script.now ≤ 16777216 }
    ensures walked { Walked (settings_of session.old) (readings_of script.now) result
        (moment session.old steps.old (O.seen out.old) (F.seen files.old))
        (moment session.new steps.new (O.seen out.new) (F.seen files.new)) }
    ensures statuses { (result < 2) ⊎ (result ≡ 4) ⊎ (result ≡ 5) }
    ensures settings { settings_of session.new ≡ settings_of session.old }
    ensures files { IsLater (F.seen files.old) (F.seen files.new) }
    ensures out { IsLaterSink (O.seen out.old) (O.seen out.new) }
    ensures no_fault { result ≢ 4 → (O.seen out.new).faults ≡ (O.seen out.old).faults }
    ensures fault { result ≡ 4 → Rose (O.seen out.old).faults (O.seen out.new).faults }
{
    status_of(walk(alloc, session, script, &mut Writer, files, out, steps))
}
