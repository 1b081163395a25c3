// The whole run: from the arguments to the status of the program.
ghost use Rattle.std.specs.Prelude.{◌≡◌, ◌<◌, ◌≤◌, ◌⊎◌, None, length, map};
ghost use Rattle.std.specs.String.{string_bytes};
ghost use Rattle.session.specs.Applying.{settings_of};
ghost use Rattle.beas_run.specs.Runs.{path_of, script_name, standing, HasRun, IsComplete};
ghost use Rattle.beas_run.specs.Sources.{IsMade, RanOver};
ghost use Rattle.beas_run.specs.Walks.{moment};

use crate::demonstration::write_totals;
use crate::no_script::say;
use crate::script::write_reports;
use crate::script_source::source_of;
use beas_core::Steps;
use command_line::Args;
use outside::{Files, Sink};
use session::Session;
use std::alloc::Global;
use std::sync::ledger::Ledger;

/// Carries out the pieces of a text, by the settings and in the way that are asked for.
fn run_over<F: Files, O: Sink, L: Ledger>(
    alloc: Global,
    session: &mut Session,
    args: &Args,
    text: &str,
    files: &mut F,
    out: &mut O,
    steps: &mut Steps<L>,
) -> u8
    requires short { length text.now ≤ 16777216 }
    requires made { IsMade args.now text.now }
    ensures ran { RanOver args.now text.now session.old.limits result (settings_of session.new)
        (moment session.old steps.old (O.seen out.old) (F.seen files.old))
        (moment session.new steps.new (O.seen out.new) (F.seen files.new)) }
    ensures unused { path_of args.now ≡ None → files.new ≡ files.old }
{
    match args {
        Args::Script {
            budget,
            explain,
            ..
        } => {
            session.budget = *budget;
            session.explain = *explain;
            write_reports(alloc, session, text, files, out, steps)
        }
        Args::Demo {
            budget,
            explain,
            ..
        } => {
            session.budget = *budget;
            session.explain = *explain;
            write_totals(alloc, session, text, out, steps)
        }
    }
}

/// Runs what `words`, the arguments after the program's name, ask for over a session, and gives the status of the
/// program: 0 and 1 where the script was carried out whole, without a refusal and with one; 2 where the arguments are
/// refused; 3 where the script can't be read; 4 where `out` failed; 5 where memory ran out; 6 where the script is
/// longer than 16,777,216 bytes; 7 where it is not UTF-8. Each report is put to `out` before the next piece; of a
/// demonstration one line of totals at its end.
///
/// A piece may name a session, as in `@2 SELECT ..` or `@2 STEP`. Its query is then opened, and goes on by one probe a
/// step, over the rows of its opening; all others are carried out whole. Queries that are open at the end are dropped.
pub fn run<F: Files, O: Sink, E: Sink, L: Ledger>(
    alloc: Global,
    session: &mut Session,
    words: &[String],
    files: &mut F,
    out: &mut O,
    err: &mut E,
    steps: &mut Steps<L>,
) -> u8
    // What was sent, read and changed is the meaning of the script, as its pieces are read, or as far as the run came.
    // Each status has its cause, and what stays.
    ensures ran { let before = standing session.old steps.old (O.seen out.old) (E.seen err.old) (F.seen files.old) in
        let after = standing session.new steps.new (O.seen out.new) (E.seen err.new) (F.seen files.new) in
        HasRun (map string_bytes words.now) result before after }

    // A script that can be loaded is run, as far as memory and the output let it.
    ensures complete { let before = standing session.old steps.old (O.seen out.old) (E.seen err.old) (F.seen files.old) in
        let after = standing session.new steps.new (O.seen out.new) (E.seen err.new) (F.seen files.new) in
        IsComplete (map string_bytes words.now) result before after }

    // A run with a script puts nothing to `err`, and one without puts nothing to `out`. Where the arguments name no file,
    // none is loaded.
    ensures err_unused { (result < 2) ⊎ (result ≡ 4) → err.new ≡ err.old }
    ensures out_unused { (result ≡ 2) ⊎ (result ≡ 3) ⊎ (result ≡ 6) ⊎ (result ≡ 7) → out.new ≡ out.old }
    ensures files_unused { script_name (map string_bytes words.now) ≡ None → files.new ≡ files.old }
{
    match source_of(alloc, words, files) {
        Ok(source) => {
            let text = source.text.as_str();
            run_over(alloc, session, &source.args, text, files, out, steps)
        }
        Err(why) => say(why, err),
    }
}
