// Runs over files and sinks that never fail. Scripts with what is to be written for them are in `cases/data/scripts`.
ghost use Rattle.std.specs.Prelude.{◌≡◌, ℕ, List, [], Some, map, unwrap_or};
ghost use Rattle.std.specs.String.{string_bytes};
ghost use Rattle.outside.specs.Contents.{content_of};
ghost use Rattle.session.specs.Applying.{settings_of};
ghost use Rattle.beas_laws.specs.Loads.{NoneFailed, steady, steady_out};
ghost use Rattle.beas_run.specs.Runs.{script_name, Completes, CompletesWithout};
ghost use Rattle.beas_run.specs.Walks.{moment};

use beas_core::Steps;
use beas_run::run;
use outside::{SteadyFiles, SteadySink};
use session::Session;
use std::alloc::Global;
use std::sync::ledger::Ledger;

/// A run over the steady kinds, which never fail: it has no fault to end with, no load of a file fails and no report
/// says of a file that it can't be read, and every script that may be run is run, unless memory runs out.
pub fn run_steady<L: Ledger>(
    alloc: Global,
    session: &mut Session,
    arguments: &[String],
    files: &mut SteadyFiles,
    out: &mut SteadySink,
    steps: &mut Steps<L>,
) -> u8
    ensures read { result ≡ 3 → ⊥ }
    ensures sent { result ≡ 4 → ⊥ }
    ensures complete { (name : List ℕ) → script_name (map string_bytes arguments.now) ≡ Some name
        → Completes (unwrap_or (content_of files.old.shelf name) []) result }
    ensures complete_without { (name : List ℕ) → script_name (map string_bytes arguments.now) ≡ Some name
        → CompletesWithout (unwrap_or (content_of files.old.shelf name) []) result }
    ensures loads { NoneFailed (map string_bytes arguments.now) result
        (settings_of session.old) (settings_of session.new)
        (moment session.old steps.old (steady_out out.old) (steady files.old))
        (moment session.new steps.new (steady_out out.new) (steady files.new)) }
{
    let mut err = SteadySink::new(alloc);
    run(alloc, session, arguments, files, out, &mut err, steps)
}
