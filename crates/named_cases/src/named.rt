// Named cases, prepared and executed.
use crate::input::{error_of, say_wrong};
use crate::outcomes::{Outcome, more, outcome_of};
use crate::scripts::script_of;
use beas_core::{Access, Limits, NoMemory, Steps};
use drawn_scenes::reports;
use named_blocks::{NamedCase, Wrong, cases_of};
use session::{Session, Store};
use std::alloc::Global;
use std::sync::ledger::Ledger;
use std::{fs, io};

/// What came of some cases.
#[derive(Clone, Copy)]
struct Tally {
    answered: u32,
    refused: u32,
    misshapen: u32,
    differing: u32,
}

impl Tally {
    fn with(self, outcome: Outcome) -> Tally {
        let is_answered = matches!(outcome, Outcome::Answered { .. });
        let is_refused = matches!(outcome, Outcome::Uncovered | Outcome::TooLarge);
        let is_misshapen = matches!(outcome, Outcome::Misshapen);
        let is_wanted = is_answered || is_refused || is_misshapen;
        Tally {
            answered: more(self.answered, is_answered),
            refused: more(self.refused, is_refused),
            misshapen: more(self.misshapen, is_misshapen),
            differing: more(self.differing, !is_wanted),
        }
    }
}

fn is_access(left: &Access, right: &Access) -> bool {
    left.id == right.id
        && left.table == right.table
        && left.key == right.key
        && left.fetched == right.fetched
        && left.bound == right.bound
}

/// Whether a store has the constraints of a case.
fn has_accesses(guarded: &Store, case: &NamedCase) -> bool {
    let live = guarded.catalogue.accesses().as_slice();
    let wanted = case.accesses.as_slice();
    live.len() == wanted.len()
        && live
            .iter()
            .zip(wanted)
            .all(|(one, other)| is_access(one, other))
}

/// Has a session without tables make those of a case, with its constraints and rows. True where it has them as they
/// are.
fn fill<L: Ledger>(
    alloc: Global,
    session: &mut Session,
    case: &NamedCase,
    steps: &mut Steps<L>,
) -> Result<bool, NoMemory> {
    let script = script_of(alloc, case)?;
    let lines = reports(alloc, session, script.as_str(), steps)?;
    Ok(!lines.as_str().contains("refused") && has_accesses(&session.guarded, case))
}

/// What comes of a case over a session without tables, which gets those of the case.
fn try_over<L: Ledger>(
    alloc: Global,
    session: &mut Session,
    case: &NamedCase,
    steps: &mut Steps<L>,
) -> Result<Outcome, Wrong> {
    if !fill(alloc, session, case, steps)? {
        return Ok(Outcome::Differs);
    }
    let query = case.query(alloc)?;
    let guarded = &session.guarded;
    Ok(outcome_of(alloc, guarded, &case.rows, query, u128::MAX, steps)?)
}

/// What comes of a case.
fn try_case<L: Ledger>(
    alloc: Global,
    case: &NamedCase,
    steps: &mut Steps<L>,
) -> Result<Outcome, Wrong> {
    let mut session = Session::new(alloc, Limits::standard(), None, false);
    let outcome = try_over(alloc, &mut session, case, steps);
    session.discard();
    outcome
}

/// The line of a case.
fn line_of(alloc: Global, case: &NamedCase, outcome: Outcome) -> Result<String, NoMemory> {
    let name = case.name.as_str();
    Ok(match outcome {
        Outcome::Answered { bound, reads, rows } => {
            format!(in alloc; "{name}: number {bound}, {reads} reads, {rows} rows")?
        }
        Outcome::Uncovered => format!(in alloc; "{name}: not covered")?,
        Outcome::TooLarge => format!(in alloc; "{name}: number past 128 bits")?,
        Outcome::Misshapen => format!(in alloc; "{name}: of a wrong shape")?,
        _ => format!(in alloc; "{name}: differs")?,
    })
}

/// Tries a case, prints its line, and adds it to what came of the others.
fn print_case<L: Ledger>(
    rt: &HostRuntime,
    case: &NamedCase,
    before: Tally,
    steps: &mut Steps<L>,
) -> io::Result<Tally> {
    let outcome = try_case(rt.alloc(), case, steps).map_err(error_of)?;
    let line = line_of(rt.alloc(), case, outcome).map_err(|why| error_of(Wrong::from(why)))?;
    println!(rt; "{line}")?;
    Ok(before.with(outcome))
}

/// Tries the cases, and prints a line for each and one that sums them up.
fn print_cases<L: Ledger>(
    rt: &HostRuntime,
    cases: &[NamedCase],
    steps: &mut Steps<L>,
) -> io::Result<()> {
    let mut tally = Tally {
        answered: 0,
        refused: 0,
        misshapen: 0,
        differing: 0,
    };
    for case in cases.iter() {
        tally = print_case(rt, case, tally, steps)?;
    }
    let Tally {
        answered,
        refused,
        misshapen,
        differing,
    } = tally;
    println!(rt;
        "named cases: {answered} answered, {refused} refused, {misshapen} of a wrong shape, {differing} differences"
    )
}

/// Tries the cases of a file, and prints a line for each and one that sums them up.
pub fn try_named<L: Ledger>(rt: &HostRuntime, path: &str, steps: &mut Steps<L>) -> io::Result<()> {
    let text = fs::read_to_string(rt, path)?;
    match cases_of(rt.alloc(), text.as_str()) {
        Ok(cases) => print_cases(rt, &cases, steps),
        Err(wrong) => say_wrong(rt, wrong),
    }
}
