// Queries whose answers a person worked out.
use beas_core::{Fail, Limits, List, NoMemory, Refusal, Row, Steps, Text};
use drawn_scenes::{bound_query, files_in, out_of_memory, report_by, reports_over, text_in};
use full_meaning::{evaluate, plain_store};
use report::{Report, text};
use session::Session;
use std::alloc::Global;
use std::io;
use std::sync::ledger::Ledger;
use update_guard::Guarded;

/// What a session reports of queries, and whether each report agrees with `evaluate`.
#[derive(Drop)]
struct Lines {
    said: Text,
    agree: bool,
}

/// The rows that `evaluate` gives for a query.
fn rows_of<L: Ledger>(
    alloc: Global,
    plain: &Guarded,
    spelled: &str,
    steps: &mut Steps<L>,
) -> Result<List<Row>, Fail> {
    let query = bound_query(alloc, &plain.catalogue, spelled)?;
    Ok(evaluate(alloc, plain, &query, steps)?)
}

/// Whether a report has these rows, if it is of an answer.
fn has_rows(report: &Report, given: &List<Row>) -> bool {
    match report {
        Report::Answered { rows, .. } => rows == given,
        _ => true,
    }
}

/// Whether a report is a refusal with the number of this one.
fn is_refused_as(report: &Report, why: &Refusal) -> bool {
    match report {
        Report::Refused { why: said } => said.number() == why.number(),
        _ => false,
    }
}

/// Whether the report of a query agrees with what `evaluate` gives: it has the same rows, if it is of an answer, and it
/// is a refusal where the query can't be bound.
fn agrees_with(report: &Report, given: &Result<List<Row>, Fail>) -> Result<bool, NoMemory> {
    match given {
        Ok(rows) => Ok(has_rows(report, rows)),
        Err(Fail::Refused(why)) => Ok(is_refused_as(report, why)),
        Err(Fail::NoMemory) => Err(NoMemory),
    }
}

/// Whether the report of a query agrees with `evaluate`.
fn agrees<L: Ledger>(
    alloc: Global,
    plain: &Guarded,
    spelled: &str,
    report: &Report,
    steps: &mut Steps<L>,
) -> Result<bool, NoMemory> {
    let given = rows_of(alloc, plain, spelled, steps);
    let agrees = agrees_with(report, &given);
    drop(given);
    agrees
}

impl Lines {
    /// Adds the lines of a report.
    fn push(&mut self, alloc: Global, number: u32, report: &Report) -> Result<(), NoMemory> {
        self.said.push_str(text(alloc, number, report)?.as_str())
    }

    /// Adds the report of a query, which has this number.
    fn add_report<L: Ledger>(
        &mut self,
        alloc: Global,
        plain: &Guarded,
        number: u32,
        spelled: &str,
        report: &Report,
        steps: &mut Steps<L>,
    ) -> Result<(), NoMemory> {
        self.push(alloc, number, report)?;
        self.agree &= agrees(alloc, plain, spelled, report, steps)?;
        Ok(())
    }

    /// Has a session answer a query, and adds what it reports.
    fn add<L: Ledger>(
        &mut self,
        alloc: Global,
        session: &mut Session,
        plain: &Guarded,
        number: u32,
        spelled: &str,
        steps: &mut Steps<L>,
    ) -> Result<(), NoMemory> {
        let report = report_by(alloc, session, spelled, steps)?;
        let added = self.add_report(alloc, plain, number, spelled, &report, steps);
        drop(report);
        added
    }
}

/// The lines of queries, each on a line of its own, over a session's store and a plain one with the same rows.
fn lines_by<L: Ledger>(
    alloc: Global,
    session: &mut Session,
    plain: &Guarded,
    queries: &str,
    steps: &mut Steps<L>,
) -> Result<Lines, NoMemory> {
    let mut lines = Lines {
        said: Text::new(alloc),
        agree: true,
    };
    let mut number: u32 = 0;
    for spelled in queries.lines() {
        number = number.saturating_add(1);
        lines.add(alloc, session, plain, number, spelled, steps)?;
    }
    Ok(lines)
}

/// The lines of queries. Where the store can't be made anew there are none, and they don't agree.
fn lines_of<L: Ledger>(
    alloc: Global,
    session: &mut Session,
    queries: &str,
    steps: &mut Steps<L>,
) -> Result<Lines, NoMemory> {
    let store = &session.guarded;
    match plain_store(alloc, &store.catalogue, store.rows.as_slice(), steps)? {
        Some(plain) => {
            let lines = lines_by(alloc, session, &plain, queries, steps);
            plain.discard();
            lines
        }
        None => Ok(Lines {
            said: Text::new(alloc),
            agree: false,
        }),
    }
}

/// Has a session carry out a script, which loads the files of a folder.
fn run_script<L: Ledger>(
    rt: &HostRuntime,
    folder: &str,
    session: &mut Session,
    script: &str,
    steps: &mut Steps<L>,
) -> io::Result<()> {
    let mut files = files_in(rt, folder)?;
    let said = reports_over(rt.alloc(), session, &mut files, script, steps);
    drop(files);
    said.map_err(out_of_memory)?;
    Ok(())
}

/// Has a session carry out the script of a case.
fn make_store<L: Ledger>(
    rt: &HostRuntime,
    folder: &str,
    session: &mut Session,
    steps: &mut Steps<L>,
) -> io::Result<()> {
    let script = text_in(rt, folder, "script.beas")?;
    run_script(rt, folder, session, script.as_str(), steps)
}

/// The lines of the queries of a case over the store that a session has.
fn lines_over<L: Ledger>(
    rt: &HostRuntime,
    folder: &str,
    session: &mut Session,
    steps: &mut Steps<L>,
) -> io::Result<Lines> {
    let queries = text_in(rt, folder, "queries")?;
    lines_of(rt.alloc(), session, queries.as_str(), steps).map_err(out_of_memory)
}

/// The lines of the queries of a case over the store that a session makes by its script.
fn lines_by_session<L: Ledger>(
    rt: &HostRuntime,
    folder: &str,
    session: &mut Session,
    steps: &mut Steps<L>,
) -> io::Result<Lines> {
    make_store(rt, folder, session, steps)?;
    lines_over(rt, folder, session, steps)
}

/// The same by a session that is made for it.
fn lines_in<L: Ledger>(rt: &HostRuntime, folder: &str, steps: &mut Steps<L>) -> io::Result<Lines> {
    let mut session = Session::new(rt.alloc(), Limits::standard(), None, false);
    let lines = lines_by_session(rt, folder, &mut session, steps);
    session.discard();
    lines
}

/// Whether the lines are as wanted. Where they aren't, it says what they are.
fn is_wanted(rt: &HostRuntime, folder: &str, lines: &Lines) -> io::Result<bool> {
    let output = text_in(rt, folder, "output")?;
    let said = lines.said.as_str();
    if said == output.as_str() && lines.agree {
        return Ok(true);
    }
    let agree = lines.agree;
    println!(rt;
        "{folder}: that evaluate gives the same rows is {agree}, the session reports\n{said}"
    )?;
    Ok(false)
}

/// Tries the case of a folder. True where its lines are as wanted.
pub fn try_case<L: Ledger>(
    rt: &HostRuntime,
    folder: &str,
    steps: &mut Steps<L>,
) -> io::Result<bool> {
    let lines = lines_in(rt, folder, steps)?;
    is_wanted(rt, folder, &lines)
}
