// Cases that a person worked out, as folders of files.
use crate::turns::{Turned, turned_query};
use beas_core::{Fail, Limits, NoMemory, Steps, Text};
use drawn_scenes::{names_in, out_of_memory, reports, text_in};
use session::Session;
use std::alloc::Global;
use std::io;
use std::sync::ledger::Ledger;

/// What a cursor gave of a query, told in words.
fn told(alloc: Global, turned: Turned) -> Result<String, NoMemory> {
    if !turned.agrees {
        return Ok(String::from_str(alloc, "not as executed")?);
    }
    Ok(format!(in alloc;
        "{} probes {} rows {} reads",
        turned.probes, turned.rows, turned.reads
    )?)
}

/// What came of a query, told in words.
fn told_outcome(alloc: Global, outcome: &Result<Turned, Fail>) -> Result<String, NoMemory> {
    match outcome {
        Ok(turned) => told(alloc, *turned),
        Err(Fail::Refused(why)) => Ok(format!(in alloc; "refused {}", why.number())?),
        Err(Fail::NoMemory) => Err(NoMemory),
    }
}

/// What came of the query that a text spells, told in words.
fn told_of<L: Ledger>(
    alloc: Global,
    session: &Session,
    spelled: &str,
    steps: &mut Steps<L>,
) -> Result<String, NoMemory> {
    let outcome = turned_query(alloc, session, spelled, steps);
    let told = told_outcome(alloc, &outcome);
    drop(outcome);
    told
}

/// Adds the line of a query.
fn push_line<L: Ledger>(
    alloc: Global,
    session: &Session,
    lines: &mut Text,
    spelled: &str,
    steps: &mut Steps<L>,
) -> Result<(), NoMemory> {
    lines.push_str(told_of(alloc, session, spelled, steps)?.as_str())?;
    lines.push_str("\n")
}

/// Adds the lines of queries, each of which is on a line of its own.
fn push_lines<L: Ledger>(
    alloc: Global,
    session: &Session,
    lines: &mut Text,
    queries: &str,
    steps: &mut Steps<L>,
) -> Result<(), NoMemory> {
    for spelled in queries.lines() {
        push_line(alloc, session, lines, spelled, steps)?;
    }
    Ok(())
}

/// The lines of some queries over the store that a session makes of a script.
fn lines_by<L: Ledger>(
    alloc: Global,
    session: &mut Session,
    script: &str,
    queries: &str,
    steps: &mut Steps<L>,
) -> Result<Text, NoMemory> {
    reports(alloc, session, script, steps)?;
    let mut lines = Text::new(alloc);
    push_lines(alloc, session, &mut lines, queries, steps)?;
    Ok(lines)
}

/// The same by a session that is made for them.
fn lines_over<L: Ledger>(
    alloc: Global,
    script: &str,
    queries: &str,
    steps: &mut Steps<L>,
) -> Result<Text, NoMemory> {
    let mut session = Session::new(alloc, Limits::standard(), None, false);
    let lines = lines_by(alloc, &mut session, script, queries, steps);
    session.discard();
    lines
}

/// The lines of the case of a folder.
fn lines_in<L: Ledger>(rt: &HostRuntime, folder: &str, steps: &mut Steps<L>) -> io::Result<Text> {
    let script = text_in(rt, folder, "script.beas")?;
    let queries = text_in(rt, folder, "queries")?;
    lines_over(rt.alloc(), script.as_str(), queries.as_str(), steps).map_err(out_of_memory)
}

/// Whether the lines of a case are as wanted; where they aren't, it says what they are.
fn are_wanted(rt: &HostRuntime, folder: &str, name: &str, said: &str) -> io::Result<bool> {
    let wanted = text_in(rt, folder, "output")?;
    if said == wanted.as_str() {
        return Ok(true);
    }
    println!(rt; "{name}:\n{said}")?;
    Ok(false)
}

/// Tries the case of a folder. True where its lines are as wanted.
fn try_case<L: Ledger>(
    rt: &HostRuntime,
    folder: &str,
    name: &str,
    steps: &mut Steps<L>,
) -> io::Result<bool> {
    let path = format!(in rt.alloc(); "{folder}/{name}")?;
    let lines = lines_in(rt, path.as_str(), steps)?;
    are_wanted(rt, path.as_str(), name, lines.as_str())
}

/// Tries all cases, and says how many were as wanted.
pub fn try_named<L: Ledger>(
    rt: &HostRuntime,
    folder: &str,
    steps: &mut Steps<L>,
) -> io::Result<()> {
    let names = names_in(rt, folder, true)?;
    let mut well: usize = 0;
    for name in names.iter() {
        if try_case(rt, folder, name.as_str(), steps)? {
            well = well.saturating_add(1);
        }
    }
    println!(rt; "{well} of {} named cases as wanted", names.len())
}
