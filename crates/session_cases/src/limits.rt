// Sessions with lowered limits.
ghost use Rattle.std.specs.Prelude.{◌≤◌};

use beas_core::{Limits, Steps, Text};
use drawn_scenes::{files_in, out_of_memory, reports_over, text_in};
use session::Session;
use std::alloc::Global;
use std::io;
use std::sync::ledger::Ledger;

/// The lowered limit where it is the one that is named, and else the limit as it was.
fn limit(named: &str, name: &str, most: u64, before: u64) -> u64
    requires some { 1 ≤ most }
    requires before { 1 ≤ before }
    ensures some { 1 ≤ result }
    ensures within { result ≤ before }
{
    if named == name {
        before.min(most)
    } else {
        before
    }
}

/// The limits with the one that is named lowered.
fn with_limit(limits: &Limits, name: &str, most: u64) -> Limits
    requires { 1 ≤ most }
{
    Limits {
        tables: limit(name, "tables", most, u64::from(limits.tables)) as u32,
        columns: limit(name, "columns", most, u64::from(limits.columns)) as u16,
        constraints: limit(name, "constraints", most, u64::from(limits.constraints)) as u32,
        atoms: limit(name, "atoms", most, u64::from(limits.atoms)) as u16,
        blocks: limit(name, "blocks", most, u64::from(limits.blocks)) as u16,
        outputs: limit(name, "outputs", most, u64::from(limits.outputs)) as u16,
        rows: limit(name, "rows", most, u64::from(limits.rows)) as u32,
        text: limit(name, "text", most, u64::from(limits.text)) as u32,
        file: limit(name, "file", most, limits.file),
    }
}

/// A session without tables, with the limits and the budget that a file of limits has.
fn session_of(alloc: Global, lines: &str) -> Session {
    let mut session = Session::new(alloc, Limits::standard(), None, false);
    for line in lines.lines() {
        if let Some((name, digits)) = line.split_once(' ') {
            let most = digits.parse::<u64>().unwrap_or(1);
            if name == "budget" {
                session.budget = Some(most);
            }
            session.limits = with_limit(&session.limits, name, most.max(1));
        }
    }
    session
}

/// What a session reports of the script of a case.
fn reports_in<L: Ledger>(
    rt: &HostRuntime,
    folder: &str,
    session: &mut Session,
    steps: &mut Steps<L>,
) -> io::Result<Text> {
    let script = text_in(rt, folder, "script.beas")?;
    let mut files = files_in(rt, folder)?;
    reports_over(rt.alloc(), session, &mut files, script.as_str(), steps).map_err(out_of_memory)
}

/// What is reported of a case, by a session without tables.
fn wrote_in<L: Ledger>(rt: &HostRuntime, folder: &str, steps: &mut Steps<L>) -> io::Result<Text> {
    let settings = text_in(rt, folder, "limits")?;
    let mut session = session_of(rt.alloc(), settings.as_str());
    let wrote = reports_in(rt, folder, &mut session, steps);
    session.discard();
    wrote
}

/// Tries a case, and says what it wrote where that isn't as wanted. Whether it is.
pub fn try_case<L: Ledger>(
    rt: &HostRuntime,
    folder: &str,
    steps: &mut Steps<L>,
) -> io::Result<bool> {
    let output = text_in(rt, folder, "output")?;
    let wrote = wrote_in(rt, folder, steps)?;
    if wrote.as_str() == output.as_str() {
        return Ok(true);
    }
    println!(rt; "{folder}: it wrote\n{}", wrote.as_str())?;
    Ok(false)
}
