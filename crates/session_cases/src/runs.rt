// A run over files and outputs that never fail.
use beas_core::{NoMemory, Steps};
use beas_laws::run_steady;
use outside::{SteadyFiles, SteadySink};
use session::Session;
use std::alloc::Global;
use std::sync::ledger::Ledger;

/// How a run of the script with a name over a session ends, and what it sends.
pub fn run_of<L: Ledger>(
    alloc: Global,
    name: &str,
    session: &mut Session,
    files: &mut SteadyFiles,
    steps: &mut Steps<L>,
) -> Result<String, NoMemory> {
    let mut out = SteadySink::new(alloc);
    let mut words = Vec::new(alloc);
    words.push(String::from_str(alloc, name)?)?;
    let status = run_steady(alloc, session, &words, files, &mut out, steps);
    let sent = str::from_utf8(out.bytes());
    Ok(format!(in alloc; "status {status}, sent {sent:?}")?)
}
