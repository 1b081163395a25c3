// Scripts as the program runs them.
ghost use Rattle.std.specs.Prelude.{◌≡◌, ◌<◌};

use crate::cases::{Case, cases_of};
use crate::puts::Puts;
use beas_core::{Bytes, Limits, Steps, Text};
use beas_run::run;
use drawn_scenes::out_of_memory;
use outside::{MemoryFiles, MemorySink, Sink};
use session::Session;
use std::alloc::Global;
use std::io;
use std::marker::Brand;
use std::sync::ledger::{Blank, Ledger};

/// The most lengths at which the output of one case is let fail.
const LENGTHS: usize = 400;

/// The most lengths at which the output of a demonstration is let fail.
const DEMONSTRATION_LENGTHS: usize = 4;

/// What a run left.
#[derive(Drop)]
struct Ending {
    status: u8,
    out: MemorySink,
    err: MemorySink,
}

/// The case's files in memory.
fn files_of(alloc: Global, case: &Case) -> io::Result<MemoryFiles> {
    let mut files = MemoryFiles::new(alloc);
    for file in case.files.iter() {
        let name = Text::from_str(alloc, file.name.as_str()).map_err(out_of_memory)?;
        let bytes = Bytes::from_vec(file.bytes.to_vec(alloc)?);
        files.add(name, bytes).map_err(out_of_memory)?;
    }
    if let Some(call) = case.failing_read {
        files.fail_at(call).map_err(out_of_memory)?;
    }
    Ok(files)
}

/// Runs the script that comes before, if there is one, over an output that takes everything.
fn run_before<L: Ledger>(
    alloc: Global,
    case: &Case,
    session: &mut Session,
    files: &mut MemoryFiles,
    steps: &mut Steps<L>,
) {
    if case.arguments_before.is_empty() {
        return;
    }
    let mut out = MemorySink::new(alloc);
    let mut err = MemorySink::new(alloc);
    run(
        alloc,
        session,
        &case.arguments_before,
        files,
        &mut out,
        &mut err,
        steps,
    );
}

/// Runs a case over a session without tables and this output, with a counter of its own and a standard error that fails
/// after so many bytes. It gives the status, and what was said on standard error.
fn run_counted<O: Sink, L: Ledger>(
    alloc: Global,
    case: &Case,
    out: &mut O,
    error_total: u64,
    blank: Blank,
) -> io::Result<(u8, MemorySink)>
    requires name { blank.name ≡ L.name }
    requires parts { blank.parts ≡ L.parts }
    requires some { 0 < blank.parts }
{
    let mut files = files_of(alloc, case)?;
    let mut err = MemorySink::new(alloc);
    err.fail_after(error_total);
    let mut steps = Steps::<L>::start(blank);
    let mut session = Session::new(alloc, Limits::standard(), None, false);
    run_before(alloc, case, &mut session, &mut files, &mut steps);
    let status = run(
        alloc,
        &mut session,
        &case.arguments,
        &mut files,
        out,
        &mut err,
        &mut steps,
    );
    session.discard();
    Ok((status, err))
}

/// Runs a case over an output and a standard error that fail after so many bytes each.
fn run_case(alloc: Global, case: &Case, total: u64, error_total: u64) -> io::Result<Ending> {
    let mut out = MemorySink::new(alloc);
    out.fail_after(total);
    let (status, err) = run_counted::<MemorySink, Brand>(
        alloc,
        case,
        &mut out,
        error_total,
        Blank::new(1),
    )?;
    Ok(Ending { status, out, err })
}

/// The first put of a run of the case that isn't one report, or a second one of a demonstration.
fn wrong_put(alloc: Global, case: &Case) -> io::Result<Option<usize>> {
    let mut out = Puts::new(alloc);
    run_counted::<Puts, Brand>(alloc, case, &mut out, u64::MAX, Blank::new(1))?;
    if case.is_demonstration {
        return Ok(out.second_put());
    }
    out.wrong_put(alloc)
}

/// Whether a run of the case is as it is to be, over an output with room for just what is wanted.
fn is_as_wanted(alloc: Global, case: &Case) -> io::Result<bool> {
    let ending = run_case(alloc, case, case.output.len() as u64, u64::MAX)?;
    let status = ending.status == case.status;
    let out = ending.out.bytes() == case.output.as_slice();
    let err = ending.err.bytes() == case.error.as_slice();
    Ok(status && out && err)
}

/// How far apart the lengths are at which the output of a case is let fail.
fn step_of(case: &Case) -> usize
    ensures { 0 < result }
{
    let length = case.output.len();
    if case.is_demonstration {
        return length / DEMONSTRATION_LENGTHS + 1;
    }
    length / LENGTHS + 1
}

/// The first length at which the output fails otherwise than it is to.
fn wrong_length(alloc: Global, case: &Case) -> io::Result<Option<usize>> {
    for total in (0..case.output.len()).step_by(step_of(case)) {
        let ending = run_case(alloc, case, total as u64, u64::MAX)?;
        let is_prefix = case.output.starts_with(ending.out.bytes())
            && ending.out.bytes().len() == total;
        if ending.status != 4 || !is_prefix {
            return Ok(Some(total));
        }
    }
    Ok(None)
}

/// The first length at which standard error fails otherwise than it is to.
fn wrong_error_length(alloc: Global, case: &Case) -> io::Result<Option<usize>> {
    for total in 0..case.error.len() {
        let ending = run_case(alloc, case, u64::MAX, total as u64)?;
        let is_prefix = case.error.starts_with(ending.err.bytes())
            && ending.err.bytes().len() == total;
        if ending.status != case.status || !is_prefix {
            return Ok(Some(total));
        }
    }
    Ok(None)
}

/// Tries a case, and says where it goes wrong. Whether it went well.
fn try_case(rt: &HostRuntime, case: &Case) -> io::Result<bool> {
    let name = case.name.as_str();
    if !is_as_wanted(rt.alloc(), case)? {
        let ending = run_case(rt.alloc(), case, u64::MAX, u64::MAX)?;
        let wrote = String::from_utf8_lossy(rt.alloc(), ending.out.bytes())?;
        println!(rt; "{name}: status {}, and it wrote\n{wrote}", ending.status)?;
        return Ok(false);
    }
    if let Some(number) = wrong_put(rt.alloc(), case)? {
        println!(rt; "{name}: put {number} isn't one report")?;
        return Ok(false);
    }
    if let Some(total) = wrong_length(rt.alloc(), case)? {
        println!(rt; "{name}: wrong where the output fails after {total} bytes")?;
        return Ok(false);
    }
    if let Some(total) = wrong_error_length(rt.alloc(), case)? {
        println!(rt; "{name}: wrong where standard error fails after {total} bytes")?;
        return Ok(false);
    }
    Ok(true)
}

/// Tries the cases of a folder, and says how many were as wanted.
pub fn try_scripts(rt: &HostRuntime, folder: &str) -> io::Result<()> {
    let cases = cases_of(rt, folder)?;
    let mut well = 0_usize;
    for case in cases.iter() {
        if try_case(rt, case)? {
            well = well.saturating_add(1);
        }
    }
    println!(rt; "{well} of {} cases as wanted", cases.len())
}
