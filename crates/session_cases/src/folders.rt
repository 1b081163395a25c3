// Folders of cases that sessions try one by one.
use crate::{evaluated, limits};
use beas_core::Steps;
use drawn_scenes::names_in;
use std::io;
use std::sync::ledger::Ledger;

/// What a case tries.
#[derive(Clone, Copy)]
enum Tried {
    Limits,
    Evaluated,
}

/// Tries a case. Whether it went well.
fn try_case<L: Ledger>(
    rt: &HostRuntime,
    tried: Tried,
    folder: &str,
    steps: &mut Steps<L>,
) -> io::Result<bool> {
    match tried {
        Tried::Limits => limits::try_case(rt, folder, steps),
        Tried::Evaluated => evaluated::try_case(rt, folder, steps),
    }
}

/// Tries all cases of a folder, and says how many of what it has were as wanted.
fn try_cases<L: Ledger>(
    rt: &HostRuntime,
    tried: Tried,
    folder: &str,
    what: &str,
    steps: &mut Steps<L>,
) -> io::Result<()> {
    let names = names_in(rt, folder, true)?;
    let mut well: usize = 0;
    for name in names.iter() {
        let path = format!(in rt.alloc(); "{folder}/{name}")?;
        if try_case(rt, tried, path.as_str(), steps)? {
            well = well.saturating_add(1);
        }
    }
    println!(rt; "{well} of {} cases of {what} as wanted", names.len())
}

/// Has sessions with lowered limits carry out the scripts of a folder, and says how many cases were as wanted.
pub fn try_limits<L: Ledger>(
    rt: &HostRuntime,
    folder: &str,
    steps: &mut Steps<L>,
) -> io::Result<()> {
    try_cases(rt, Tried::Limits, folder, "limits", steps)
}

/// Has sessions answer the queries of a folder, and says how many cases were as wanted.
pub fn try_evaluated<L: Ledger>(
    rt: &HostRuntime,
    folder: &str,
    steps: &mut Steps<L>,
) -> io::Result<()> {
    try_cases(rt, Tried::Evaluated, folder, "evaluated queries", steps)
}
