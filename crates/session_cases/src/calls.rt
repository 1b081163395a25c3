// Calls that no script makes by themselves, a line each.
use crate::files::Shelves;
use crate::outputs::Outputs;
use crate::runs::run_of;
use crate::table::Table;
use beas_core::{Limits, NoMemory, Steps};
use session::Session;
use std::alloc::Global;
use std::sync::ledger::Ledger;
use std::{fs, io};

/// What the calls are made on.
#[derive(Drop)]
struct Scene {
    shelves: Shelves,
    outputs: Outputs,
    table: Table,
}

/// A number, 0 where a word is none.
fn number_of(word: &str) -> u32 {
    word.parse::<u32>().unwrap_or(0)
}

/// What a call gives, told in words.
fn answer_to<L: Ledger>(
    alloc: Global,
    scene: &mut Scene,
    session: &mut Session,
    call: (&str, &str, &str),
    steps: &mut Steps<L>,
) -> Result<String, NoMemory> {
    let (name, first, second) = call;
    let number = number_of(first);
    match name {
        "add" => scene.shelves.add(alloc, first, second),
        "fail" => scene.shelves.fail(alloc, number),
        "read" => scene.shelves.load(alloc, first, number_of(second)),
        "faults" => scene.shelves.faults(alloc, first),
        "put" => scene.outputs.put(alloc, first),
        "full" => scene.outputs.fail_after(alloc, u64::from(number)),
        "sent" => scene.outputs.line(alloc),
        "run" => run_of(alloc, first, session, &mut scene.shelves.steady, steps),
        _ => {
            scene.table.change(alloc, name, first, number_of(second))?;
            scene.table.line(alloc, steps)
        }
    }
}

/// The first two words of a text, and what comes after them.
fn call_of(line: &str) -> (&str, &str, &str) {
    let (name, rest) = line.split_once(' ').unwrap_or((line, ""));
    let (first, second) = rest.split_once(' ').unwrap_or((rest, ""));
    (name, first, second)
}

/// Makes the calls of a text, one after another.
fn answer_all<L: Ledger>(
    rt: &HostRuntime,
    text: &str,
    scene: &mut Scene,
    session: &mut Session,
    steps: &mut Steps<L>,
) -> io::Result<()> {
    let alloc = rt.alloc();
    for line in text.lines() {
        if !line.starts_with('#') {
            match answer_to(alloc, scene, session, call_of(line), steps) {
                Ok(said) => println!(rt; "{said}")?,
                Err(NoMemory) => println!(rt; "out of memory")?,
            }
        }
    }
    Ok(())
}

/// The same over one session that is made for them.
fn answer_text<L: Ledger>(rt: &HostRuntime, text: &str, steps: &mut Steps<L>) -> io::Result<()> {
    let alloc = rt.alloc();
    let mut scene = Scene {
        shelves: Shelves::new(alloc),
        outputs: Outputs::new(alloc),
        table: Table::new(alloc),
    };
    let mut session = Session::new(alloc, Limits::standard(), None, false);
    let ended = answer_all(rt, text, &mut scene, &mut session, steps);
    session.discard();
    ended
}

/// Makes the calls of a file over one session, and prints what each gives.
pub fn make_calls<L: Ledger>(rt: &HostRuntime, path: &str, steps: &mut Steps<L>) -> io::Result<()> {
    let text = fs::read_to_string(rt, path)?;
    answer_text(rt, text.as_str(), steps)
}
