//! Tries the cases of the crates of cases, section by section, and prints what comes of them.
//!
//! Each argument names a section, and the sections are tried in this order, each under its name. The cases of a section
//! lie in a file or a folder of its name, in the folder that the program is started in. The crates that try them say
//! what stands there.
//!
//! - `csv`, `arguments`, `streams` and `spellings`: what texts and files are read as, by `text_cases`.
//! - `refusals`, `reports` and `groups`: what is reported, and rows in groups, by `report_cases`.
//! - `columnless`, `named` and `reference`: queries without columns, and named cases by calls and by the reference
//!   programs, by `named_cases`. The cases of the last two are those in `named`.
//! - `scripts`, `calls`, `limits` and `evaluated`: what sessions do, by `session_cases`.
//! - `queries` and `plans`: drawn queries against plain programs, by `drawn_queries`.
//! - `cursors` and `updates`: what cursors answer and what stores keep, by `drawn_stores`.
//!
//! All are in one program, since each program is linked with all that stands below it.
#![tactic(auto)]

ghost use Rattle.std.specs.Prelude.{◌≡◌, ◌<◌};

use beas_core::Steps;
use drawn_queries::{try_plans, try_queries};
use drawn_stores::{try_cursors, try_updates};
use named_cases::{show_reference, try_columnless, try_named};
use report_cases::{try_groups, write_refusals, write_reports};
use session_cases::{make_calls, try_evaluated, try_limits, try_scripts};
use std::marker::Brand;
use std::sync::ledger::{Blank, Ledger};
use std::{env, io};
use text_cases::{try_arguments, try_csv, try_spellings, try_streams};

/// So many rows are grouped at once, a hundred for each key.
const GROUPED_ROWS: u32 = 100_000;

/// So many sessions have drawn queries that lose their columns.
const COLUMNLESS_SESSIONS: u32 = 40;

/// So many sessions answer drawn queries.
const QUERY_SESSIONS: u32 = 200;

/// So many sessions have drawn queries that are prepared, and executed over more constraints.
const PLAN_SESSIONS: u32 = 600;

/// So many sessions have drawn queries that cursors answer.
const CURSOR_SESSIONS: u32 = 40;

/// So many drawn updates are made of narrow tables, and as many of wide ones.
const UPDATES: u32 = 20_000;

/// The file of named cases, by calls and by the reference programs.
const NAMED: &str = "named";

/// Does what a section says, under its name.
fn try_section<L: Ledger>(rt: &HostRuntime, section: &str, steps: &mut Steps<L>) -> io::Result<()> {
    println!(rt; "== {section}")?;
    match section {
        "csv" => try_csv(rt, section),
        "arguments" => try_arguments(rt, section),
        "streams" => try_streams(rt, section),
        "spellings" => try_spellings(rt, section),
        "refusals" => write_refusals(rt),
        "reports" => write_reports(rt),
        "groups" => try_groups(rt, section, GROUPED_ROWS),
        "columnless" => try_columnless(rt, COLUMNLESS_SESSIONS, steps),
        "named" => try_named(rt, NAMED, steps),
        "reference" => show_reference(rt, NAMED),
        "scripts" => try_scripts(rt, section),
        "calls" => make_calls(rt, section, steps),
        "limits" => try_limits(rt, section, steps),
        "evaluated" => try_evaluated(rt, section, steps),
        "queries" => try_queries(rt, QUERY_SESSIONS, steps),
        "plans" => try_plans(rt, PLAN_SESSIONS, steps),
        "cursors" => try_cursors(rt, section, CURSOR_SESSIONS, steps),
        "updates" => try_updates(rt, UPDATES, steps),
        _ => println!(rt; "no such section"),
    }
}

/// Does all sections, with one counter of reads.
fn run_counted<L: Ledger>(rt: &HostRuntime, blank: Blank) -> io::Result<()>
    requires name { blank.name ≡ L.name }
    requires parts { blank.parts ≡ L.parts }
    requires some { 0 < blank.parts }
{
    let mut steps = Steps::<L>::start(blank);
    for section in env::args(rt)?.skip(1) {
        try_section(rt, section.as_str(), &mut steps)?;
    }
    Ok(())
}

fn main(rt: HostRuntime) -> io::Result<()> {
    run_counted::<Brand>(&rt, Blank::new(1))
}
