// A refusal of each text.
use crate::writing::{Stop, Unmade, name, write};
use beas_core::{Counted, List, Name, NoMemory, Refusal, Row, Text, Value};
use report::Report;
use std::alloc::Global;

/// The refusals that hold no text, by their place in this list.
fn of_numbers(place: u32) -> Refusal {
    match place {
        0 => Refusal::Syntax,
        1 => Refusal::TooDeep,
        2 => Refusal::MixedTypes {
            block: 2,
            condition: 5,
        },
        3 => Refusal::ShapeMismatch { block: 2 },
        4 => Refusal::AlreadyBroken {
            needed: 7,
            bound: 6,
        },
        5 => Refusal::WrongWidth {
            row: 2,
            found: 1,
            wanted: 3,
        },
        6 => Refusal::RecordWidth {
            nth: 1,
            found: 2,
            wanted: 3,
        },
        7 => Refusal::HeaderMismatch,
        8 => Refusal::NotCovered {
            block: 1,
            atom: 2,
            column: None,
        },
        9 => Refusal::TooLarge,
        10 => Refusal::OverBudget {
            bound: u128::MAX,
            budget: 314_999,
        },
        11 => Refusal::NeedsDistinct,
        12 => Refusal::FileTooLong { limit: 67_108_864 },
        13 => Refusal::TextTooLong { limit: 65_535 },
        14 => Refusal::TooManyCandidates { found: 17 },
        15 => Refusal::SessionBusy { session: 1 },
        _ => Refusal::SessionIdle { session: 64 },
    }
}

/// The refusals that hold a name, by their place in this list.
fn of_name(place: u32, name: Name) -> Refusal {
    match place {
        0 => Refusal::TableExists { name },
        1 => Refusal::UnknownTable { name },
        2 => Refusal::UnknownColumn {
            table: None,
            column: name,
        },
        3 => Refusal::Ambiguous { column: name },
        4 => Refusal::DuplicateName { name },
        5 => Refusal::WrongType {
            row: 3,
            column: name,
        },
        6 => Refusal::BadField {
            nth: 11,
            column: name,
        },
        7 => Refusal::NotCovered {
            block: 1,
            atom: 2,
            column: Some(name),
        },
        8 => Refusal::UnknownAccess { name },
        9 => Refusal::NotGrouped { column: name },
        _ => Refusal::SumOfText { column: name },
    }
}

/// The refusals that hold a text as it was written, by their place in this list.
fn of_text(place: u32, written: Text) -> Refusal {
    match place {
        0 => Refusal::BadLimit { digits: written },
        1 => Refusal::NumberRange {
            negative: false,
            digits: written,
        },
        2 => Refusal::NumberRange {
            negative: true,
            digits: written,
        },
        3 => Refusal::Unreadable { file: written },
        _ => Refusal::BadSession { digits: written },
    }
}

const WRITTEN: [&str; 5] = [
    "007",
    "9223372036854775808",
    "9223372036854775809",
    "it's\n.csv",
    "065",
];

const COUNTED: [Counted; 7] = [
    Counted::Tables,
    Counted::Columns,
    Counted::Constraints,
    Counted::Atoms,
    Counted::Blocks,
    Counted::Outputs,
    Counted::Rows,
];

fn key_of_two(alloc: Global) -> Result<Row, NoMemory> {
    let text = Value::Str(Text::from_str(alloc, "O'Hara, \"J\"")?);
    Ok(List::from_vec(vec![in alloc; Value::Int(i64::MIN), text]?))
}

/// A row that breaks a constraint at a key.
fn broken_at(alloc: Global, key: Row) -> Result<Refusal, Unmade> {
    let access = name(alloc, "d1")?;
    Ok(Refusal::BreaksBound {
        row: 4,
        access,
        key,
    })
}

/// A column that a table lacks.
fn lacking_column(alloc: Global) -> Result<Refusal, Unmade> {
    let table = Some(name(alloc, "t")?);
    let column = name(alloc, "c")?;
    Ok(Refusal::UnknownColumn { table, column })
}

fn refuse(rt: &HostRuntime, why: Refusal) -> Result<(), Stop> {
    write(rt, Report::Refused { why })
}

fn write_those_of_numbers(rt: &HostRuntime) -> Result<(), Stop> {
    for place in 0..17 {
        refuse(rt, of_numbers(place))?;
    }
    Ok(())
}

fn write_those_of_names(rt: &HostRuntime) -> Result<(), Stop> {
    for place in 0..11 {
        refuse(rt, of_name(place, name(rt.alloc(), "n_1")?))?;
    }
    Ok(())
}

fn write_those_of_texts(rt: &HostRuntime) -> Result<(), Stop> {
    for place in 0..5 {
        let text = Text::from_str(rt.alloc(), WRITTEN[place])?;
        refuse(rt, of_text(place as u32, text))?;
    }
    Ok(())
}

fn write_those_of_limits(rt: &HostRuntime) -> Result<(), Stop> {
    for what in COUNTED {
        refuse(rt, Refusal::TooMany { what, limit: 64 })?;
    }
    Ok(())
}

fn write_that_of_a_column(rt: &HostRuntime) -> Result<(), Stop> {
    let why = lacking_column(rt.alloc())?;
    refuse(rt, why)
}

fn write_that_of_a_key(rt: &HostRuntime, key: Row) -> Result<(), Stop> {
    let why = broken_at(rt.alloc(), key)?;
    refuse(rt, why)
}

pub fn write_all(rt: &HostRuntime) -> Result<(), Stop> {
    write_those_of_numbers(rt)?;
    write_those_of_names(rt)?;
    write_those_of_texts(rt)?;
    write_those_of_limits(rt)?;
    write_that_of_a_column(rt)?;
    write_that_of_a_key(rt, List::new(rt.alloc()))?;
    write_that_of_a_key(rt, key_of_two(rt.alloc())?)
}
