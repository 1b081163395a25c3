// A report of each kind, and the records of answers.
use crate::writing::{Stop, Unmade, name, write};
use aggregate::Cell;
use beas_core::{List, Name, NoMemory, Row, Text, Value};
use report::Report;
use std::alloc::Global;

fn push_name(alloc: Global, names: &mut List<Name>, text: &str) -> Result<(), Unmade> {
    Ok(names.push(name(alloc, text)?)?)
}

fn names(alloc: Global, texts: &[&str]) -> Result<List<Name>, Unmade> {
    let mut names = List::new(alloc);
    for text in texts {
        push_name(alloc, &mut names, text)?;
    }
    Ok(names)
}

/// A row of a number and a text.
fn row(alloc: Global, number: i64, text: &str) -> Result<Row, NoMemory> {
    let text = Value::Str(Text::from_str(alloc, text)?);
    Ok(List::from_vec(vec![in alloc; Value::Int(number), text]?))
}

fn push_row(alloc: Global, rows: &mut List<Row>, number: i64, text: &str) -> Result<(), NoMemory> {
    rows.push(row(alloc, number, text)?)
}

fn rows(alloc: Global, pairs: &[(i64, &str)]) -> Result<List<Row>, NoMemory> {
    let mut rows = List::new(alloc);
    for (number, text) in pairs {
        push_row(alloc, &mut rows, *number, text)?;
    }
    Ok(rows)
}

/// A row of a text.
fn text_row(alloc: Global, text: &str) -> Result<Row, NoMemory> {
    let text = Value::Str(Text::from_str(alloc, text)?);
    Ok(List::from_vec(vec![in alloc; text]?))
}

/// Two rows of one text each, of which the first is empty.
fn single_texts(alloc: Global) -> Result<List<Row>, NoMemory> {
    let empty = text_row(alloc, "")?;
    let other = text_row(alloc, "x")?;
    Ok(List::from_vec(vec![in alloc; empty, other]?))
}

/// Texts that a record writes as they are, and texts that it writes in quotes.
const RECORDS: [(i64, &str); 9] = [
    (i64::MIN, "plain"),
    (-1, ""),
    (0, " O'Hara "),
    (1, "a,b"),
    (2, "say \"so\""),
    (3, "two\nlines"),
    (4, "a\rreturn"),
    (5, "\""),
    (i64::MAX, "Zoë €"),
];

fn pair(alloc: Global, left: &str, right: &str, count: u32) -> Result<(Name, Name, u32), Unmade> {
    let left = name(alloc, left)?;
    let right = name(alloc, right)?;
    Ok((left, right, count))
}

fn pairs(alloc: Global) -> Result<List<(Name, Name, u32)>, Unmade> {
    let mut found = List::new(alloc);
    found.push(pair(alloc, "b", "a", 1)?)?;
    found.push(pair(alloc, "a", "b", 4_294_967_295)?)?;
    Ok(found)
}

/// One row without columns.
fn row_of_nothing(alloc: Global) -> Result<List<Row>, NoMemory> {
    Ok(List::from_vec(vec![in alloc; List::new(alloc)]?))
}

fn explanation(alloc: Global, plan: &str) -> Result<Report, NoMemory> {
    let plan = Text::from_str(alloc, plan)?;
    Ok(Report::Explained {
        bound: 315_000,
        plan,
    })
}

fn answer(alloc: Global, plan: &str, header: &[&str], rows: List<Row>) -> Result<Report, Unmade> {
    let plan = Text::from_str(alloc, plan)?;
    let header = names(alloc, header)?;
    Ok(Report::Answered {
        bound: 315_000,
        plan,
        header,
        rows,
        reads: u128::MAX,
    })
}

/// Adds a row of groups: a value, a count and a sum.
fn push_cells(
    alloc: Global,
    rows: &mut List<List<Cell>>,
    text: &str,
    count: u64,
    sum: i128,
) -> Result<(), NoMemory> {
    let value = Cell::Plain(Value::Str(Text::from_str(alloc, text)?));
    let cells = vec![in alloc; value, Cell::Count(count), Cell::Sum(sum)]?;
    rows.push(List::from_vec(cells))
}

fn group_rows(alloc: Global) -> Result<List<List<Cell>>, NoMemory> {
    let mut rows = List::new(alloc);
    push_cells(alloc, &mut rows, "a,b", u64::MAX, i128::MIN)?;
    push_cells(alloc, &mut rows, "", 1, i128::MAX)?;
    push_cells(alloc, &mut rows, "x", 0, 0)?;
    Ok(rows)
}

fn push_text(alloc: Global, texts: &mut List<Text>, text: &str) -> Result<(), NoMemory> {
    texts.push(Text::from_str(alloc, text)?)
}

fn group_header(alloc: Global) -> Result<List<Text>, NoMemory> {
    let mut header = List::new(alloc);
    push_text(alloc, &mut header, "city")?;
    push_text(alloc, &mut header, "count(cid)")?;
    push_text(alloc, &mut header, "sum(cid)")?;
    Ok(header)
}

fn groups(alloc: Global, plan: &str) -> Result<Report, NoMemory> {
    let plan = Text::from_str(alloc, plan)?;
    let header = group_header(alloc)?;
    let rows = group_rows(alloc)?;
    Ok(Report::Grouped {
        bound: 315_000,
        plan,
        header,
        rows,
        reads: u128::MAX,
    })
}

fn push_place(
    alloc: Global,
    places: &mut List<(u32, Name)>,
    atom: u32,
    column: &str,
) -> Result<(), Unmade> {
    Ok(places.push((atom, name(alloc, column)?))?)
}

fn wanted(alloc: Global, columns: &[(u32, &str)]) -> Result<Report, Unmade> {
    let mut places = List::new(alloc);
    for (atom, column) in columns {
        push_place(alloc, &mut places, *atom, column)?;
    }
    Ok(Report::Specialised {
        places: Some(places),
    })
}

/// The reports that hold no names and no rows, by their place in this list.
fn of_numbers(place: u32) -> Report {
    match place {
        0 => Report::Done,
        1 => Report::Changed { rows: 1 },
        2 => Report::Greatest { most: 7 },
        3 => Report::Specialised { places: None },
        4 => Report::Opened {
            session: 64,
            bound: u128::MAX,
        },
        _ => Report::Probed { session: 1 },
    }
}

/// Writes those of numbers from one place to before another.
fn write_those_of_numbers(rt: &HostRuntime, from: u32, to: u32) -> Result<(), Stop> {
    for place in from..to {
        write(rt, of_numbers(place))?;
    }
    Ok(())
}

fn write_pairs(rt: &HostRuntime) -> Result<(), Stop> {
    let found = List::new(rt.alloc());
    write(rt, Report::Pairs { found })?;
    let found = pairs(rt.alloc())?;
    write(rt, Report::Pairs { found })
}

fn write_explanation(rt: &HostRuntime) -> Result<(), Stop> {
    write(
        rt,
        explanation(rt.alloc(), "plan block 1\nplan answer 1\n")?,
    )
}

fn write_answer(
    rt: &HostRuntime,
    plan: &str,
    header: &[&str],
    rows: List<Row>,
) -> Result<(), Stop> {
    write(rt, answer(rt.alloc(), plan, header, rows)?)
}

fn write_answers(rt: &HostRuntime) -> Result<(), Stop> {
    let alloc = rt.alloc();
    write_answer(rt, "", &["cid", "city"], rows(alloc, &RECORDS)?)?;
    write_answer(rt, "plan answer 1\n", &["b"], List::new(alloc))?;
    write_answer(rt, "", &["b"], single_texts(alloc)?)?;
    write_answer(rt, "", &[], row_of_nothing(alloc)?)
}

fn write_groups(rt: &HostRuntime, plan: &str) -> Result<(), Stop> {
    write(rt, groups(rt.alloc(), plan)?)
}

fn write_wanted(rt: &HostRuntime, columns: &[(u32, &str)]) -> Result<(), Stop> {
    write(rt, wanted(rt.alloc(), columns)?)
}

pub fn write_all(rt: &HostRuntime) -> Result<(), Stop> {
    write_those_of_numbers(rt, 0, 3)?;
    write_pairs(rt)?;
    write_explanation(rt)?;
    write_answers(rt)?;
    write_groups(rt, "")?;
    write_groups(rt, "plan answer 1\n")?;
    write_wanted(rt, &[(1, "year"), (16, "month")])?;
    write_wanted(rt, &[])?;
    write_those_of_numbers(rt, 3, 6)
}
