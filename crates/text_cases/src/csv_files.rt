// CSV files, one a line.
use crate::csv_answers::answer;
use crate::lines::print_answer;
use crate::spelled_bytes::bytes_of;
use beas_core::{ColType, Column, List, Name, NoMemory};
use std::alloc::Global;
use std::{fs, io};

/// Adds a column to a table.
fn add(
    alloc: Global,
    columns: &mut List<Column>,
    name: &str,
    kind: ColType,
) -> Result<(), NoMemory> {
    if let Some(name) = Name::of(alloc, name)? {
        columns.push(Column { name, kind })?;
    }
    Ok(())
}

/// The names and types of the columns that a letter stands for.
fn named(letter: u8) -> &'static [(&'static str, ColType)] {
    match letter {
        b'p' => &[("name", ColType::Words), ("age", ColType::Integer)],
        b'n' => &[("n", ColType::Integer)],
        _ => &[("name", ColType::Words)],
    }
}

/// The columns that a letter stands for.
fn columns_of(alloc: Global, letter: u8) -> Result<List<Column>, NoMemory> {
    let mut columns = List::new(alloc);
    for (name, kind) in named(letter) {
        add(alloc, &mut columns, name, *kind)?;
    }
    Ok(columns)
}

/// What is written for one case.
fn answer_to(alloc: Global, letter: u8, spelled: &[u8]) -> Result<String, NoMemory> {
    let columns = columns_of(alloc, letter)?;
    let bytes = bytes_of(alloc, spelled)?;
    answer(alloc, bytes.as_slice(), &columns)
}

/// Prints what each file gives that a line of a text spells.
fn answer_lines(rt: &HostRuntime, text: &str) -> io::Result<()> {
    for line in text.lines() {
        match line.as_bytes() {
            [b'#', ..] => {}
            [letter, b' ', spelled @ ..] => {
                print_answer(rt, answer_to(rt.alloc(), *letter, spelled))?;
            }
            _ => {}
        }
    }
    Ok(())
}

/// Prints what each file gives that a line of a file of cases spells.
pub fn try_csv(rt: &HostRuntime, path: &str) -> io::Result<()> {
    let text = fs::read_to_string(rt, path)?;
    answer_lines(rt, text.as_str())
}
