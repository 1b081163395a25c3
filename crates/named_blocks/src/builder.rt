// Lines read one by one into cases.
use crate::named_case::{NamedBlock, NamedCase, NamedTable, Part};
use crate::words::{columns_at, number_of, operand_of, place_at, sign_of, table_at, value_of};
use crate::wrong::Wrong;
use beas_core::{Access, AccessId, Atom, Block, Comparison, List, Name, Operand, Place, Row, Sign};
use std::alloc::Global;

/// The cases of a text.
pub fn cases_of(alloc: Global, text: &str) -> Result<Vec<NamedCase>, Wrong> {
    let mut cases = Vec::new(alloc);
    let mut number: usize = 0;
    for line in text.lines() {
        number = number.saturating_add(1);
        match read_line(alloc, &mut cases, line) {
            Ok(()) => {}
            Err(Wrong::Line(_)) => return Err(Wrong::Line(number)),
            Err(wrong) => return Err(wrong),
        }
    }
    Ok(cases)
}

fn read_line(alloc: Global, cases: &mut Vec<NamedCase>, line: &str) -> Result<(), Wrong> {
    let words: Vec<&str> = line.split(' ').collect(alloc)?;
    read_words(alloc, cases, &words)
}

fn read_words(alloc: Global, cases: &mut Vec<NamedCase>, words: &[&str]) -> Result<(), Wrong> {
    match words {
        [] => Ok(()),
        [first] if first.is_empty() => Ok(()),
        [first, ..] if first.starts_with('#') => Ok(()),
        [first, name] if *first == "case" => begin_case(alloc, cases, name),
        [first, rest @ ..] => match cases.last_mut() {
            Some(case) => add_line(alloc, case, first, rest),
            None => Err(Wrong::Line(0)),
        },
    }
}

fn begin_case(alloc: Global, cases: &mut Vec<NamedCase>, name: &str) -> Result<(), Wrong> {
    let name = String::from_str(alloc, name)?;
    cases.push(NamedCase::new(alloc, name))?;
    Ok(())
}

fn add_line(alloc: Global, case: &mut NamedCase, first: &str, rest: &[&str]) -> Result<(), Wrong> {
    match first {
        "table" => add_table(alloc, case, rest),
        "row" => add_row(alloc, case, rest),
        "access" => add_access(alloc, case, rest),
        "block" => begin_block(alloc, case),
        "atom" => add_atom(alloc, case, rest),
        "where" => add_condition(alloc, case, rest),
        "output" => set_output(case, rest),
        "union" => add_part(case, Part::Union),
        "except" => add_part(case, Part::Except),
        _ => Err(Wrong::Line(0)),
    }
}

fn copies_of(alloc: Global, words: &[&str]) -> Result<Vec<String>, Wrong> {
    let mut copies = Vec::new(alloc);
    for word in words {
        copies.push(String::from_str(alloc, word)?)?;
    }
    Ok(copies)
}

fn add_table(alloc: Global, case: &mut NamedCase, words: &[&str]) -> Result<(), Wrong> {
    let (name, columns) = match words {
        [name, columns @ ..] => (name, copies_of(alloc, columns)?),
        [] => return Err(Wrong::Line(0)),
    };
    let name = String::from_str(alloc, name)?;
    case.tables.push(NamedTable { name, columns })?;
    case.rows.push(List::new(alloc))?;
    Ok(())
}

fn row_of(alloc: Global, words: &[&str]) -> Result<Row, Wrong> {
    let mut row = List::new(alloc);
    for word in words {
        row.push(value_of(alloc, word)?)?;
    }
    Ok(row)
}

fn add_row(alloc: Global, case: &mut NamedCase, words: &[&str]) -> Result<(), Wrong> {
    let (table, values) = match words {
        [name, values @ ..] => (table_at(case, name)?, values),
        [] => return Err(Wrong::Line(0)),
    };
    let row = row_of(alloc, values)?;
    match case.rows.get_mut(table.0 as usize) {
        Some(rows) => rows.push(row)?,
        None => return Err(Wrong::Line(0)),
    }
    Ok(())
}

fn name_of(alloc: Global, word: &str) -> Result<Name, Wrong> {
    match Name::of(alloc, word)? {
        Some(name) => Ok(name),
        None => Err(Wrong::Line(0)),
    }
}

// The words before `fetch`, and those from it on.
fn key_and_fetched<'a>(words: &'a [&'a str]) -> Result<(&'a [&'a str], &'a [&'a str]), Wrong> {
    match words.iter().position(|word| *word == "fetch") {
        Some(at) => Ok(words.split_at(at)),
        None => Err(Wrong::Line(0)),
    }
}

// ID NAME TABLE LIMIT key COLUMN .. fetch COLUMN ..
fn add_access(alloc: Global, case: &mut NamedCase, words: &[&str]) -> Result<(), Wrong> {
    let (id, name, table, limit, lists) = match words {
        [id, name, table, limit, lists @ ..] => (id, name, table, limit, lists),
        _ => return Err(Wrong::Line(0)),
    };
    let id = AccessId(number_of(id)?);
    let table = table_at(case, table)?;
    let bound = number_of(limit)?;
    let (key, fetched) = key_and_fetched(lists)?;
    let key = columns_at(alloc, case, table, key)?;
    let fetched = columns_at(alloc, case, table, fetched)?;
    let name = name_of(alloc, name)?;
    case.accesses.push(Access {
        id,
        name,
        table,
        key,
        fetched,
        bound,
    })?;
    Ok(())
}

fn begin_block(alloc: Global, case: &mut NamedCase) -> Result<(), Wrong> {
    case.blocks.push(NamedBlock {
        atoms: Vec::new(alloc),
        block: Block {
            atoms: List::new(alloc),
            equalities: List::new(alloc),
            constants: List::new(alloc),
            comparisons: List::new(alloc),
            output: List::new(alloc),
        },
    })?;
    add_part(case, Part::Block)
}

fn add_part(case: &mut NamedCase, part: Part) -> Result<(), Wrong> {
    case.parts.push(part)?;
    Ok(())
}

fn add_atom(alloc: Global, case: &mut NamedCase, words: &[&str]) -> Result<(), Wrong> {
    let (name, table) = match words {
        [name, table] => (name, table_at(case, table)?),
        _ => return Err(Wrong::Line(0)),
    };
    let width = match u16::try_from(case.columns_of(table).len()) {
        Ok(width) => width,
        Err(_) => return Err(Wrong::Line(0)),
    };
    let name = String::from_str(alloc, name)?;
    match case.blocks.last_mut() {
        Some(named) => {
            named.atoms.push(name)?;
            named.block.atoms.push(Atom { table, width })?;
        }
        None => return Err(Wrong::Line(0)),
    }
    Ok(())
}

fn add_condition(alloc: Global, case: &mut NamedCase, words: &[&str]) -> Result<(), Wrong> {
    let (left, sign, right) = match words {
        [left, sign, right] => (
            place_at(case, left)?,
            sign_of(sign)?,
            operand_of(alloc, case, right)?,
        ),
        _ => return Err(Wrong::Line(0)),
    };
    match case.blocks.last_mut() {
        Some(named) => push_condition(&mut named.block, left, sign, right),
        None => Err(Wrong::Line(0)),
    }
}

fn push_condition(block: &mut Block, left: Place, sign: Sign, right: Operand) -> Result<(), Wrong> {
    match (sign, right) {
        (Sign::Equal, Operand::At(place)) => block.equalities.push((left, place))?,
        (Sign::Equal, Operand::Fixed(value)) => block.constants.push((left, value))?,
        (sign, right) => block.comparisons.push(Comparison { left, sign, right })?,
    }
    Ok(())
}

fn set_output(case: &mut NamedCase, words: &[&str]) -> Result<(), Wrong> {
    for word in words {
        let place = place_at(case, word)?;
        push_output(case, place)?;
    }
    Ok(())
}

fn push_output(case: &mut NamedCase, place: Place) -> Result<(), Wrong> {
    match case.blocks.last_mut() {
        Some(named) => named.block.output.push(place)?,
        None => return Err(Wrong::Line(0)),
    }
    Ok(())
}
