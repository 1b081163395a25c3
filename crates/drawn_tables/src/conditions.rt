// Drawn conditions, as they are spelled and as tests of a row.
use crate::draws::Draws;
use crate::tables::{COLUMNS, Fact, VALUES, column_name, push_all, push_literal};
use beas_core::{NoMemory, Sign, Text};
use std::alloc::Global;

/// A comparison of a column with a column of its type or with a value. It is a test of a row where all is of one atom.
#[derive(Clone, Copy)]
pub struct Test {
    left: u8,
    sign: Sign,
    right: Option<u8>,
    number: u8,
}

/// A sign, and how it is spelled. Half of all are `=`.
fn draw_sign(draws: &mut Draws) -> (Sign, &'static str) {
    match draws.below(10) {
        0 => (Sign::Differs, " <> "),
        1 => (Sign::Less, " < "),
        2 => (Sign::AtMost, " <= "),
        3 => (Sign::More, " > "),
        4 => (Sign::AtLeast, " >= "),
        _ => (Sign::Equal, " = "),
    }
}

/// Adds a column of one of some atoms.
pub fn push_column(
    text: &mut Text,
    draws: &mut Draws,
    aliases: &[&str],
    column: u8,
) -> Result<(), NoMemory> {
    let place = draws.below((aliases.len().min(9) as u8).max(1));
    let alias = aliases.get(usize::from(place)).copied().unwrap_or("r");
    text.push_str(alias)?;
    push_all(text, &[".", column_name(column)])
}

/// Adds a drawn condition on some atoms, and gives its test.
fn push_condition(
    alloc: Global,
    text: &mut Text,
    draws: &mut Draws,
    aliases: &[&str],
) -> Result<Test, NoMemory> {
    let left = draws.below(COLUMNS);
    let (sign, spelled) = draw_sign(draws);
    push_column(text, draws, aliases, left)?;
    text.push_str(spelled)?;
    let number = draws.below(VALUES);
    let mut right = None;
    if draws.below(2) == 0 {
        let column = left / 2 * 2 + draws.below(2);
        push_column(text, draws, aliases, column)?;
        right = Some(column);
    } else {
        push_literal(alloc, text, left, number)?;
    }
    Ok(Test {
        left,
        sign,
        right,
        number,
    })
}

/// Adds drawn conditions on some atoms, and gives their tests.
pub fn push_conditions(
    alloc: Global,
    text: &mut Text,
    draws: &mut Draws,
    aliases: &[&str],
    count: u8,
) -> Result<Vec<Test>, NoMemory> {
    let mut tests = Vec::new(alloc);
    for place in 0..count {
        text.push_str(if place == 0 { " WHERE " } else { " AND " })?;
        tests.push(push_condition(alloc, text, draws, aliases)?)?;
    }
    Ok(tests)
}

impl Test {
    /// Whether a row passes.
    pub(crate) fn passes(&self, row: &Fact) -> bool {
        let left = row.at(self.left);
        let right = match self.right {
            Some(column) => row.at(column),
            None => self.number,
        };
        match self.sign {
            Sign::Equal => left == right,
            Sign::Differs => left != right,
            Sign::Less => left < right,
            Sign::AtMost => left <= right,
            Sign::More => left > right,
            Sign::AtLeast => left >= right,
        }
    }
}
