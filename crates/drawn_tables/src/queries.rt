// Drawn queries.
ghost use Rattle.std.specs.Prelude.{◌≤◌};

use crate::conditions::{push_column, push_conditions};
use crate::draws::Draws;
use crate::tables::{TABLES, comma, push_all, table_name};
use beas_core::{NoMemory, Text};
use std::alloc::Global;

/// Adds the columns of an output, each of one of some atoms and of its type.
fn push_outputs(
    text: &mut Text,
    draws: &mut Draws,
    aliases: &[&str],
    are_texts: &[bool],
) -> Result<(), NoMemory> {
    for (place, is_text) in are_texts.iter().enumerate() {
        let column = u8::from(*is_text) * 2 + draws.below(2);
        text.push_str(comma(place))?;
        push_column(text, draws, aliases, column)?;
    }
    Ok(())
}

/// What a block is in a query: all of it; a part without a guide; or a part that has one, on the right of an EXCEPT.
#[derive(Clone, Copy)]
enum Role {
    Whole,
    Part,
    WithGuide,
}

impl Role {
    /// What a block on the left of a UNION or an EXCEPT in its place is, and one on the right of a UNION.
    fn beside(self) -> Role {
        match self {
            Role::WithGuide => Role::WithGuide,
            _ => Role::Part,
        }
    }

    /// How many atoms a block has. Most parts have one, so that they are covered, those with a guide from its output.
    fn draw_atoms(self, draws: &mut Draws) -> u8
        ensures some { 1 ≤ result }
        ensures few { result ≤ 3 }
    {
        let count = draws.below(3).min(draws.below(3)) + 1;
        let is_one = match self {
            Role::Whole => false,
            Role::Part => draws.below(8) > 0,
            Role::WithGuide => draws.below(16) > 0,
        };
        if is_one { 1 } else { count }
    }

    /// The table of an atom. In most scenes blocks over r alone are covered by themselves, and few others are.
    fn draw_table(self, draws: &mut Draws) -> u8 {
        match self {
            Role::Whole => draws.below(TABLES),
            Role::Part => draws.below(16).saturating_sub(13),
            Role::WithGuide => draws.below(8).min(1) + draws.below(2),
        }
    }

    /// How many conditions a block has. One that may be a guide has few, so that it has answers.
    fn draw_conditions(self, draws: &mut Draws) -> u8 {
        match self {
            Role::Whole => draws.below(5),
            Role::Part => draws.below(2),
            Role::WithGuide => draws.below(3),
        }
    }
}

fn push_atoms(
    text: &mut Text,
    draws: &mut Draws,
    aliases: &[&str],
    role: Role,
) -> Result<(), NoMemory> {
    text.push_str(" FROM ")?;
    for (place, alias) in aliases.iter().enumerate() {
        let table = table_name(role.draw_table(draws));
        push_all(text, &[comma(place), table, " "])?;
        text.push_str(alias)?;
    }
    Ok(())
}

/// Adds a block whose output has columns of these types.
fn push_block(
    alloc: Global,
    text: &mut Text,
    draws: &mut Draws,
    are_texts: &[bool],
    role: Role,
) -> Result<(), NoMemory> {
    let count = role.draw_atoms(draws);
    let aliases = &["x", "y", "z"][..usize::from(count)];
    text.push_str("SELECT DISTINCT ")?;
    push_outputs(text, draws, aliases, are_texts)?;
    push_atoms(text, draws, aliases, role)?;
    let count = role.draw_conditions(draws);
    push_conditions(alloc, text, draws, aliases, count)?;
    Ok(())
}

/// The most UNION and EXCEPT that stand one inside the other.
const DEEPEST: u8 = 3;

/// Adds a query whose output has columns of these types, and in which at most `depth` UNION and EXCEPT stand one inside
/// the other. Its left side goes without parentheses, since they are grouped from the left.
fn push_query(
    alloc: Global,
    text: &mut Text,
    draws: &mut Draws,
    are_texts: &[bool],
    role: Role,
    depth: u8,
) -> Result<(), NoMemory> {
    if depth == 0 {
        return push_block(alloc, text, draws, are_texts, role);
    }
    let beside = role.beside();
    let (sign, right) = match draws.below(8) {
        0 => return push_block(alloc, text, draws, are_texts, role),
        1..=2 => (" UNION (", beside),
        _ => (" EXCEPT (", Role::WithGuide),
    };
    push_query(alloc, text, draws, are_texts, beside, depth - 1)?;
    text.push_str(sign)?;
    push_query(alloc, text, draws, are_texts, right, depth - 1)?;
    text.push_str(")")
}

/// The text of a query over the tables of `creations`, of one to eight blocks with one to three columns. Each block is
/// over one to three atoms and has at most four conditions. Many are on the right of an EXCEPT.
pub fn draw_query(alloc: Global, draws: &mut Draws) -> Result<Text, NoMemory> {
    let depth = draws.below(DEEPEST + 1);
    let types = [
        draws.below(2) == 0,
        draws.below(2) == 0,
        draws.below(2) == 0,
    ];
    let types = &types[..usize::from(draws.below(3) + 1)];
    let mut text = Text::new(alloc);
    push_query(alloc, &mut text, draws, types, Role::Whole, depth)?;
    Ok(text)
}
