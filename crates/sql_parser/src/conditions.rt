// Conditions. Parentheses around them leave no trace.
ghost use Rattle.std.specs.Prelude.{◌≡◌, ◌&&◌, ◌∷◌, [], ◌++◌, codes, length};
ghost use Rattle.token_reader.specs.Reading.{GivesWithRest, starts_id, sign_of, read_sign};
ghost use Rattle.sql_text.specs.Grammar.{is_literal};
ghost use Rattle.sql_parser.specs.Alone.{alone};
ghost use Rattle.sql_parser.specs.Reading.{Adds, after, then_close, read_side, read_ends, read_range, read_sign_and_side, read_comparison, read_simple, read_condition, read_conditions, read_all_conditions, read_where};

use crate::parts::{Part, column_after, unless};
use beas_core::{List, Sign};
use sql_text::{Cond, Literal, Side};
use std::alloc::Global;
use token_reader::{ReadError, Reader};

#[tactic(auto, unfolding(crate::specs::Reading::read_side, crate::specs::Reading::read_ref))]
fn side(reader: &mut Reader, alloc: Global) -> Result<Side, ReadError>
    ensures { GivesWithRest result reader.new (read_side reader.old) }
{
    if let Some(first) = reader.maybe_name(alloc)? {
        let column = column_after(reader, alloc, first)?;
        return Ok(Side::Column(column));
    }
    let literal = Literal::read(reader, alloc)?;
    Ok(Side::Fixed(literal))
}

/// Reads the two ends of a range.
#[tactic(auto, unfolding(crate::specs::Reading::read_ends))]
fn ends(reader: &mut Reader, alloc: Global) -> Result<(Side, Side), ReadError>
    ensures { GivesWithRest result reader.new (read_ends reader.old) }
{
    let low = side(reader, alloc)?;
    reader.want_word("and")?;
    let high = side(reader, alloc)?;
    Ok((low, high))
}

/// Reads what stands after BETWEEN, and adds the condition.
#[inline(never)]
fn range(
    reader: &mut Reader,
    alloc: Global,
    value: Side,
    found: &mut List<Cond>,
) -> Result<(), ReadError>
    ensures { Adds result found.new reader.new
        (after found.old (alone (read_range value reader.old))) }
{
    let Side::Column(value) = value else {
        return Err(ReadError::Syntax);
    };
    let (low, high) = ends(reader, alloc)?;
    found.push(Cond::Between { value, low, high })?;
    Ok(())
}

/// Reads the sign and the right side of a comparison.
#[tactic(auto, unfolding(crate::specs::Reading::read_sign_and_side))]
fn sign_and_side(reader: &mut Reader, alloc: Global) -> Result<(Sign, Side), ReadError>
    ensures { GivesWithRest result reader.new (read_sign_and_side reader.old) }
{
    let sign = reader.sign()?;
    let right = side(reader, alloc)?;
    Ok((sign, right))
}

fn are_literals(left: &Side, right: &Side) -> bool
    ensures { result ≡ (is_literal left.now && is_literal right.now) }
{
    is_literal(left) && is_literal(right)
}

fn is_literal(side: &Side) -> bool
    ensures { result ≡ is_literal side.now }
{
    match side {
        Side::Fixed(_) => true,
        Side::Column(_) => false,
    }
}

/// Reads the sign and the right side of a comparison, and adds it.
fn comparison(
    reader: &mut Reader,
    alloc: Global,
    left: Side,
    found: &mut List<Cond>,
) -> Result<(), ReadError>
    ensures { Adds result found.new reader.new
        (after found.old (alone (read_comparison left reader.old))) }
{
    let (sign, right) = sign_and_side(reader, alloc)?;
    let is_wrong = are_literals(&left, &right);
    let condition = unless(is_wrong, Cond::Compare { left, sign, right })?;
    found.push(condition)?;
    Ok(())
}

/// Reads a condition without parentheses around it, and adds it.
#[tactic(auto, unfolding(crate::specs::Reading::read_simple, crate::specs::Reading::after))]
fn simple_condition(
    reader: &mut Reader,
    alloc: Global,
    found: &mut List<Cond>,
) -> Result<(), ReadError>
    ensures { Adds result found.new reader.new
        (after found.old (alone (read_simple reader.old))) }
{
    let left = side(reader, alloc)?;
    if reader.take_word("between") {
        return range(reader, alloc, left, found);
    }
    comparison(reader, alloc, left, found)
}

#[cycle(conditions)]
#[tactic(auto, unfolding(crate::specs::Reading::read_condition, crate::specs::Reading::then_close, crate::specs::Reading::after))]
fn condition(
    reader: &mut Reader,
    alloc: Global,
    room: usize,
    found: &mut List<Cond>,
) -> Result<(), ReadError>
    ensures { Adds result found.new reader.new (after found.old (read_condition (read_conditions room) reader.old)) }
{
    if reader.take_mark("(") {
        some_conditions(reader, alloc, room, found)?;
        reader.want_mark(")")?;
        return Ok(());
    }
    simple_condition(reader, alloc, found)
}

/// Reads conditions with AND between, no more than there is room for.
#[cycle(conditions)]
fn some_conditions(
    reader: &mut Reader,
    alloc: Global,
    mut room: usize,
    found: &mut List<Cond>,
) -> Result<(), ReadError>
    ensures { Adds result found.new reader.new (after found.old (read_conditions room reader.old)) }
{
    while room > 0 {
        room -= 1;
        condition(reader, alloc, room, found)?;
        if !reader.take_word("and") {
            return Ok(());
        }
    }
    Err(ReadError::Syntax)
}

/// Reads conditions with AND between, and adds them to those that were found before.
pub fn conditions(
    reader: &mut Reader,
    alloc: Global,
    found: &mut List<Cond>,
) -> Result<(), ReadError>
    ensures { Adds result found.new reader.new (after found.old (read_all_conditions reader.old)) }
{
    let room = reader.tokens_left();
    some_conditions(reader, alloc, room, found)
}

/// Reads the conditions after WHERE, where it stands there, and adds them.
#[tactic(auto, unfolding(crate::specs::Reading::read_where, crate::specs::Reading::after))]
pub fn where_conditions(
    reader: &mut Reader,
    alloc: Global,
    found: &mut List<Cond>,
) -> Result<(), ReadError>
    ensures { Adds result found.new reader.new (after found.old (read_where reader.old)) }
{
    if !reader.take_word("where") {
        return Ok(());
    }
    conditions(reader, alloc, found)
}
