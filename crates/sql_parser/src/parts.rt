// The small parts of statements, and lists of them.
ghost use Rattle.std.specs.Prelude.{◌≡◌, if◌then◌else◌, List, Option, ◌∷◌, [], Ok, Err, codes, length};
ghost use Rattle.token_reader.specs.Reading.{GivesWithRest, read_id, starts_quoted};
ghost use Rattle.sql_parser.specs.Reading.{read_commas, read_list, read_column, read_kind, read_signed, read_literal, read_tuple, read_ref, read_ref_after, read_maybe_ids, then_close};
ghost use Rattle.sql_text.specs.Symbols.{Symbol};

use crate::numbers::significant_digits;
use beas_core::{ColType, Column, List as Items, Name};
use sql_text::{ColumnRef, Literal};
use std::alloc::Global;
use token_reader::{ReadError, Reader};

/// What stands in lists with commas between.
pub trait Part: Drop {
    /// What is read from the front of some tokens, and the tokens after it.
    ghost reads: { List Symbol → Option (Self × List Symbol) };

    /// Reads a part and goes after it. Where the tokens don't begin with one, that is an error in the syntax.
    fn read(reader: &mut Reader, alloc: Global) -> Result<Self, ReadError>
        ensures { GivesWithRest result reader.new (reads reader.old) };
}

/// Reads one or more parts with commas between. Each takes a token or more.
pub fn commas<T: Part>(reader: &mut Reader, alloc: Global) -> Result<Items<T>, ReadError>
    ensures { GivesWithRest result reader.new (read_list T.reads reader.old) }
{
    let mut parts = Items::new(alloc);
    let mut room = reader.tokens_left();
    while room > 0 {
        room -= 1;
        let part = T::read(reader, alloc)?;
        parts.push(part)?;
        if !reader.take_mark(",") {
            return Ok(parts);
        }
    }
    Err(ReadError::Syntax)
}

/// What was read, unless something is wrong with it.
pub fn unless<T: Drop>(is_wrong: bool, found: T) -> Result<T, ReadError>
    ensures { result ≡ (if is_wrong then Err ReadError.Syntax else Ok found) }
{
    if is_wrong {
        return Err(ReadError::Syntax);
    }
    Ok(found)
}

impl Part for Name {
    ghost reads = { read_id };

    fn read(reader: &mut Reader, alloc: Global) -> Result<Name, ReadError> {
        reader.name(alloc)
    }
}

/// Reads names, or none before a closing parenthesis.
#[tactic(auto, unfolding(crate::specs::Reading::read_maybe_ids))]
pub fn maybe_names(reader: &mut Reader, alloc: Global) -> Result<Items<Name>, ReadError>
    ensures { GivesWithRest result reader.new (read_maybe_ids reader.old) }
{
    if reader.next_is_mark(")") {
        return Ok(Items::new(alloc));
    }
    commas::<Name>(reader, alloc)
}

#[tactic(auto, unfolding(crate::specs::Reading::read_kind))]
fn column_kind(reader: &mut Reader) -> Result<ColType, ReadError>
    ensures { GivesWithRest result reader.new (read_kind reader.old) }
{
    if reader.take_word("integer") || reader.take_word("int") {
        return Ok(ColType::Integer);
    }
    if reader.take_word("text") {
        return Ok(ColType::Words);
    }
    Err(ReadError::Syntax)
}

impl Part for Column {
    ghost reads = { read_column };

    #[tactic(auto, unfolding(crate::specs::Reading::read_column))]
    fn read(reader: &mut Reader, alloc: Global) -> Result<Column, ReadError> {
        let name = reader.name(alloc)?;
        let kind = column_kind(reader)?;
        Ok(Column { name, kind })
    }
}

#[tactic(auto, unfolding(crate::specs::Reading::read_signed))]
fn signed_number(reader: &mut Reader, alloc: Global, negative: bool) -> Result<Literal, ReadError>
    ensures { GivesWithRest result reader.new (read_signed negative reader.old) }
{
    let written = reader.number(alloc)?;
    let digits = significant_digits(alloc, written)?;
    let negative = negative && digits.as_str() != "0";
    Ok(Literal::Number { negative, digits })
}

impl Part for Literal {
    ghost reads = { read_literal };

    #[tactic(auto, unfolding(crate::specs::Reading::read_literal))]
    fn read(reader: &mut Reader, alloc: Global) -> Result<Literal, ReadError> {
        if reader.next_is_quoted() {
            let text = reader.quoted_text(alloc)?;
            return Ok(Literal::Words { text });
        }
        if reader.take_mark("-") {
            return signed_number(reader, alloc, true);
        }
        // A plus changes nothing.
        reader.take_mark("+");
        signed_number(reader, alloc, false)
    }
}

impl Part for Items<Literal> {
    ghost reads = { read_tuple };

    #[tactic(auto, unfolding(crate::specs::Reading::read_tuple, crate::specs::Reading::then_close))]
    fn read(reader: &mut Reader, alloc: Global) -> Result<Items<Literal>, ReadError> {
        reader.want_mark("(")?;
        let literals = commas::<Literal>(reader, alloc)?;
        reader.want_mark(")")?;
        Ok(literals)
    }
}

/// Reads what stands after the first name of a column.
pub fn column_after(reader: &mut Reader, alloc: Global, first: Name) -> Result<ColumnRef, ReadError>
    ensures { GivesWithRest result reader.new (read_ref_after first reader.old) }
{
    if !reader.take_mark(".") {
        return Ok(ColumnRef {
            table: None,
            column: first,
        });
    }
    let column = reader.name(alloc)?;
    Ok(ColumnRef {
        table: Some(first),
        column,
    })
}

impl Part for ColumnRef {
    ghost reads = { read_ref };

    #[tactic(auto, unfolding(crate::specs::Reading::read_ref))]
    fn read(reader: &mut Reader, alloc: Global) -> Result<ColumnRef, ReadError> {
        let first = reader.name(alloc)?;
        column_after(reader, alloc, first)
    }
}
