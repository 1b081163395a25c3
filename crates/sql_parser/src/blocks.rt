// Blocks: a head, which is SELECT with its items, and a body, which is the FROM items and conditions.
ghost use Rattle.std.specs.Prelude.{◌≡◌, ◌∷◌, [], ◌++◌, IfOk, codes, length};
ghost use Rattle.token_reader.specs.Reading.{GivesWithRest};
ghost use Rattle.sql_parser.specs.Reading.{Adds, after, after_both, read_alias, read_item, read_joined, read_crossed, starts_join, read_join, read_joins, read_source, read_sources, read_output, read_head, read_body, read_block};

use crate::conditions::{conditions, where_conditions};
use crate::parts::commas;
use beas_core::{Duplicate, List, Name, NoMemory};
use sql_text::{BlockTree, ColumnRef, Cond, FromItem};
use std::alloc::Global;
use token_reader::{ReadError, Reader};

#[tactic(auto, unfolding(crate::specs::Reading::read_alias))]
fn alias(reader: &mut Reader, alloc: Global, table: &Name) -> Result<Name, ReadError>
    ensures { GivesWithRest result reader.new (read_alias table.now reader.old) }
{
    if reader.take_word("as") {
        return reader.name(alloc);
    }
    match reader.maybe_name(alloc)? {
        Some(alias) => Ok(alias),
        None => Ok(table.copy(alloc)?),
    }
}

#[tactic(auto, unfolding(crate::specs::Reading::read_item))]
fn from_item(reader: &mut Reader, alloc: Global) -> Result<FromItem, ReadError>
    ensures { GivesWithRest result reader.new (read_item reader.old) }
{
    let table = reader.name(alloc)?;
    let alias = alias(reader, alloc, &table)?;
    Ok(FromItem { table, alias })
}

/// Reads what stands after the words of a join with conditions, and adds it.
#[tactic(auto, unfolding(crate::specs::Reading::read_joined, crate::specs::Reading::after, crate::specs::Reading::after_both))]
fn inner_join(
    reader: &mut Reader,
    alloc: Global,
    items: &mut List<FromItem>,
    found: &mut List<Cond>,
) -> Result<(), ReadError>
    ensures { Adds result (items.new, found.new) reader.new (after_both (items.old, found.old)
        (read_joined reader.old)) }
{
    let item = from_item(reader, alloc)?;
    items.push(item)?;
    reader.want_word("on")?;
    conditions(reader, alloc, found)
}

/// Reads what stands after CROSS, and adds it.
#[tactic(auto, unfolding(crate::specs::Reading::read_crossed, crate::specs::Reading::after, crate::specs::Reading::after_both))]
fn cross_join(
    reader: &mut Reader,
    alloc: Global,
    items: &mut List<FromItem>,
    found: &List<Cond>,
) -> Result<(), ReadError>
    ensures { Adds result (items.new, found.now) reader.new (after_both (items.old, found.now)
        (read_crossed reader.old)) }
{
    reader.want_word("join")?;
    let item = from_item(reader, alloc)?;
    items.push(item)?;
    Ok(())
}

#[tactic(auto, unfolding(crate::specs::Reading::starts_join))]
fn next_is_join(reader: &Reader) -> bool
    ensures { result ≡ starts_join reader.now }
{
    reader.next_is_word("join") || reader.next_is_word("inner") || reader.next_is_word("cross")
}

#[tactic(auto, unfolding(crate::specs::Reading::read_join, crate::specs::Reading::after, crate::specs::Reading::after_both))]
#[inline(never)]
fn join(
    reader: &mut Reader,
    alloc: Global,
    items: &mut List<FromItem>,
    found: &mut List<Cond>,
) -> Result<(), ReadError>
    ensures { Adds result (items.new, found.new) reader.new
        (after_both (items.old, found.old) (read_join reader.old)) }
{
    if reader.take_word("join") {
        return inner_join(reader, alloc, items, found);
    }
    if reader.take_word("inner") {
        reader.want_word("join")?;
        return inner_join(reader, alloc, items, found);
    }
    reader.skip();
    cross_join(reader, alloc, items, found)
}

fn joins(
    reader: &mut Reader,
    alloc: Global,
    items: &mut List<FromItem>,
    found: &mut List<Cond>,
) -> Result<(), ReadError>
    ensures { Adds result (items.new, found.new) reader.new (after_both (items.old, found.old)
        (read_joins (length reader.old) reader.old)) }
{
    let mut room = reader.tokens_left();
    'more: while next_is_join(reader) {
        if room == 0 {
            return Err(ReadError::Syntax);
        }
        room -= 1;
        join(reader, alloc, items, found)?;
    }
    Ok(())
}

#[tactic(auto, unfolding(crate::specs::Reading::read_source, crate::specs::Reading::after_both))]
fn from_source(
    reader: &mut Reader,
    alloc: Global,
    items: &mut List<FromItem>,
    found: &mut List<Cond>,
) -> Result<(), ReadError>
    ensures { Adds result (items.new, found.new) reader.new (after_both (items.old, found.old)
        (read_source reader.old)) }
{
    let item = from_item(reader, alloc)?;
    items.push(item)?;
    joins(reader, alloc, items, found)
}

fn from_sources(
    reader: &mut Reader,
    alloc: Global,
    items: &mut List<FromItem>,
    found: &mut List<Cond>,
) -> Result<(), ReadError>
    ensures { Adds result (items.new, found.new) reader.new (after_both (items.old, found.old)
        (read_sources (length reader.old) reader.old)) }
{
    let mut room = reader.tokens_left();
    while room > 0 {
        room -= 1;
        from_source(reader, alloc, items, found)?;
        if !reader.take_mark(",") {
            return Ok(());
        }
    }
    Err(ReadError::Syntax)
}

#[tactic(auto, unfolding(crate::specs::Reading::read_output))]
fn output(reader: &mut Reader, alloc: Global) -> Result<(bool, List<ColumnRef>), ReadError>
    ensures { GivesWithRest result reader.new (read_output reader.old) }
{
    if reader.take_mark("*") {
        return Ok((true, List::new(alloc)));
    }
    let items = commas::<ColumnRef>(reader, alloc)?;
    Ok((false, items))
}

/// SELECT with what it gives. With `star` it has no items.
#[derive(Drop)]
struct Head {
    distinct: bool,
    star: bool,
    items: List<ColumnRef>,
}

#[tactic(auto, unfolding(crate::specs::Reading::read_head, crate::specs::Reading::after_distinct))]
fn block_head(reader: &mut Reader, alloc: Global) -> Result<Head, ReadError>
    ensures { GivesWithRest result reader.new (read_head reader.old) }
{
    reader.want_word("select")?;
    let distinct = reader.take_word("distinct");
    let (star, items) = output(reader, alloc)?;
    Ok(Head {
        distinct,
        star,
        items,
    })
}

/// An empty list with room for the conditions of most blocks, so that it seldom has to grow.
fn list_of_conditions(alloc: Global) -> Result<List<Cond>, NoMemory>
    ensures { IfOk result (λ list. list ≡ []) }
{
    Ok(List::from_vec(Vec::with_capacity(alloc, 8)?))
}

/// Reads a body: its FROM items, and the conditions after ON and WHERE.
#[tactic(auto, unfolding(crate::specs::Reading::read_body, crate::specs::Reading::after, crate::specs::Reading::after_both))]
pub fn block_body(
    reader: &mut Reader,
    alloc: Global,
) -> Result<(List<FromItem>, List<Cond>), ReadError>
    ensures { GivesWithRest result reader.new (read_body reader.old) }
{
    reader.want_word("from")?;
    let mut items = List::new(alloc);
    let mut found = list_of_conditions(alloc)?;
    from_sources(reader, alloc, &mut items, &mut found)?;
    where_conditions(reader, alloc, &mut found)?;
    Ok((items, found))
}

/// Reads a block.
#[tactic(auto, unfolding(crate::specs::Reading::read_block))]
pub fn block(reader: &mut Reader, alloc: Global) -> Result<BlockTree, ReadError>
    ensures { GivesWithRest result reader.new (read_block reader.old) }
{
    let head = block_head(reader, alloc)?;
    let (from_items, conditions) = block_body(reader, alloc)?;
    Ok(BlockTree {
        distinct: head.distinct,
        star: head.star,
        items: head.items,
        from_items,
        conditions,
    })
}
