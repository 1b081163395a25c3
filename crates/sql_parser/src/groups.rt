// Grouped statements.
ghost use Rattle.std.specs.Prelude.{◌≡◌};
ghost use Rattle.token_reader.specs.Reading.{GivesWithRest};
ghost use Rattle.sql_parser.specs.Reading.{read_closed_ref, read_distinct_ref, read_group_item, read_group_keys, read_grouped};

use crate::blocks::block_body;
use crate::parts::{Part, commas};
use beas_core::List;
use sql_text::{ColumnRef, GroupItem, Statement, grouped_over};
use std::alloc::Global;
use token_reader::{ReadError, Reader};

#[tactic(auto, unfolding(crate::specs::Reading::then_close))]
fn closed_column(reader: &mut Reader, alloc: Global) -> Result<ColumnRef, ReadError>
    ensures { GivesWithRest result reader.new (read_closed_ref reader.old) }
{
    let column = ColumnRef::read(reader, alloc)?;
    reader.want_mark(")")?;
    Ok(column)
}

#[tactic(auto, unfolding(crate::specs::Reading::read_distinct_ref))]
fn distinct_column(reader: &mut Reader, alloc: Global) -> Result<ColumnRef, ReadError>
    ensures { GivesWithRest result reader.new (read_distinct_ref reader.old) }
{
    reader.want_word("distinct")?;
    closed_column(reader, alloc)
}

impl Part for GroupItem {
    ghost reads = { read_group_item };

    #[tactic(auto, unfolding(crate::specs::Reading::read_group_item))]
    fn read(reader: &mut Reader, alloc: Global) -> Result<GroupItem, ReadError> {
        if reader.take_call("count") {
            return Ok(GroupItem::Count(distinct_column(reader, alloc)?));
        }
        if reader.take_call("sum") {
            return Ok(GroupItem::Sum(distinct_column(reader, alloc)?));
        }
        if reader.take_call("min") {
            return Ok(GroupItem::Least(closed_column(reader, alloc)?));
        }
        if reader.take_call("max") {
            return Ok(GroupItem::Greatest(closed_column(reader, alloc)?));
        }
        Ok(GroupItem::Plain(ColumnRef::read(reader, alloc)?))
    }
}

#[tactic(auto, unfolding(crate::specs::Reading::read_group_keys))]
fn group_keys(reader: &mut Reader, alloc: Global) -> Result<List<ColumnRef>, ReadError>
    ensures { GivesWithRest result reader.new (read_group_keys reader.old) }
{
    reader.want_word("group")?;
    reader.want_word("by")?;
    commas::<ColumnRef>(reader, alloc)
}

/// Reads a grouped statement.
#[tactic(auto, unfolding(crate::specs::Reading::read_grouped))]
#[inline(never)]
pub fn grouped(reader: &mut Reader, alloc: Global) -> Result<Statement, ReadError>
    ensures { GivesWithRest result reader.new (read_grouped reader.old) }
{
    reader.want_word("select")?;
    let items = commas::<GroupItem>(reader, alloc)?;
    let (from_items, conditions) = block_body(reader, alloc)?;
    let keys = group_keys(reader, alloc)?;
    let inner = grouped_over(alloc, &items, &keys, from_items, conditions)?;
    Ok(Statement::Grouped { items, keys, inner })
}
