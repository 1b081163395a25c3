// What a grouped statement is over.
ghost use Rattle.std.specs.Prelude.{◌≡◌, ◌++◌, IfOk, map};
ghost use Rattle.sql_text.specs.Grouping.{column_in, grouped_block};
ghost use Rattle.sql_text.specs.Trees.{Block};

use crate::tree::{BlockTree, ColumnRef, Cond, FromItem, GroupItem, SelectNode, SelectTree};
use beas_core::{Duplicate, List, Name, NoMemory};
use std::alloc::Global;

fn copy_alias(alloc: Global, alias: &Option<Name>) -> Result<Option<Name>, NoMemory>
    ensures { IfOk result (λ copy. copy ≡ alias.now) }
{
    match alias {
        Some(alias) => Ok(Some(alias.copy(alloc)?)),
        None => Ok(None),
    }
}

impl Duplicate for ColumnRef {
    fn copy(&self, alloc: Global) -> Result<ColumnRef, NoMemory> {
        let table = copy_alias(alloc, &self.table)?;
        let column = self.column.copy(alloc)?;
        Ok(ColumnRef { table, column })
    }
}

impl GroupItem {
    /// The column that the item is about.
    pub fn column(&self) -> &ColumnRef
        ensures { result.now ≡ column_in self.now }
    {
        match self {
            GroupItem::Plain(column)
            | GroupItem::Count(column)
            | GroupItem::Sum(column)
            | GroupItem::Least(column)
            | GroupItem::Greatest(column) => column,
        }
    }
}

// The keys and then the columns of the items.
fn columns_of(
    alloc: Global,
    items: &List<GroupItem>,
    keys: &List<ColumnRef>,
) -> Result<List<ColumnRef>, NoMemory>
    ensures { IfOk result (λ columns. columns ≡ keys.now ++ map column_in items.now) }
{
    let mut columns = keys.copy(alloc)?;
    for item in items.as_slice() {
        columns.push(item.column().copy(alloc)?)?;
    }
    Ok(columns)
}

/// The block that a grouped statement is over: SELECT DISTINCT of the keys and then the columns of the items, over these
/// FROM items and conditions. Fails only where it runs out of memory.
pub fn grouped_over(
    alloc: Global,
    items: &List<GroupItem>,
    keys: &List<ColumnRef>,
    from_items: List<FromItem>,
    conditions: List<Cond>,
) -> Result<SelectTree, NoMemory>
    ensures { IfOk result (λ tree. tree ≡ Block (grouped_block items.now keys.now from_items conditions)) }
{
    let columns = columns_of(alloc, items, keys)?;
    let block = BlockTree {
        distinct: true,
        star: false,
        items: columns,
        from_items,
        conditions,
    };
    Ok(SelectTree {
        node: SelectNode::Block(block),
    })
}
