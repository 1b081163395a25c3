// A case with the names that it was written in.
use crate::wrong::Wrong;
use beas_core::{Access, AccessId, Block, Duplicate, List, Query, QueryNode, Row, TableId};
use std::alloc::Global;

/// A table's name and columns.
#[derive(Drop)]
pub struct NamedTable {
    pub name: String,
    pub columns: Vec<String>,
}

impl NamedTable {
    /// Whether this is the table's name.
    pub(crate) fn is_named(&self, name: &str) -> bool {
        self.name.as_str() == name
    }
}

/// A block with the names of its atoms.
#[derive(Drop)]
pub struct NamedBlock {
    pub atoms: Vec<String>,
    pub block: Block,
}

/// A part of a query as it is written: a block, or a sign after the two queries that it joins.
#[derive(Clone, Copy)]
pub enum Part {
    Block,
    Union,
    Except,
}

/// A query with its tables and constraints.
#[derive(Drop)]
pub struct NamedCase {
    pub name: String,
    pub tables: Vec<NamedTable>,
    /// The rows of each table.
    pub rows: Vec<List<Row>>,
    pub accesses: List<Access>,
    /// The blocks from left to right.
    pub blocks: Vec<NamedBlock>,
    pub parts: Vec<Part>,
}

impl NamedCase {
    /// A case with this name and nothing in it.
    pub(crate) fn new(alloc: Global, name: String) -> NamedCase {
        NamedCase {
            name,
            tables: Vec::new(alloc),
            rows: Vec::new(alloc),
            accesses: List::new(alloc),
            blocks: Vec::new(alloc),
            parts: Vec::new(alloc),
        }
    }

    /// The columns of a table.
    pub fn columns_of(&self, table: TableId) -> &[String] {
        match self.tables.get(table.0 as usize) {
            Some(table) => &table.columns,
            None => &[],
        }
    }

    /// The name of a constraint.
    pub fn access_name(&self, id: AccessId) -> &str {
        match self
            .accesses
            .as_slice()
            .iter()
            .find(|access| access.id.0 == id.0)
        {
            Some(access) => access.name.as_str(),
            None => "?",
        }
    }

    /// The query whose parts were written. It is wrong where they aren't one query.
    pub fn query(&self, alloc: Global) -> Result<Query, Wrong> {
        let mut stack = Vec::new(alloc);
        let mut blocks = self.blocks.iter();
        for part in &self.parts {
            let node = match part {
                Part::Block => copied(alloc, blocks.next())?,
                sign => join(alloc, *sign, &mut stack)?,
            };
            stack.push(Query { node })?;
        }
        only(stack)
    }
}

fn copied(alloc: Global, block: Option<&NamedBlock>) -> Result<QueryNode, Wrong> {
    match block {
        Some(named) => Ok(QueryNode::Block(named.block.copy(alloc)?)),
        None => Err(Wrong::Line(0)),
    }
}

// The one query that there is.
fn only(mut stack: Vec<Query>) -> Result<Query, Wrong> {
    match stack.pop() {
        Some(query) if stack.is_empty() => Ok(query),
        _ => Err(Wrong::Line(0)),
    }
}

// The last query.
fn pop(alloc: Global, stack: &mut Vec<Query>) -> Result<Box<Query>, Wrong> {
    match stack.pop() {
        Some(query) => Ok(Box::new(alloc, query)?),
        None => Err(Wrong::Line(0)),
    }
}

// The last two queries, joined by a sign.
fn join(alloc: Global, sign: Part, stack: &mut Vec<Query>) -> Result<QueryNode, Wrong> {
    let right = pop(alloc, stack)?;
    let left = pop(alloc, stack)?;
    match sign {
        Part::Except => Ok(QueryNode::Except(left, right)),
        _ => Ok(QueryNode::Union(left, right)),
    }
}
