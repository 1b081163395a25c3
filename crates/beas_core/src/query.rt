// Queries after their names are bound: every column is a place, an atom and a column of it.

use crate::duplicate::Duplicate;
use crate::errors::NoMemory;
use crate::list::List;
use crate::schema::{ColumnId, TableId};
use crate::value::Value;
use std::alloc::Global;
use std::marker::Model;

/// The sign of a comparison.
#[derive(Clone, Copy, Debug, PartialEq, Eq)]
pub enum Sign {
    Equal,
    Differs,
    Less,
    AtMost,
    More,
    AtLeast,
}

/// A column of an atom of a block. Atoms are numbered from 0.
#[derive(Clone, Copy)]
pub struct Place {
    pub atom: u16,
    pub column: ColumnId,
}

/// What a place is compared with.
#[derive(Drop)]
pub enum Operand {
    At(Place),
    Fixed(Value),
}

/// A condition that isn't an equality. Its sign is never `Equal`.
#[derive(Drop)]
pub struct Comparison {
    pub left: Place,
    pub sign: Sign,
    pub right: Operand,
}

/// One use of a table in a block.
#[derive(Clone, Copy)]
pub struct Atom {
    pub table: TableId,
    pub width: u16,
}

/// One SELECT: its atoms, what their columns must meet, and the output.
#[derive(Drop)]
pub struct Block {
    pub atoms: List<Atom>,
    pub equalities: List<(Place, Place)>,
    pub constants: List<(Place, Value)>,
    pub comparisons: List<Comparison>,
    pub output: List<Place>,
}

/// Blocks joined by UNION and EXCEPT. Contracts see the tree without its boxes.
#[cycle(query)]
#[derive(Drop)]
pub struct Query {
    pub node: QueryNode,
}

/// The top of a `Query`.
#[cycle(query)]
#[derive(Drop)]
pub enum QueryNode {
    Block(Block),
    Union(Box<Query>, Box<Query>),
    Except(Box<Query>, Box<Query>),
}

impl Model for Query {
    ghost use Rattle.beas_core.specs.Trees.{QueryTree, coded_tree};

    ghost Value = { QueryTree };

    ghost coded = { coded_tree };

    ghost use Rattle.beas_core.specs.Nodes.{query_tree, height};

    ghost view = { λ s. query_tree s.node };

    ghost size = { height };

    ghost use Rattle.beas_core.specs.Heights.{nodes_fall};

    ghost size_decreases = { λ s h. nodes_fall s.node };
}

impl Duplicate for Place {
    fn copy(&self, _alloc: Global) -> Result<Place, NoMemory> {
        Ok(*self)
    }
}

impl Duplicate for Atom {
    fn copy(&self, _alloc: Global) -> Result<Atom, NoMemory> {
        Ok(*self)
    }
}

impl<A: Duplicate, B: Duplicate> Duplicate for (A, B) {
    fn copy(&self, alloc: Global) -> Result<(A, B), NoMemory> {
        Ok((self.0.copy(alloc)?, self.1.copy(alloc)?))
    }
}

impl Duplicate for Comparison {
    fn copy(&self, alloc: Global) -> Result<Comparison, NoMemory> {
        let right = match &self.right {
            Operand::At(place) => Operand::At(*place),
            Operand::Fixed(value) => Operand::Fixed(value.copy(alloc)?),
        };
        Ok(Comparison {
            left: self.left,
            sign: self.sign,
            right,
        })
    }
}

impl Duplicate for Block {
    fn copy(&self, alloc: Global) -> Result<Block, NoMemory> {
        Ok(Block {
            atoms: self.atoms.copy(alloc)?,
            equalities: self.equalities.copy(alloc)?,
            constants: self.constants.copy(alloc)?,
            comparisons: self.comparisons.copy(alloc)?,
            output: self.output.copy(alloc)?,
        })
    }
}

impl Duplicate for Query {
    fn copy(&self, alloc: Global) -> Result<Query, NoMemory> {
        let node = match &self.node {
            QueryNode::Block(block) => QueryNode::Block(block.copy(alloc)?),
            QueryNode::Union(left, right) => {
                let left = Box::new(alloc, left.copy(alloc)?)?;
                let right = Box::new(alloc, right.copy(alloc)?)?;
                QueryNode::Union(left, right)
            }
            QueryNode::Except(left, right) => {
                let left = Box::new(alloc, left.copy(alloc)?)?;
                let right = Box::new(alloc, right.copy(alloc)?)?;
                QueryNode::Except(left, right)
            }
        };
        Ok(Query { node })
    }
}
