// Statements as trees.
use beas_core::{AccessSpec, Column, List, Name, Sign, Text};
use std::marker::Model;

/// A number without a leading `+` and without leading zeros, which has no sign where it is zero; or a text.
#[derive(Debug, Drop)]
pub enum Literal {
    Number { negative: bool, digits: Text },
    Words { text: Text },
}

/// A column, with the alias that stands before it.
#[derive(Debug, Drop)]
pub struct ColumnRef {
    pub table: Option<Name>,
    pub column: Name,
}

/// One side of a comparison.
#[derive(Debug, Drop)]
pub enum Side {
    Column(ColumnRef),
    Fixed(Literal),
}

/// A condition. In a comparison at least one side is a column.
#[derive(Debug, Drop)]
pub enum Cond {
    Compare {
        left: Side,
        sign: Sign,
        right: Side,
    },
    Between {
        value: ColumnRef,
        low: Side,
        high: Side,
    },
}

/// A table in FROM. Where no alias is written, it is the table's name.
#[derive(Debug, Drop)]
pub struct FromItem {
    pub table: Name,
    pub alias: Name,
}

/// One SELECT. With `star` it has no items. The conditions after ON stand before those after WHERE.
#[derive(Debug, Drop)]
pub struct BlockTree {
    pub distinct: bool,
    pub star: bool,
    pub items: List<ColumnRef>,
    pub from_items: List<FromItem>,
    pub conditions: List<Cond>,
}

/// Blocks joined by UNION and EXCEPT. Contracts see the tree without its boxes.
#[cycle(select_tree)]
#[derive(Debug, Drop)]
pub struct SelectTree {
    pub node: SelectNode,
}

/// The top of a `SelectTree`.
#[cycle(select_tree)]
#[derive(Debug, Drop)]
pub enum SelectNode {
    Block(BlockTree),
    Union(Box<SelectTree>, Box<SelectTree>),
    Except(Box<SelectTree>, Box<SelectTree>),
}

impl Model for SelectTree {
    ghost use Rattle.sql_text.specs.Trees.{Tree, coded_tree};

    ghost Value = { Tree };

    ghost coded = { coded_tree };

    ghost use Rattle.sql_text.specs.Nodes.{tree_of, height};

    ghost view = { λ s. tree_of s.node };

    ghost size = { height };

    ghost use Rattle.sql_text.specs.Heights.{nodes_fall};

    ghost size_decreases = { λ s h. nodes_fall s.node };
}

/// What a group gives for one column of its rows: the value that they share, the number of distinct values, the sum of
/// the distinct values, or the first or the last value in the order of values.
#[derive(Debug, Drop)]
pub enum GroupItem {
    Plain(ColumnRef),
    Count(ColumnRef),
    Sum(ColumnRef),
    Least(ColumnRef),
    Greatest(ColumnRef),
}

/// A statement of the language. In `Grouped`, `inner` is a block with DISTINCT of the keys and then the columns of the
/// items. In `Specialise`, `tree` is a block.
#[derive(Debug, Drop)]
pub enum Statement {
    CreateTable {
        name: Name,
        columns: List<Column>,
    },
    CreateAccess {
        spec: AccessSpec,
    },
    DropAccess {
        name: Name,
    },
    Load {
        table: Name,
        file: Text,
    },
    Insert {
        table: Name,
        rows: List<List<Literal>>,
    },
    Delete {
        table: Name,
        conditions: List<Cond>,
    },
    DiscoverGroup {
        table: Name,
        key: List<Name>,
        fetched: List<Name>,
    },
    DiscoverPairs {
        table: Name,
        limit: Text,
    },
    Select {
        tree: SelectTree,
    },
    Explain {
        tree: SelectTree,
    },
    ScanOk {
        tree: SelectTree,
    },
    Grouped {
        items: List<GroupItem>,
        keys: List<ColumnRef>,
        inner: SelectTree,
    },
    Specialise {
        tree: SelectTree,
    },
}
