// Tables, columns and access constraints by number, as every layer above the binder knows them.
ghost use Rattle.std.specs.Prelude.{◌≡◌, IfOk};

use crate::list::List;
use crate::names::Name;
use crate::text::Text;

/// What the values of a column are.
#[derive(Clone, Copy, Debug, PartialEq, Eq)]
pub enum ColType {
    Integer,
    Words,
}

/// A table, by the order of creation.
#[derive(Clone, Copy, Debug, PartialEq, Eq)]
pub struct TableId(pub u32);

/// An access constraint, by the order of creation. It is never used again.
#[derive(Clone, Copy, Debug, PartialEq, Eq)]
pub struct AccessId(pub u32);

/// A column of a table, from 0 on.
#[derive(Clone, Copy, Debug, PartialEq, Eq)]
pub struct ColumnId(pub u16);

/// A column as it is declared.
#[derive(Debug, Drop)]
pub struct Column {
    pub name: Name,
    pub kind: ColType,
}

/// An access constraint: each value of `key` in the table comes with at most `bound` distinct values of
/// `fetched` (Fan, Geerts, Cao, Deng and Lu: Querying Big Data by Accessing Small Data, PODS 2015).
#[derive(Debug, Drop)]
pub struct Access {
    pub id: AccessId,
    pub name: Name,
    pub table: TableId,
    pub key: List<ColumnId>,
    pub fetched: List<ColumnId>,
    pub bound: u32,
}

/// An access constraint as a statement writes it.
#[derive(Debug, Drop)]
pub struct AccessSpec {
    pub name: Name,
    pub table: Name,
    pub key: List<Name>,
    pub fetched: List<Name>,
    pub limit: Text,
}
