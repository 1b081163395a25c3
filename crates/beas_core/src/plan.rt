// What is worked out of a query before any row is read, and its answer.
ghost use Rattle.std.specs.Prelude.{◌≡◌};
ghost use Rattle.beas_core.specs.Coverage.{class_at as class_of_column};

use crate::duplicate::Duplicate;
use crate::errors::NoMemory;
use crate::list::{List, Row};
use crate::names::Name;
use crate::query::{Atom, Comparison, Place, Query};
use crate::schema::{AccessId, ColumnId};
use crate::value::Value;
use std::alloc::Global;

/// A block with its places sorted into classes of equal value.
#[derive(Drop)]
pub struct Normal {
    pub atoms: List<Atom>,
    /// For each atom and column its class. Classes are numbered in order of their first place.
    pub classes: List<List<u16>>,
    /// The number of classes.
    pub count: u16,
    /// The values that classes are equated with.
    pub constants: List<(u16, Value)>,
    /// For each atom, ascending, its columns that stand in a condition or in the output.
    pub needed: List<List<ColumnId>>,
    pub comparisons: List<Comparison>,
    pub output: List<Place>,
}

/// The class of a column of an atom.
pub fn class_at(block: &Normal, atom: u16, column: ColumnId) -> u16
    ensures { result ≡ class_of_column block.now atom column }
{
    match block.classes.as_slice().get(usize::from(atom)) {
        Some(classes) => match classes.as_slice().get(usize::from(column.0)) {
            Some(class) => *class,
            None => 0,
        },
        None => 0,
    }
}

/// One use of a constraint on an atom. `adds` says whether it binds a class that wasn't bound before.
#[derive(Clone, Copy)]
pub struct DStep {
    pub atom: u16,
    pub access: AccessId,
    pub adds: bool,
}

/// The steps by which a block is fetched.
#[derive(Drop)]
pub struct Derivation {
    pub steps: List<DStep>,
}

/// How many reads a block takes at most, and how many valuations its last step leaves at most.
#[derive(Clone, Copy)]
pub struct Sizes {
    pub reads: u128,
    pub last: u128,
}

/// A query with all that is announced of it: the header, and for each block from left to right its normal form, its
/// derivation and whether it starts from the answers of its guide. `bound` is the greatest number of reads.
#[derive(Drop)]
pub struct Prepared {
    pub query: Query,
    pub header: List<Name>,
    pub normals: List<Normal>,
    pub derivations: List<Derivation>,
    pub bound: u128,
    /// Of each block whether it is guided: only one in the right side of an EXCEPT can be.
    pub guided: List<bool>,
}

/// The rows of an answer in order, and the number of reads that it took.
#[derive(Drop)]
pub struct Answer {
    pub rows: List<Row>,
    pub reads: u128,
}

/// Why a block isn't covered.
#[derive(Clone, Copy)]
pub enum NotCovered {
    /// The values of this needed column can't be fetched.
    ColumnOpen { atom: u16, column: ColumnId },
    /// No constraint holds all needed columns of this atom.
    AtomUnindexed { atom: u16 },
}

impl Duplicate for u16 {
    fn copy(&self, _alloc: Global) -> Result<u16, NoMemory> {
        Ok(*self)
    }
}

impl Duplicate for Normal {
    fn copy(&self, alloc: Global) -> Result<Normal, NoMemory> {
        Ok(Normal {
            atoms: self.atoms.copy(alloc)?,
            classes: self.classes.copy(alloc)?,
            count: self.count,
            constants: self.constants.copy(alloc)?,
            needed: self.needed.copy(alloc)?,
            comparisons: self.comparisons.copy(alloc)?,
            output: self.output.copy(alloc)?,
        })
    }
}
