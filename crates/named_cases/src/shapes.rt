// Whether a query has the shape that the layers ask of it, and is over the tables of a store.
ghost use Rattle.std.specs.Prelude.{◌≡◌, ◌<◌, ◌^◌, All, IfOk, IsTrue, length, map};
ghost use Rattle.beas_core.specs.Shapes.{AtomIsWellFormed, BlockIsWellFormed, ComparisonIsWellFormed, IsPlace, QueryIsWellFormed};
ghost use Rattle.beas_core.specs.Trees.{blocks_of};
ghost use Rattle.named_cases.specs.Right.{IsRight};
ghost use Rattle.catalogue.specs.Queries.{AtomIsOver, BlockIsOver, QueryIsOver};

use beas_core::{Atom, Block, Comparison, NoMemory, Operand, Place, Query, Sign, Value};
use normal_form::blocks;
use session::Store;
use std::alloc::Global;

/// A query of more blocks isn't right, since no statement may have more.
const MOST_BLOCKS: usize = 64;

/// Whether a place names an atom and a column of it.
fn is_place(atoms: &[Atom], place: Place) -> bool
    ensures { IsTrue result → IsPlace atoms.now place }
{
    match atoms.get(usize::from(place.atom)) {
        Some(atom) => place.column.0 < atom.width,
        None => false,
    }
}

fn is_equality(atoms: &[Atom], equality: &(Place, Place)) -> bool
    ensures { IsTrue result → IsPlace atoms.now equality.now.0 × IsPlace atoms.now equality.now.1 }
{
    is_place(atoms, equality.0) && is_place(atoms, equality.1)
}

fn is_constant(atoms: &[Atom], constant: &(Place, Value)) -> bool
    ensures { IsTrue result → IsPlace atoms.now constant.now.0 }
{
    is_place(atoms, constant.0)
}

fn is_comparison(atoms: &[Atom], comparison: &Comparison) -> bool
    ensures { IsTrue result → ComparisonIsWellFormed atoms.now comparison.now }
{
    let is_right = match &comparison.right {
        Operand::At(place) => is_place(atoms, *place),
        Operand::Fixed(_) => true,
    };
    is_right && is_place(atoms, comparison.left) && comparison.sign != Sign::Equal
}

fn are_equalities(atoms: &[Atom], equalities: &[(Place, Place)]) -> bool
    ensures { IsTrue result → All (λ e. IsPlace atoms.now e.0 × IsPlace atoms.now e.1) equalities.now }
{
    equalities
        .iter()
        .all(|equality| is_equality(atoms, equality))
}

fn are_constants(atoms: &[Atom], constants: &[(Place, Value)]) -> bool
    ensures { IsTrue result → All (λ c. IsPlace atoms.now c.0) constants.now }
{
    constants
        .iter()
        .all(|constant| is_constant(atoms, constant))
}

fn are_comparisons(atoms: &[Atom], comparisons: &[Comparison]) -> bool
    ensures { IsTrue result → All (ComparisonIsWellFormed atoms.now) comparisons.now }
{
    comparisons
        .iter()
        .all(|comparison| is_comparison(atoms, comparison))
}

fn are_places(atoms: &[Atom], places: &[Place]) -> bool
    ensures { IsTrue result → All (IsPlace atoms.now) places.now }
{
    places.iter().all(|place| is_place(atoms, *place))
}

/// How many tables a store has.
fn table_count(guarded: &Store) -> usize
    ensures { result ≡ length guarded.now.catalogue.tables }
{
    guarded.rows.len()
}

/// Whether an atom is of a table of the store, and as wide as that is.
fn is_atom(guarded: &Store, atom: Atom) -> bool
    ensures shape { IsTrue result → AtomIsWellFormed atom }
    ensures over { IsTrue result → AtomIsOver guarded.now.catalogue atom }
{
    if (atom.table.0 as usize) < table_count(guarded) {
        let width = guarded.catalogue.columns(atom.table).len();
        usize::from(atom.width) == width && 0 < width && width <= 64
    } else {
        false
    }
}

fn are_atoms(guarded: &Store, atoms: &[Atom]) -> bool
    ensures shape { IsTrue result → All AtomIsWellFormed atoms.now }
    ensures over { IsTrue result → All (AtomIsOver guarded.now.catalogue) atoms.now }
{
    atoms.iter().all(|atom| is_atom(guarded, *atom))
}

/// Whether the conditions and the output of a block name columns of its atoms.
fn are_parts(block: &Block) -> bool
    ensures equalities { IsTrue result
        → All (λ e. IsPlace block.now.atoms e.0 × IsPlace block.now.atoms e.1) block.now.equalities }
    ensures constants { IsTrue result → All (λ c. IsPlace block.now.atoms c.0) block.now.constants }
    ensures comparisons { IsTrue result
        → All (ComparisonIsWellFormed block.now.atoms) block.now.comparisons }
    ensures output { IsTrue result → All (IsPlace block.now.atoms) block.now.output }
{
    let atoms = block.atoms.as_slice();
    are_equalities(atoms, block.equalities.as_slice())
        && are_constants(atoms, block.constants.as_slice())
        && are_comparisons(atoms, block.comparisons.as_slice())
        && are_places(atoms, block.output.as_slice())
}

/// Whether a block is right, and its output has so many columns.
fn is_block(guarded: &Store, width: usize, block: &Block) -> bool
    ensures { IsTrue result → IsRight guarded.now.catalogue width block.now }
{
    let atoms = block.atoms.as_slice();
    !atoms.is_empty()
        && atoms.len() <= 16
        && are_atoms(guarded, atoms)
        && are_parts(block)
        && block.output.len() == width
}

fn are_blocks(guarded: &Store, width: usize, blocks: &[&Block]) -> bool
    ensures { IsTrue result → All (λ b. IsRight guarded.now.catalogue width b.now) blocks.now }
{
    blocks.iter().all(|block| is_block(guarded, width, block))
}

/// Whether a query of at most 64 blocks has the shape that `prepare` asks of it.
pub fn is_right(alloc: Global, guarded: &Store, query: &Query) -> Result<bool, NoMemory>
    ensures well_formed { IfOk result (λ is. IsTrue is → QueryIsWellFormed query.now) }
    ensures over { IfOk result (λ is. IsTrue is → QueryIsOver guarded.now.catalogue query.now) }
    ensures few { IfOk result (λ is. IsTrue is → length (blocks_of query.now) < 2 ^ 32) }
{
    let found = blocks(alloc, query)?;
    match found.as_slice() {
        [first, ..] if found.len() <= MOST_BLOCKS => {
            Ok(are_blocks(guarded, first.output.len(), found.as_slice()))
        }
        _ => Ok(false),
    }
}
