// The constraints on the tables of a block's atoms.
ghost use Rattle.std.specs.Prelude.{◌≡◌, ◌<◌, ◌==◌, ◌++◌, [], IfOk, IsTrue, OnOk, length, slice_index_or};
ghost use Rattle.std.specs.List.{list_any};
ghost use Rattle.beas_core.specs.declared.schema.AccessId.{AccessId as Id};
ghost use Rattle.catalogue.specs.Queries.{AtomIsOver, BlockIsOver};
ghost use Rattle.catalogue.specs.Schema.{accesses_on};
ghost use Rattle.plan_builder.specs.Own.{own_accesses, with_table};

use beas_core::{Access, AccessId, Atom, Block, Duplicate, List, NoMemory, TableId};
use catalogue::Catalogue;
use std::alloc::Global;

/// Those on a block's tables are copied where they are at most one in so many.
const SHARE: usize = 4;

fn count_on(catalogue: &Catalogue, atom: &Atom) -> usize
    requires { AtomIsOver catalogue.now atom.now }
{
    catalogue.ids_on(atom.table).len()
}

// How many constraints there are on the tables of a block's atoms, for each atom.
fn count_own(catalogue: &Catalogue, block: &Block) -> usize
    requires { BlockIsOver catalogue.now block.now }
{
    let mut count: usize = 0;
    for atom in block.atoms.as_slice() {
        count = count.saturating_add(count_on(catalogue, atom));
    }
    count
}

/// Whether a block may use no further constraints, and those on its tables are few among many live ones, so that it is
/// cheaper to copy them than to go over all.
pub fn are_few(catalogue: &Catalogue, block: &Block, extra: &[Access]) -> bool
    requires { BlockIsOver catalogue.now block.now }
    ensures { IsTrue result → extra.now ≡ [] }
{
    extra.is_empty() && count_own(catalogue, block) <= catalogue.accesses().len() / SHARE
}

fn has_table(accesses: &[Access], table: TableId) -> bool
    ensures { result ≡ list_any (λ a. a.table.0 == table.0) accesses.now }
{
    accesses.iter().any(|access| access.table.0 == table.0)
}

fn id_in(ids: &[AccessId], k: usize) -> AccessId
    requires { k < length ids.now }
    ensures { (d : Id) → result ≡ slice_index_or ids.now k d }
{
    ids[k]
}

// Adds copies of the constraints on a table.
fn push_on(
    alloc: Global,
    catalogue: &Catalogue,
    table: TableId,
    found: &mut List<Access>,
) -> Result<(), NoMemory>
    requires { table.0 < length catalogue.now.tables }
    ensures { OnOk result (found.new ≡ found.old ++ accesses_on catalogue.now.accesses table) }
{
    let ids = catalogue.ids_on(table);
    for k in 0..ids.len() {
        let access = catalogue.access(id_in(ids, k));
        found.push(access.copy(alloc)?)?;
    }
    Ok(())
}

// Adds copies of the constraints on an atom's table, unless there are some already.
fn add_table(
    alloc: Global,
    catalogue: &Catalogue,
    atom: &Atom,
    own: &mut List<Access>,
) -> Result<(), NoMemory>
    requires { AtomIsOver catalogue.now atom.now }
    ensures { OnOk result (own.new ≡ with_table catalogue.now.accesses own.old atom.now) }
{
    if has_table(own.as_slice(), atom.table) {
        return Ok(());
    }
    push_on(alloc, catalogue, atom.table, own)
}

/// Copies of the constraints on the tables of a block's atoms, table by table. It looks at no others.
#[tactic(auto, using(crate::proofs::FewLists::own_more, crate::proofs::FewLists::own_all))]
pub fn own_accesses(
    alloc: Global,
    catalogue: &Catalogue,
    block: &Block,
) -> Result<List<Access>, NoMemory>
    requires { BlockIsOver catalogue.now block.now }
    ensures { IfOk result (λ own. own ≡ own_accesses catalogue.now.accesses block.now.atoms) }
{
    let mut own = List::new(alloc);
    for atom in block.atoms.as_slice() {
        add_table(alloc, catalogue, atom, &mut own)?;
    }
    Ok(own)
}
