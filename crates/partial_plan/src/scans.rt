// The scan constraint of an atom.
ghost use Rattle.std.specs.Prelude.{◌≡◌, ◌<◌, ◌^◌, IfOk, codes, length};
ghost use Rattle.beas_core.specs.Classes.{normal_of};
ghost use Rattle.beas_core.specs.Coverage.{needed_of};
ghost use Rattle.beas_core.specs.Shapes.{BlockIsWellFormed};
ghost use Rattle.plan_builder.specs.Preparation.{atom_table};
ghost use Rattle.partial_plan.specs.ScanPlans.{named_atom, or_first, scan_of};
ghost use Rattle.partial_plan.specs.Scans.{sizes_of_tables};

use beas_core::{
    Access, AccessId, Block, ColumnId, Duplicate, List, Name, NoMemory, NotCovered, Text,
};
use normal_form::normalise;
use row_store::Rows;
use std::alloc::Global;

/// Ids of scan constraints begin above those of live ones.
const FIRST_SCAN: u32 = 65_536;

/// The atom that the reason of a block names.
pub fn named_atom(why: NotCovered) -> u16
    ensures { result ≡ named_atom why }
{
    match why {
        NotCovered::ColumnOpen { atom, .. } | NotCovered::AtomUnindexed { atom } => atom,
    }
}

fn scan_name(alloc: Global) -> Result<Name, NoMemory>
    ensures { IfOk result (λ name. name ≡ codes "scan") }
{
    Ok(Name::from_text(Text::from_str(alloc, "scan")?))
}

// What a scan fetches of an atom: the columns that the block needs, and the first where it needs none.
fn scanned_columns(alloc: Global, block: &Block, atom: u16) -> Result<List<ColumnId>, NoMemory>
    requires shape { BlockIsWellFormed block.now }
    requires atom { atom < length block.now.atoms }
    ensures { IfOk result (λ columns. columns ≡ or_first (needed_of (normal_of block.now) atom)) }
{
    let normal = normalise(alloc, block)?;
    let needed = &normal.needed.as_slice()[usize::from(atom)];
    if !needed.is_empty() {
        return needed.copy(alloc);
    }
    let mut columns = List::new(alloc);
    columns.push(ColumnId(0))?;
    Ok(columns)
}

/// The scan constraint of an atom of a block, where so many were made before.
pub fn scan_of(
    alloc: Global,
    tables: &[Rows],
    block: &Block,
    atom: u16,
    number: u32,
) -> Result<Access, NoMemory>
    requires shape { BlockIsWellFormed block.now }
    requires atom { atom < length block.now.atoms }
    requires table { (atom_table block.now atom).0 < length tables.now }
    requires few { number < 2 ^ 31 }
    ensures { IfOk result (λ scan. scan ≡ scan_of (sizes_of_tables tables.now) block.now atom number) }
{
    let table = block.atoms.as_slice()[usize::from(atom)].table;
    let name = scan_name(alloc)?;
    let fetched = scanned_columns(alloc, block, atom)?;
    Ok(Access {
        id: AccessId(FIRST_SCAN + number),
        name,
        table,
        key: List::new(alloc),
        fetched,
        bound: tables[table.0 as usize].len().max(1),
    })
}
