// Scan constraints of the blocks of a query that the live constraints don't cover.
ghost use Rattle.std.specs.Prelude.{◌≡◌, ◌<◌, ◌++◌, ◌∷◌, ◌^◌, [], IfOk, OnOk, is_some, length, map, slice_index_or, slice_set};
ghost use Rattle.beas_core.specs.Guiding.{first_uncovered};
ghost use Rattle.beas_core.specs.Shapes.{QueryIsWellFormed};
ghost use Rattle.beas_core.specs.Trees.{blocks_of};
ghost use Rattle.catalogue.specs.Queries.{QueryIsOver};
ghost use Rattle.partial_plan.specs.ScanPlans.{scan_lists, tasks_with, with_scan};
ghost use Rattle.partial_plan.specs.Scans.{sizes_of_tables};

use crate::scans::{named_atom, scan_of};
use beas_core::{Access, Block, List, NoMemory, Query};
use catalogue::Catalogue;
use normal_form::blocks;
use plan_builder::lacking;
use row_store::Rows;
use std::alloc::Global;
use std::mem;

// Puts a scan constraint at the end of the list with this number.
fn push_at(
    alloc: Global,
    lists: &mut List<List<Access>>,
    number: usize,
    scan: Access,
) -> Result<(), NoMemory>
    requires { number < length lists.old }
    ensures { OnOk result (lists.new
        ≡ slice_set lists.old number (slice_index_or lists.old number [] ++ scan ∷ [])) }
{
    let mut items = mem::replace(lists, List::new(alloc)).into_vec();
    let outcome = items[number].push(scan);
    *lists = List::from_vec(items);
    outcome
}

// Gives the first block that isn't covered a scan constraint, where so many were made before. False where all are
// covered.
fn add_scan(
    alloc: Global,
    catalogue: &Catalogue,
    tables: &[Rows],
    query: &Query,
    blocks: &[&Block],
    number: u32,
    lists: &mut List<List<Access>>,
) -> Result<bool, NoMemory>
    requires well_formed { QueryIsWellFormed query.now }
    requires over { QueryIsOver catalogue.now query.now }
    requires few { length (blocks_of query.now) < 2 ^ 27 }
    requires blocks { map (λ b. b.now) blocks.now ≡ blocks_of query.now }
    requires tables { length tables.now ≡ length catalogue.now.tables }
    requires lists { length lists.old ≡ length blocks.now }
    requires number { number < 2 ^ 31 }
    ensures lists { OnOk result (lists.new ≡ with_scan (sizes_of_tables tables.now) query.now number lists.old
        (first_uncovered (tasks_with catalogue.now lists.old query.now))) }
    ensures more { IfOk result (λ more. more
        ≡ is_some (first_uncovered (tasks_with catalogue.now lists.old query.now))) }
{
    let Some((block, why)) = lacking(alloc, catalogue, lists, query)? else {
        return Ok(false);
    };
    let at = block as usize;
    let scan = scan_of(alloc, tables, blocks[at], named_atom(why), number)?;
    push_at(alloc, lists, at, scan)?;
    Ok(true)
}

// Adds scan constraints to empty lists until all blocks are covered.
fn fill(
    alloc: Global,
    catalogue: &Catalogue,
    tables: &[Rows],
    query: &Query,
    blocks: &[&Block],
    lists: &mut List<List<Access>>,
) -> Result<(), NoMemory>
    requires well_formed { QueryIsWellFormed query.now }
    requires over { QueryIsOver catalogue.now query.now }
    requires few { length (blocks_of query.now) < 2 ^ 27 }
    requires blocks { map (λ b. b.now) blocks.now ≡ blocks_of query.now }
    requires tables { length tables.now ≡ length catalogue.now.tables }
    requires empty { lists.old ≡ map (λ block. []) (blocks_of query.now) }
    ensures { OnOk result (lists.new ≡ scan_lists catalogue.now (sizes_of_tables tables.now) query.now) }
{
    for number in 0..16 * blocks.len() as u32 {
        if !add_scan(alloc, catalogue, tables, query, blocks, number, lists)? {
            return Ok(());
        }
    }
    Ok(())
}

fn empty_lists(alloc: Global, blocks: &[&Block]) -> Result<List<List<Access>>, NoMemory>
    ensures { IfOk result (λ lists. lists ≡ map (λ block. []) blocks.now) }
{
    let mut lists = List::new(alloc);
    for _ in blocks {
        lists.push(List::new(alloc))?;
    }
    Ok(lists)
}

/// Of each block of a query its list of scan constraints, with which it is covered. The rows of the tables are in order
/// of the tables' ids; their numbers alone are used.
pub fn scan_lists(
    alloc: Global,
    catalogue: &Catalogue,
    tables: &[Rows],
    query: &Query,
) -> Result<List<List<Access>>, NoMemory>
    requires well_formed { QueryIsWellFormed query.now }
    requires over { QueryIsOver catalogue.now query.now }
    requires few { length (blocks_of query.now) < 2 ^ 27 }
    requires tables { length tables.now ≡ length catalogue.now.tables }
    ensures { IfOk result (λ lists. lists ≡ scan_lists catalogue.now (sizes_of_tables tables.now) query.now) }
{
    let blocks = blocks(alloc, query)?;
    let mut lists = empty_lists(alloc, blocks.as_slice())?;
    fill(
        alloc,
        catalogue,
        tables,
        query,
        blocks.as_slice(),
        &mut lists,
    )?;
    Ok(lists)
}
