// A table is copied with its constraints and their indexes.
ghost use Rattle.std.specs.Prelude.{◌≡◌, ◌<◌, All, IfOk, length, map, slice_index_or};
ghost use Rattle.word_index.specs.Parts.{ArePlacesOn, access_at, part_of};

use crate::frozen::Frozen;
use crate::guarded::WordGuarded;
use beas_core::{Access, AccessId, Duplicate, List, NoMemory, TableId};
use catalogue::Catalogue;
use std::alloc::Global;

fn id_in(ids: &[AccessId], k: usize) -> AccessId
    requires { k < length ids.now }
    ensures { result ≡ slice_index_or ids.now k result }
{
    ids[k]
}

/// Where the constraints on a table stand among all, in their order.
fn places_on(alloc: Global, catalogue: &Catalogue, table: TableId) -> Result<Vec<usize>, NoMemory>
    requires { table.0 < length catalogue.now.tables }
    ensures { IfOk result (λ places. ArePlacesOn catalogue.now.accesses table places.items) }
{
    let mut places = Vec::new(alloc);
    let ids = catalogue.ids_on(table);
    for k in 0..ids.len() {
        places.push(catalogue.position(id_in(ids, k)))?;
    }
    Ok(places)
}

/// Copies of the constraints at some places.
fn copies_at(alloc: Global, accesses: &[Access], places: &[usize]) -> Result<List<Access>, NoMemory>
    requires { All (λ place. place < length accesses.now) places.now }
    ensures { IfOk result (λ copies. copies ≡ map (access_at accesses.now) places.now) }
{
    let mut copies = List::new(alloc);
    for place in places {
        copies.push(accesses[*place].copy(alloc)?)?;
    }
    Ok(copies)
}

impl WordGuarded {
    ghost use Rattle.word_index.specs.Stored.{database_in};
    ghost use Rattle.word_index.specs.Freezing.{part_in};

    /// A copy of a table as it is now, with its live constraints and their indexes. It stands by itself: no later call of
    /// the guard touches it. It hands out no row and counts no read.
    pub fn freeze(&self, alloc: Global, table: TableId) -> Result<Frozen, NoMemory>
        requires { table.0 < length (database_in self.now).tables }
        ensures { IfOk result (λ part. part_in part ≡ part_of (database_in self.now) table) }
    {
        let places = places_on(alloc, &self.catalogue, table)?;
        let rows = self.rows.as_slice()[table.0 as usize].copy(alloc)?;
        let accesses = copies_at(
            alloc,
            self.catalogue.accesses().as_slice(),
            places.as_slice(),
        )?;
        let indexes = self.indexes.copy_of(alloc, places.as_slice())?;
        Ok(Frozen {
            table,
            rows,
            accesses,
            indexes,
        })
    }
}
