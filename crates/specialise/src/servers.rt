// Which uses serve an atom once some candidates have constants.
ghost use Rattle.std.specs.Prelude.{◌≡◌, ◌≤◌, IfOk, length, map};
ghost use Rattle.beas_core.specs.Coverage.{atoms_of};
ghost use Rattle.beas_core.specs.Groups.{has_column};
ghost use Rattle.attribute_closure.specs.Uses.{as_use};
ghost use Rattle.specialise.specs.Trials.{all_serve, lacks, server_of, servers_on, serves_now, some_serves};

use crate::candidates::Candidate;
use crate::rules::{mask_where, positions_of};
use attribute_closure::{UseAt, holds_needed};
use beas_core::{ColumnId, List, NoMemory, Normal};
use std::alloc::Global;

/// A use that holds its atom's needed columns. It serves the atom if a set holds its key, unless one of the candidates in `loses`
/// has a constant: the column of that candidate is then needed, too, and the constraint lacks it.
#[derive(Clone, Copy)]
pub struct Server {
    pub key: u32,
    pub loses: u32,
}

fn stands_in(columns: &[ColumnId], column: ColumnId) -> bool
    ensures { result ≡ has_column columns.now column }
{
    columns.iter().any(|other| other.0 == column.0)
}

// Whether a candidate stands on a use's atom in a column that its constraint lacks.
fn lacks(found: UseAt<'_>, candidate: &Candidate) -> bool
    ensures { result ≡ lacks (as_use found.entry) candidate.now }
{
    let column = candidate.place.column;
    candidate.place.atom == found.atom
        && !stands_in(found.access.key.as_slice(), column)
        && !stands_in(found.access.fetched.as_slice(), column)
}

fn server_of(block: &Normal, candidates: &[Candidate], found: UseAt<'_>) -> Server
    requires { length candidates.now ≤ 16 }
    ensures { result ≡ server_of block.now candidates.now (as_use found.entry) }
{
    let columns = found.access.key.as_slice();
    Server {
        key: positions_of(block, found.atom, columns, candidates),
        loses: mask_where(candidates, &|candidate: &Candidate| lacks(found, candidate)),
    }
}

fn servers_on(
    alloc: Global,
    block: &Normal,
    candidates: &[Candidate],
    found: &[UseAt<'_>],
    atom: u16,
) -> Result<List<Server>, NoMemory>
    requires { length candidates.now ≤ 16 }
    ensures { IfOk result (λ servers. servers ≡ servers_on block.now candidates.now (map as_use found.now) atom) }
{
    let mut servers = List::new(alloc);
    for use_at in found {
        if use_at.atom == atom && holds_needed(block, use_at) {
            servers.push(server_of(block, candidates, *use_at))?;
        }
    }
    Ok(servers)
}

/// For each atom the uses that hold its needed columns.
pub(crate) fn servers_of(
    alloc: Global,
    block: &Normal,
    candidates: &[Candidate],
    found: &[UseAt<'_>],
) -> Result<List<List<Server>>, NoMemory>
    requires atoms { length block.now.atoms ≤ 65536 }
    requires few { length candidates.now ≤ 16 }
    ensures { IfOk result (λ servers. servers ≡ map (servers_on block.now candidates.now (map as_use found.now))
        (atoms_of block.now)) }
{
    let mut servers = List::new(alloc);
    for number in 0..block.atoms.len() {
        let atom = number as u16;
        servers.push(servers_on(alloc, block, candidates, found, atom)?)?;
    }
    Ok(servers)
}

fn serves(start: u32, set: u32, server: &Server) -> bool
    ensures { result ≡ serves_now start set server.now }
{
    server.key & set == server.key && server.loses & start == 0
}

fn some_serves(start: u32, set: u32, servers: &[Server]) -> bool
    ensures { result ≡ some_serves start set servers.now }
{
    servers.iter().any(|server| serves(start, set, server))
}

/// Whether each atom has a server, where the start's candidates have constants and the set is what they cover.
pub(crate) fn all_serve(start: u32, set: u32, servers: &[List<Server>]) -> bool
    ensures { result ≡ all_serve start set servers.now }
{
    servers
        .iter()
        .all(|list| some_serves(start, set, list.as_slice()))
}
