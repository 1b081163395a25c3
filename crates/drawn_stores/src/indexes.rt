// The groups that indexes give, compared with those of a plain list of rows.
ghost use Rattle.std.specs.Prelude.{◌≡◌, ◌<◌, IsTrue, IfOk, IfSome};
ghost use Rattle.beas_core.specs.Groups.{has_column, member_columns};
ghost use Rattle.beas_core.specs.Derivations.{is_live};

use beas_core::{Access, AccessId, AccessPort, ColumnId, Hits, Name, NoMemory, Steps};
use catalogue::Catalogue;
use drawn_scenes::{Fact, Plain, Rule, value};
use std::alloc::Global;
use std::sync::ledger::Ledger;

/// How many groups were asked for, and how much wasn't as by the plain list.
#[derive(Clone, Copy)]
pub struct Found {
    pub asked: u32,
    pub differing: u32,
}

fn is_among(columns: &[ColumnId], column: ColumnId) -> bool
    ensures { result ≡ has_column columns.now column }
{
    columns.iter().any(|other| other.0 == column.0)
}

/// Whether a column is one of a constraint's key or fetched columns.
#[tactic(auto, using(crate::proofs::Members::in_either))]
fn is_member(access: &Access, column: ColumnId) -> bool
    ensures { result ≡ has_column (member_columns access.now) column }
{
    is_among(access.key.as_slice(), column) || is_among(access.fetched.as_slice(), column)
}

/// Whether a tuple that an index gave has this number's value in a column.
fn is_value<P: AccessPort>(
    alloc: Global,
    port: &P,
    hits: &Hits,
    i: u32,
    column: u8,
    number: u8,
) -> Result<bool, NoMemory>
    requires live { IsTrue (is_live (P.accesses port.now) hits.now.access) }
    requires stands { P.stands port.now hits.now }
    requires member { i < hits.now.len }
{
    let id = ColumnId(u16::from(column));
    if !is_member(port.access(hits.access()), id) {
        return Ok(false);
    }
    let wanted = value(alloc, column, number)?;
    Ok(*port.value(hits, i, id) == wanted)
}

/// Whether a tuple that an index gave has these numbers' values in some columns.
fn is_tuple<P: AccessPort>(
    alloc: Global,
    port: &P,
    hits: &Hits,
    i: u32,
    columns: &[u8],
    numbers: &[u8],
) -> Result<bool, NoMemory>
    requires live { IsTrue (is_live (P.accesses port.now) hits.now.access) }
    requires stands { P.stands port.now hits.now }
    requires member { i < hits.now.len }
{
    for (column, number) in columns.iter().zip(numbers) {
        if !is_value(alloc, port, hits, i, *column, *number)? {
            return Ok(false);
        }
    }
    Ok(columns.len() == numbers.len())
}

/// Whether the tuples that an index gave are these, in order.
fn is_group<P: AccessPort>(
    alloc: Global,
    port: &P,
    hits: &Hits,
    columns: &[u8],
    group: &[Vec<u8>],
) -> Result<bool, NoMemory>
    requires live { IsTrue (is_live (P.accesses port.now) hits.now.access) }
    requires stands { P.stands port.now hits.now }
{
    for i in 0..hits.len() {
        let is_same = match group.get(i as usize) {
            Some(tuple) => is_tuple(alloc, port, hits, i, columns, tuple)?,
            None => false,
        };
        if !is_same {
            return Ok(false);
        }
    }
    Ok(hits.len() as usize == group.len())
}

/// The live constraint with a rule's name, if there is one.
fn access_of(
    alloc: Global,
    catalogue: &Catalogue,
    rule: &Rule,
) -> Result<Option<AccessId>, NoMemory>
    ensures { IfOk result (λ found. IfSome found (λ id. IsTrue (is_live catalogue.now.accesses id))) }
{
    match Name::of(alloc, rule.name.as_str())? {
        Some(name) => Ok(catalogue.access_named(&name)),
        None => Ok(None),
    }
}

/// Whether what an index gave for a row's key is the group that the plain list has.
fn is_group_of<P: AccessPort>(
    alloc: Global,
    port: &P,
    hits: &Hits,
    rule: &Rule,
    rows: &[Fact],
    row: &Fact,
) -> Result<bool, NoMemory>
    requires live { IsTrue (is_live (P.accesses port.now) hits.now.access) }
    requires stands { P.stands port.now hits.now }
{
    let group = rule.group(alloc, rows, row)?;
    let columns = rule.members(alloc)?;
    is_group(alloc, port, hits, &columns, &group)
}

/// Whether the index of a live constraint gives for a row's key the group that the plain list has.
fn gives_group<P: AccessPort, L: Ledger>(
    alloc: Global,
    port: &P,
    id: AccessId,
    rule: &Rule,
    rows: &[Fact],
    row: &Fact,
    steps: &mut Steps<L>,
) -> Result<bool, NoMemory>
    requires { IsTrue (is_live (P.accesses port.now) id) }
{
    let key = row.values(alloc, &rule.key)?;
    if port.access(id).key.len() != key.len() {
        return Ok(false);
    }
    let hits = port.probe(id, key.as_slice(), steps);
    is_group_of(alloc, port, &hits, rule, rows, row)
}

/// Whether the index of a constraint gives for a row's key the group that the plain list has.
fn has_group<P: AccessPort, L: Ledger>(
    alloc: Global,
    catalogue: &Catalogue,
    port: &P,
    rule: &Rule,
    rows: &[Fact],
    row: &Fact,
    steps: &mut Steps<L>,
) -> Result<bool, NoMemory>
    requires { P.accesses port.now ≡ catalogue.now.accesses }
{
    match access_of(alloc, catalogue, rule)? {
        Some(id) => gives_group(alloc, port, id, rule, rows, row, steps),
        None => Ok(false),
    }
}

/// Asks a constraint's index for the key of each row of any table, which its own may not have.
fn differing_in<P: AccessPort, L: Ledger>(
    alloc: Global,
    catalogue: &Catalogue,
    port: &P,
    rule: &Rule,
    rows: &[Fact],
    before: Found,
    steps: &mut Steps<L>,
) -> Result<Found, NoMemory>
    requires { P.accesses port.now ≡ catalogue.now.accesses }
{
    let mut found = before;
    for row in rows {
        let here = row.in_table(rule.table);
        let is_same = has_group(alloc, catalogue, port, rule, rows, &here, steps)?;
        found.asked = found.asked.saturating_add(1);
        found.differing = found.differing.saturating_add(u32::from(!is_same));
    }
    Ok(found)
}

/// Asks each constraint's index for the key of each row, by the port of a store with this catalogue.
pub fn differing_groups<P: AccessPort, L: Ledger>(
    alloc: Global,
    catalogue: &Catalogue,
    port: &P,
    plain: &Plain,
    before: Found,
    steps: &mut Steps<L>,
) -> Result<Found, NoMemory>
    requires { P.accesses port.now ≡ catalogue.now.accesses }
{
    let mut found = before;
    for rule in plain.rules.iter() {
        found = differing_in(alloc, catalogue, port, rule, &plain.rows, found, steps)?;
    }
    Ok(found)
}
