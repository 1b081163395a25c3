// What one probe fetches, added to what is kept.
ghost use Rattle.std.specs.Prelude.{◌≡◌, ◌+◌, ◌++◌, ◌<◌, ◌≤◌, length, pos, slice_index_or, take, vec_capacity, vec_len, [], All, IfOk, IsTrue, OnOk};
ghost use Rattle.beas_core.specs.declared.value.Value.TheVariants.{Int};
ghost use Rattle.beas_core.specs.Derivations.{access_in, is_live};
ghost use Rattle.beas_core.specs.Groups.{group_of, member_columns};
ghost use Rattle.beas_core.specs.Reads.{probe_reads};
ghost use Rattle.block_walk.specs.Fetched.{Pushed};
ghost use Rattle.plan_ops.specs.Joins.{HitsAre};
ghost use Rattle.plan_ops.specs.Sieves.{IsOwn, is_met_alone, passes as passes_by, sieved};
ghost use Rattle.plan_ops.specs.Stages.{IsStage};

use crate::group::Group;
use beas_core::{
    AccessId, AccessPort, ColumnId, Hits, NoMemory, Normal, Operand, Steps, Value, compare,
    sign_holds,
};
use plan_ops::{Own, Stage, push_copy};
use std::alloc::Global;
use std::sync::ledger::Ledger;

// Adds copies of a key's values, where there is room for them.
fn push_key(alloc: Global, key: &[Value], values: &mut Vec<Value>) -> Result<(), NoMemory>
    requires room { vec_len values.old + length key.now ≤ vec_capacity values.old }
    ensures items { OnOk result (values.new.items ≡ values.old.items ++ key.now) }
    ensures len { OnOk result (vec_len values.new ≡ vec_len values.old + length key.now) }
    ensures room { OnOk result (vec_capacity values.new ≡ vec_capacity values.old) }
{
    for value in key {
        push_copy(alloc, value, values)?;
    }
    Ok(())
}

// Adds the values of one tuple that a probe found. It begins with the key that was probed, so that the port is asked for the
// others alone.
fn push_tuple<P: AccessPort>(
    alloc: Global,
    port: &P,
    columns: &[ColumnId],
    key: &[Value],
    hits: &Hits,
    i: u32,
    values: &mut Vec<Value>,
) -> Result<(), NoMemory>
    requires hits { HitsAre (P.accesses port.now) (P.stands port.now) (P.members port.now) hits.now }
    requires columns { columns.now ≡ member_columns (access_in (P.accesses port.now) hits.now.access) }
    requires member { i < hits.now.len }
    requires width { length key.now ≤ length columns.now }
    requires begins { take (length key.now) (slice_index_or (P.members port.now hits.now) i []) ≡ key.now }
    ensures { OnOk result (values.new.items ≡ values.old.items ++ slice_index_or (P.members port.now hits.now) i []) }
{
    values.reserve(columns.len())?;
    push_key(alloc, key, values)?;
    for at in key.len()..columns.len() {
        push_copy(alloc, port.value(hits, i, columns[at]), values)?;
    }
    Ok(())
}

// The value of a tuple that a probe found at a place.
fn value_at<'a, P: AccessPort>(
    port: &'a P,
    columns: &[ColumnId],
    hits: &Hits,
    i: u32,
    place: usize,
) -> &'a Value
    requires hits { HitsAre (P.accesses port.now) (P.stands port.now) (P.members port.now) hits.now }
    requires columns { columns.now ≡ member_columns (access_in (P.accesses port.now) hits.now.access) }
    requires member { i < hits.now.len }
    requires place { place < length columns.now }
    ensures { result.now ≡ slice_index_or (slice_index_or (P.members port.now hits.now) i []) place (Int (pos 0)) }
{
    port.value(hits, i, columns[place])
}

// Whether a tuple that a probe found meets a comparison of its own values. The port is asked for these alone.
fn own_meets<P: AccessPort>(
    port: &P,
    block: &Normal,
    stage: &Stage,
    hits: &Hits,
    i: u32,
    own: Own,
) -> bool
    requires hits { HitsAre (P.accesses port.now) (P.stands port.now) (P.members port.now) hits.now }
    requires columns { stage.now.join.picked.0 ≡ member_columns (access_in (P.accesses port.now) hits.now.access) }
    requires member { i < hits.now.len }
    requires own { IsOwn block.now stage.now.atom stage.now.join.picked.0 own }
    ensures { result ≡ is_met_alone block.now (slice_index_or (P.members port.now hits.now) i []) own }
{
    let comparison = &block.comparisons.as_slice()[own.number];
    let columns = stage.join.picked.tuple();
    let left = value_at(port, columns, hits, i, own.left);
    match &comparison.right {
        Operand::Fixed(fixed) => sign_holds(comparison.sign, compare(left, fixed)),
        Operand::At(_) => {
            let other = value_at(port, columns, hits, i, own.right);
            sign_holds(comparison.sign, compare(left, other))
        }
    }
}

// Whether a tuple that a probe found passes the sieve of its step.
fn passes<P: AccessPort>(port: &P, block: &Normal, stage: &Stage, hits: &Hits, i: u32) -> bool
    requires hits { HitsAre (P.accesses port.now) (P.stands port.now) (P.members port.now) hits.now }
    requires columns { stage.now.join.picked.0 ≡ member_columns (access_in (P.accesses port.now) hits.now.access) }
    requires member { i < hits.now.len }
    requires own { All (IsOwn block.now stage.now.atom stage.now.join.picked.0) stage.now.sieve.own.items }
    ensures { result ≡ passes_by block.now stage.now.sieve (slice_index_or (P.members port.now hits.now) i []) }
{
    for own in &stage.sieve.own {
        if !own_meets(port, block, stage, hits, i, *own) {
            return false;
        }
    }
    true
}

// Adds the values of the tuples that pass the sieve, or of the first one that does, and says how many these are. One that doesn't
// pass isn't copied.
fn push_kept<P: AccessPort>(
    alloc: Global,
    port: &P,
    block: &Normal,
    stage: &Stage,
    one: bool,
    key: &[Value],
    hits: &Hits,
    values: &mut Vec<Value>,
) -> Result<usize, NoMemory>
    requires hits { HitsAre (P.accesses port.now) (P.stands port.now) (P.members port.now) hits.now }
    requires columns { stage.now.join.picked.0 ≡ member_columns (access_in (P.accesses port.now) hits.now.access) }
    requires own { All (IsOwn block.now stage.now.atom stage.now.join.picked.0) stage.now.sieve.own.items }
    requires width { length key.now ≤ length stage.now.join.picked.0 }
    requires begins { All (λ tuple. take (length key.now) tuple ≡ key.now) (P.members port.now hits.now) }
    ensures { IfOk result (Pushed (length stage.now.join.picked.0) values.old.items values.new.items
        (sieved block.now stage.now.sieve one (P.members port.now hits.now))) }
{
    let columns = stage.join.picked.tuple();
    let mut kept = 0;
    for i in 0..hits.len() {
        if passes(port, block, stage, hits, i) {
            push_tuple(alloc, port, columns, key, hits, i, values)?;
            kept += 1;
            if one {
                return Ok(1);
            }
        }
    }
    Ok(kept)
}

/// What a probe found: how many tuples, of how many the values were added, and all of them for clauses.
#[derive(Drop)]
pub struct Gathered {
    pub found: usize,
    pub kept: usize,
    pub all: Group,
}

/// Adds the values of those tuples of a key's group that a step's sieve keeps, over the columns of the constraint. It is one probe,
/// which counts the greater of 1 and the number of all tuples, out of memory too; some of the values may be there then.
pub fn fetch<P: AccessPort, L: Ledger>(
    alloc: Global,
    port: &P,
    block: &Normal,
    id: AccessId,
    stage: &Stage,
    one: bool,
    key: &[Value],
    values: &mut Vec<Value>,
    steps: &mut Steps<L>,
) -> Result<Gathered, NoMemory>
    requires live { IsTrue (is_live (P.accesses port.now) id) }
    requires access { stage.now.access.value ≡ access_in (P.accesses port.now) id }
    requires stage { IsStage block.now stage.now }
    requires width { length key.now ≡ length (access_in (P.accesses port.now) id).key }
    ensures all { let access = access_in (P.accesses port.now) id in
        IfOk result (λ gathered. gathered.all.rows ≡ group_of (P.rows port.now access.table) access key.now) }
    ensures found { let access = access_in (P.accesses port.now) id in
        IfOk result (λ gathered. gathered.found ≡ length (group_of (P.rows port.now access.table) access key.now)) }
    ensures kept { let access = access_in (P.accesses port.now) id in
        IfOk result (λ gathered. Pushed (length stage.now.join.picked.0) values.old.items values.new.items
        (sieved block.now stage.now.sieve one (group_of (P.rows port.now access.table) access key.now)) gathered.kept) }
    ensures cost { steps.new
        ≡ steps.old + probe_reads (P.rows port.now) (access_in (P.accesses port.now) id) key.now }
{
    let hits = port.probe(id, key, steps);
    let all = Group::of(port, &hits);
    let kept = push_kept(alloc, port, block, stage, one, key, &hits, values)?;
    Ok(Gathered {
        found: hits.len() as usize,
        kept,
        all,
    })
}
