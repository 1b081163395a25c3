// The keys that valuations give to a step.
ghost use Rattle.std.specs.Prelude.{◌≡◌, ◌<◌, pos, map, zip, length, IfOk};
ghost use Rattle.beas_core.specs.Derivations.{access_in};
ghost use Rattle.beas_core.specs.Valuations.{value_of};
ghost use Rattle.beas_core.specs.Reads.{keys_for};

use crate::bindings::{bindings_between, values_of};
use crate::block_on_tables::BlockOnTables;
use crate::rows::distinct_rows;
use beas_core::{Access, AccessId, ColumnId, DStep, List, NoMemory, Row, Value};
use reference_coverage::access_with;
use reference_normal_form::{classes_at, classes_in};
use std::alloc::Global;

/// The key columns of the constraint with this id, none where there is no such constraint.
#[tactic(auto, unfolding(beas_core::specs::Derivations::access_in))]
pub fn key_columns(accesses: &[Access], id: AccessId) -> &[ColumnId]
    ensures { result.now ≡ (access_in accesses.now id).key }
{
    match access_with(accesses, id) {
        Some(access) => access.key.as_slice(),
        None => &[],
    }
}

/// The key of a valuation: its values of the key's classes, where `classes` are those that it has.
fn key_of(
    alloc: Global,
    classes: &[u16],
    key_classes: &[u16],
    valuation: &[Value],
) -> Result<Row, NoMemory>
    ensures { IfOk result (λ key. key ≡ map (value_of (zip classes.now valuation.now)) key_classes.now) }
{
    let bindings = bindings_between(alloc, classes, valuation)?;
    values_of(alloc, bindings.as_slice(), key_classes)
}

fn keys_in(
    alloc: Global,
    classes: &[u16],
    key_classes: &[u16],
    found: &[Row],
) -> Result<List<Row>, NoMemory>
    ensures { IfOk result (λ keys. keys
        ≡ map (λ valuation. map (value_of (zip classes.now valuation)) key_classes.now) found.now) }
{
    let mut keys = List::new(alloc);
    for valuation in found {
        keys.push(key_of(alloc, classes, key_classes, valuation.as_slice())?)?;
    }
    Ok(keys)
}

/// The distinct keys that valuations of the classes of a set give to a step.
pub fn keys_for(
    alloc: Global,
    block: &BlockOnTables,
    step: &DStep,
    set: &[bool],
    found: &[Row],
) -> Result<List<Row>, NoMemory>
    requires { length set.now < 65536 }
    ensures { IfOk result (λ keys. keys
        ≡ keys_for block.now.normal.now block.now.accesses.now step.now set.now found.now) }
{
    let key = key_columns(block.accesses, step.access);
    let key_classes = classes_at(alloc, block.normal, step.atom, key)?;
    let classes = classes_in(alloc, set)?;
    let keys = keys_in(alloc, &classes, &key_classes, found)?;
    Ok(distinct_rows(keys))
}
