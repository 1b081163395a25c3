// The probes of a derivation and of a query over tables, in the order in which they are made.
ghost use Rattle.std.specs.Prelude.{◌≡◌, ◌<◌, ◌+◌, ◌++◌, ◌∷◌, [], ◌^◌, if◌then◌else◌, length, map, IfOk, None, OnOk};
ghost use Rattle.beas_core.specs.Queries.{probes_in, query_probes};
ghost use Rattle.beas_core.specs.Reads.{keys_after, probes, probes_after};
ghost use Rattle.beas_core.specs.Trees.{Single, blocks_of};
ghost use Rattle.reference_coverage.specs.Tasks.{BlocksHaveFewPlaces};
ghost use Rattle.reference_normal_form.specs.Few.{HasFewPlaces};
ghost use Rattle.reference_evaluation.specs.Tables.{rows_in};

use crate::answers::answers;
use crate::bindings::{classes_after, valuations_of};
use crate::block_on_tables::BlockOnTables;
use crate::keys::keys_for;
use crate::plans_on_tables::PlansOnTables;
use beas_core::{
    Block, DStep, List, NoMemory, Query, QueryNode, Row, recall_classes, recall_length,
};
use reference_coverage::{is_guided, number_after, steps_of};
use reference_normal_form::normal_of;
use std::alloc::Global;
use std::marker::Model;

/// A key that a step looks up. Steps are numbered from 0 on.
#[derive(Drop)]
pub struct StepProbe {
    pub step: usize,
    pub key: Row,
}

impl Model for StepProbe {
    ghost use Rattle.beas_core.specs.Reads.{Probe};

    ghost Value = { Probe };

    ghost view = { λ p. record { step = p.step; key = p.key } };
}

/// A probe of a block, by its number from 0 on.
#[derive(Drop)]
pub struct BlockProbe {
    pub block: usize,
    pub probe: StepProbe,
}

impl Model for BlockProbe {
    ghost use Rattle.beas_core.specs.Queries.{BlockProbe};

    ghost Value = { BlockProbe };

    ghost view = { λ p. record { block = p.block; probe = p.probe } };
}

// The keys of a step that follows those that are done.
fn keys_after(
    alloc: Global,
    block: &BlockOnTables,
    guide: &Option<List<Row>>,
    done: &[DStep],
    step: &DStep,
) -> Result<List<Row>, NoMemory>
    ensures { IfOk result (λ keys. keys ≡ keys_after (rows_in block.now.tables.now) block.now.normal.now
        block.now.accesses.now guide.now done.now step.now) }
{
    // There are fewer than 65536 classes, as `keys_for` asks of the set.
    recall_classes(block.normal);
    let set = classes_after(alloc, block, guide, done)?;
    let found = valuations_of(alloc, block, guide, done)?;
    keys_for(alloc, block, step, set.as_slice(), found.as_slice())
}

// Adds the probes of the step with this number.
fn push_keys(found: &mut List<StepProbe>, step: usize, keys: List<Row>) -> Result<(), NoMemory>
    ensures { OnOk result (found.new ≡ found.old ++ map (λ key. record { step = step; key = key }) keys) }
{
    for key in keys.into_vec() {
        found.push(StepProbe { step, key })?;
    }
    Ok(())
}

fn one_more(alloc: Global, done: &[DStep], step: &DStep) -> Result<List<DStep>, NoMemory>
    ensures { IfOk result (λ more. more ≡ done.now ++ step.now ∷ []) }
{
    let mut more = List::new(alloc);
    for before in done {
        more.push(*before)?;
    }
    more.push(*step)?;
    Ok(more)
}

// Adds the probes of further steps, after those that are done.
#[tactic(auto, using(std::proofs::Common::append_assoc))]
fn push_after(
    alloc: Global,
    found: &mut List<StepProbe>,
    block: &BlockOnTables,
    guide: &Option<List<Row>>,
    done: &[DStep],
    steps: &[DStep],
) -> Result<(), NoMemory>
    ensures { OnOk result (found.new ≡ found.old ++ probes_after (rows_in block.now.tables.now) block.now.normal.now
        block.now.accesses.now guide.now done.now steps.now) }
{
    match steps {
        [] => Ok(()),
        [first, rest @ ..] => {
            let keys = keys_after(alloc, block, guide, done, first)?;
            push_keys(found, done.len(), keys)?;
            let more = one_more(alloc, done, first)?;
            push_after(alloc, found, block, guide, more.as_slice(), rest)
        }
    }
}

// The probes of a derivation: for each step its distinct keys in order.
fn probes(
    alloc: Global,
    block: &BlockOnTables,
    guide: &Option<List<Row>>,
    steps: &[DStep],
) -> Result<List<StepProbe>, NoMemory>
    ensures { IfOk result (λ found. found ≡ probes (rows_in block.now.tables.now) block.now.normal.now
        block.now.accesses.now guide.now steps.now) }
{
    let mut found = List::new(alloc);
    push_after(alloc, &mut found, block, guide, &[], steps)?;
    Ok(found)
}

// The probes of a derivation, from the answers of its guide only where the block is guided.
fn own_probes(
    alloc: Global,
    block: &BlockOnTables,
    is_guided: bool,
    guide: &Option<List<Row>>,
    steps: &[DStep],
) -> Result<List<StepProbe>, NoMemory>
    ensures { IfOk result (λ found. found ≡ probes (rows_in block.now.tables.now) block.now.normal.now
        block.now.accesses.now (if is_guided then guide.now else None) steps.now) }
{
    if is_guided {
        probes(alloc, block, guide, steps)
    } else {
        probes(alloc, block, &None, steps)
    }
}

// Adds each probe with the number of its block.
fn push_with_block(
    all: &mut List<BlockProbe>,
    block: usize,
    found: List<StepProbe>,
) -> Result<(), NoMemory>
    ensures { OnOk result (all.new ≡ all.old ++ map (λ p. record { block = block; probe = p }) found) }
{
    for probe in found.into_vec() {
        all.push(BlockProbe { block, probe })?;
    }
    Ok(())
}

// Adds the probes of the block with this number.
fn push_of_block(
    alloc: Global,
    all: &mut List<BlockProbe>,
    over: &PlansOnTables,
    number: usize,
    guide: &Option<List<Row>>,
    block: &Block,
) -> Result<(), NoMemory>
    requires { HasFewPlaces block.now }
    ensures { OnOk result (all.new ≡ all.old ++ probes_in (rows_in over.now.tables.now) over.now.plans.accesses.now
        over.now.plans.guided.now over.now.plans.derivations.now number guide.now (Single block.now)) }
{
    let normal = normal_of(alloc, block)?;
    let on_tables = BlockOnTables {
        tables: over.tables,
        normal: &normal,
        accesses: over.plans.accesses,
    };
    let steps = steps_of(over.plans.derivations, number);
    let own = is_guided(over.plans.guided, number);
    let found = own_probes(alloc, &on_tables, own, guide, steps)?;
    push_with_block(all, number, found)
}

// Adds the probes of a tree whose first block has this number: block by block, step by step, keys in order.
#[tactic(auto, using(std::proofs::Common::append_assoc))]
fn push_probes(
    alloc: Global,
    all: &mut List<BlockProbe>,
    over: &PlansOnTables,
    first: usize,
    guide: &Option<List<Row>>,
    query: &Query,
) -> Result<(), NoMemory>
    requires numbers { first + length (blocks_of query.now) < 2 ^ 64 }
    requires few { BlocksHaveFewPlaces query.now }
    ensures { OnOk result (all.new ≡ all.old ++ probes_in (rows_in over.now.tables.now) over.now.plans.accesses.now
        over.now.plans.guided.now over.now.plans.derivations.now first guide.now query.now) }
{
    match &query.node {
        QueryNode::Block(block) => push_of_block(alloc, all, over, first, guide, block),
        QueryNode::Union(left, right) => {
            push_probes(alloc, all, over, first, guide, left)?;
            let next = number_after(left, first);
            push_probes(alloc, all, over, next, guide, right)
        }
        QueryNode::Except(left, right) => {
            push_probes(alloc, all, over, first, guide, left)?;
            let guided = over.plans.guided;
            let own = Some(answers(alloc, over.tables, guided, first, guide, left)?);
            let next = number_after(left, first);
            push_probes(alloc, all, over, next, &own, right)
        }
    }
}

/// The probes of a query by the plans of its blocks.
pub fn query_probes(
    alloc: Global,
    over: &PlansOnTables,
    query: &Query,
) -> Result<List<BlockProbe>, NoMemory>
    requires flags { length over.now.plans.guided.now ≡ length (blocks_of query.now) }
    requires few { BlocksHaveFewPlaces query.now }
    ensures { IfOk result (λ found. found ≡ query_probes (rows_in over.now.tables.now) over.now.plans.accesses.now
        over.now.plans.guided.now over.now.plans.derivations.now query.now) }
{
    // There are fewer than 2^64 flags, as `push_probes` asks of the blocks.
    recall_length(over.plans.guided);
    let mut all = List::new(alloc);
    push_probes(alloc, &mut all, over, 0, &None, query)?;
    Ok(all)
}
