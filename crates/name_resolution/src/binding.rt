// Binds queries.
ghost use Rattle.std.specs.Prelude.{◌≡◌, ◌++◌, ◌∷◌, [], ◌<◌, ◌≤◌, ◌+◌, ◌^◌, List, All, IfOk, OnOk, length, map, vec_len};
ghost use Rattle.std.specs.List.{flat_map, enumerate_from};
ghost use Rattle.beas_core.specs.declared.query.Block.{Block};
ghost use Rattle.sql_text.specs.declared.tree.BlockTree.{BlockTree};
ghost use Rattle.catalogue.specs.Queries.{QueryIsOver};
ghost use Rattle.catalogue.specs.Schema.{SchemaIsSound};
ghost use Rattle.beas_core.specs.Shapes.{QueryIsWellFormed};
ghost use Rattle.beas_core.specs.Trees.{blocks_of as blocks_in};
ghost use Rattle.name_resolution.specs.Binding.{blocks_of, kinds, places_in_all, shape_of, looked_refusals, refusals, with_blocks, bound_query};
ghost use Rattle.name_resolution.specs.LookedUp.{looked_up, bound_block, BlockIsSmall};
ghost use Rattle.beas_core.specs.Results.{IsRefusedAs};
ghost use Rattle.name_resolution.specs.Refusing.{first, unknown_tables, repeated_aliases, places};

use crate::building::bound_block;
use crate::kinds::{Flaw, Kind};
use crate::looking_up::{look_up, want_tables};
use crate::meaning::LookedUp;
use crate::refusing::{any_block_has_flaw, refuse_block};
use beas_core::{Block, ColType, Fail, Limits, NoMemory, Query, QueryNode};
use catalogue::Catalogue;
use sql_text::{BlockTree, SelectNode, SelectTree};
use std::alloc::Global;

/// The kinds of refusals that come after unknown tables and repeated aliases, in their order.
const KINDS: [Kind; 9] = [
    Kind::OfMeaning(Flaw::UnknownColumn),
    Kind::OfMeaning(Flaw::AmbiguousColumn),
    Kind::OfMeaning(Flaw::NumberRange),
    Kind::OfMeaning(Flaw::TextTooLong),
    Kind::Types,
    Kind::Shapes,
    Kind::Blocks,
    Kind::Atoms,
    Kind::Outputs,
];

/// Adds the blocks of a tree from left to right.
fn push_blocks<'a>(tree: &'a SelectTree, blocks: &mut Vec<&'a BlockTree>) -> Result<(), NoMemory>
    ensures { OnOk result (map (λ b. b.now) blocks.new.items
        ≡ map (λ b. b.now) blocks.old.items ++ blocks_of tree.now) }
{
    match &tree.node {
        SelectNode::Block(block) => {
            blocks.push(block)?;
            Ok(())
        }
        SelectNode::Union(left, right) | SelectNode::Except(left, right) => {
            push_blocks(left, blocks)?;
            push_blocks(right, blocks)
        }
    }
}

fn want_all_tables(alloc: Global, catalogue: &Catalogue, blocks: &[&BlockTree]) -> Result<(), Fail>
    ensures { IsRefusedAs result (first (flat_map (λ b. unknown_tables catalogue.now b.now) blocks.now)) }
{
    for block in blocks {
        want_tables(alloc, catalogue, block.from_items.as_slice())?;
    }
    Ok(())
}

/// The blocks with their names looked up. They are refused where an alias stands twice in one of them.
fn look_up_all(
    alloc: Global,
    catalogue: &Catalogue,
    blocks: &[&BlockTree],
) -> Result<Vec<LookedUp>, Fail>
    ensures blocks { IfOk result (λ found. found.items ≡ map (λ b. looked_up catalogue.now b.now) blocks.now) }
    ensures repeated { IsRefusedAs result (first (flat_map (λ b. repeated_aliases b.now) blocks.now)) }
{
    let mut all = Vec::with_capacity(alloc, blocks.len())?;
    for block in blocks {
        all.push(look_up(alloc, catalogue, block)?)?;
    }
    Ok(all)
}

/// Refuses the first place of a kind in these blocks, if there is one.
fn refuse_kind(
    alloc: Global,
    kind: Kind,
    limits: &Limits,
    shape: &[ColType],
    blocks: &[LookedUp],
) -> Result<(), Fail>
    requires blocks { length blocks.now < 2 ^ 32 }
    requires conditions { All (λ b. length b.conditions < 2 ^ 32) blocks.now }
    ensures { IsRefusedAs result (first (places_in_all limits.now shape.now blocks.now kind)) }
{
    for (place, block) in blocks.iter().enumerate() {
        refuse_block(alloc, kind, limits, shape, place as u32 + 1, block)?;
    }
    Ok(())
}

/// Refuses the first place of these kinds in these blocks, if there is one: all places of a kind come before those of
/// the next.
fn refuse_kinds(
    alloc: Global,
    kinds: &[Kind],
    limits: &Limits,
    shape: &[ColType],
    blocks: &[LookedUp],
) -> Result<(), Fail>
    requires blocks { length blocks.now < 2 ^ 32 }
    requires conditions { All (λ b. length b.conditions < 2 ^ 32) blocks.now }
    ensures { IsRefusedAs result (first (flat_map (places_in_all limits.now shape.now blocks.now) kinds.now)) }
{
    for kind in kinds {
        refuse_kind(alloc, *kind, limits, shape, blocks)?;
    }
    Ok(())
}

/// The types of the outputs of the first block.
fn shape_of(blocks: &[LookedUp]) -> &[ColType]
    ensures { result.now ≡ shape_of blocks.now }
{
    match blocks {
        [first, ..] => first.kinds.as_slice(),
        [] => &[],
    }
}

/// Refuses the first place of any of the kinds in blocks with their names looked up, if there is one, kind by kind in
/// their order.
#[tactic(auto, unfolding(crate::specs::Binding::looked_refusals))]
fn refuse_all(alloc: Global, limits: &Limits, blocks: &[LookedUp]) -> Result<(), Fail>
    requires blocks { length blocks.now < 2 ^ 32 }
    requires conditions { All (λ b. length b.conditions < 2 ^ 32) blocks.now }
    ensures { IsRefusedAs result (first (looked_refusals limits.now blocks.now)) }
{
    // Most queries have no flaw at all: one walk then answers for the first four kinds.
    if any_block_has_flaw(limits.text, blocks) {
        return refuse_kinds(alloc, &KINDS, limits, shape_of(blocks), blocks);
    }
    refuse_kinds(alloc, &KINDS[4..], limits, shape_of(blocks), blocks)
}

fn bound_blocks(alloc: Global, blocks: &[LookedUp]) -> Result<Vec<Block>, NoMemory>
    requires { All BlockIsSmall blocks.now }
    ensures { IfOk result (λ bound. bound.items ≡ map bound_block blocks.now) }
{
    let mut all = Vec::with_capacity(alloc, blocks.len())?;
    for block in blocks {
        all.push(bound_block(alloc, block)?)?;
    }
    Ok(all)
}

/// Joins the last blocks as the sides of a tree do. Those of the right side are the last, so it comes first.
#[cycle(join_blocks)]
fn join_sides(
    alloc: Global,
    left: &SelectTree,
    right: &SelectTree,
    blocks: &mut Vec<Block>,
) -> Result<(Box<Query>, Box<Query>), NoMemory>
    requires { length (blocks_of left.now ++ blocks_of right.now) ≤ vec_len blocks.old }
    ensures rest { OnOk result (vec_len blocks.new + length (blocks_of left.now ++ blocks_of right.now)
        ≡ vec_len blocks.old) }
    ensures sides { IfOk result (λ sides. (front : List Block) (bind : BlockTree → Block)
        → blocks.old.items ≡ front ++ map bind (blocks_of left.now ++ blocks_of right.now)
        → (blocks.new.items ≡ front) × (sides.0.value ≡ with_blocks bind left.now)
        × (sides.1.value ≡ with_blocks bind right.now)) }
{
    let right = Box::new(alloc, join_blocks(alloc, right, blocks)?)?;
    let left = Box::new(alloc, join_blocks(alloc, left, blocks)?)?;
    Ok((left, right))
}

/// Joins the last blocks as the tree does.
#[cycle(join_blocks)]
fn join_blocks(alloc: Global, tree: &SelectTree, blocks: &mut Vec<Block>) -> Result<Query, NoMemory>
    requires { length (blocks_of tree.now) ≤ vec_len blocks.old }
    ensures left { OnOk result (vec_len blocks.new + length (blocks_of tree.now) ≡ vec_len blocks.old) }
    ensures query { IfOk result (λ query. (front : List Block) (bind : BlockTree → Block)
        → blocks.old.items ≡ front ++ map bind (blocks_of tree.now)
        → (blocks.new.items ≡ front) × (query ≡ with_blocks bind tree.now)) }
{
    match &tree.node {
        SelectNode::Block(_) => {
            let Some(block) = blocks.pop() else {
                unreachable!()
            };
            Ok(Query {
                node: QueryNode::Block(block),
            })
        }
        SelectNode::Union(left, right) => {
            let (left, right) = join_sides(alloc, left, right, blocks)?;
            Ok(Query {
                node: QueryNode::Union(left, right),
            })
        }
        SelectNode::Except(left, right) => {
            let (left, right) = join_sides(alloc, left, right, blocks)?;
            Ok(Query {
                node: QueryNode::Except(left, right),
            })
        }
    }
}

/// The blocks of a tree with their names looked up.
fn looked_up_blocks(
    alloc: Global,
    catalogue: &Catalogue,
    tree: &SelectTree,
) -> Result<Vec<LookedUp>, Fail>
    ensures blocks { IfOk result (λ found. found.items ≡ map (looked_up catalogue.now) (blocks_of tree.now)) }
    ensures refused { IsRefusedAs result (first (flat_map (unknown_tables catalogue.now) (blocks_of tree.now)
        ++ flat_map repeated_aliases (blocks_of tree.now))) }
{
    let mut blocks = Vec::new(alloc);
    push_blocks(tree, &mut blocks)?;
    want_all_tables(alloc, catalogue, &blocks)?;
    look_up_all(alloc, catalogue, &blocks)
}

/// Binds a query kind by kind of refusal, as one has to be bound in which something may be refused.
#[inline(never)]
pub fn bound_by_kinds(
    alloc: Global,
    catalogue: &Catalogue,
    limits: &Limits,
    tree: &SelectTree,
) -> Result<Query, Fail>
    requires schema { SchemaIsSound catalogue.now }
    requires blocks { length (blocks_of tree.now) < 2 ^ 32 }
    requires conditions { All (λ b. length b.conditions < 2 ^ 32) (blocks_of tree.now) }
    ensures refused { IsRefusedAs result (first (refusals limits.now catalogue.now tree.now)) }
    ensures query { IfOk result (λ query. query ≡ bound_query catalogue.now tree.now) }
{
    let blocks = looked_up_blocks(alloc, catalogue, tree)?;
    refuse_all(alloc, limits, &blocks)?;
    let mut bound = bound_blocks(alloc, &blocks)?;
    Ok(join_blocks(alloc, tree, &mut bound)?)
}
