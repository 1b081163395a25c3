// Queries: terms joined by UNION and EXCEPT, grouped from the left.
ghost use Rattle.std.specs.Prelude.{◌≡◌, IfOk, length};
ghost use Rattle.sql_text.specs.Trees.{Block, Union, Except};
ghost use Rattle.sql_parser.specs.Fronts.{joined_to};
ghost use Rattle.token_reader.specs.Reading.{GivesWithRest};
ghost use Rattle.sql_parser.specs.Reading.{read_block_term, read_term, read_query, read_whole_query, then_close};

use crate::blocks::block;
use beas_core::NoMemory;
use sql_text::{SelectNode, SelectTree};
use std::alloc::Global;
use token_reader::{ReadError, Reader};

/// What stands before a term.
#[derive(Debug, Drop)]
pub enum Front {
    Nothing,
    BeforeUnion(SelectTree),
    BeforeExcept(SelectTree),
}

fn join_to(alloc: Global, front: Front, tree: SelectTree) -> Result<SelectTree, NoMemory>
    ensures { IfOk result (λ joined. joined ≡ joined_to front tree) }
{
    match front {
        Front::Nothing => Ok(tree),
        Front::BeforeUnion(left) => {
            let left = Box::new(alloc, left)?;
            let right = Box::new(alloc, tree)?;
            Ok(SelectTree {
                node: SelectNode::Union(left, right),
            })
        }
        Front::BeforeExcept(left) => {
            let left = Box::new(alloc, left)?;
            let right = Box::new(alloc, tree)?;
            Ok(SelectTree {
                node: SelectNode::Except(left, right),
            })
        }
    }
}

/// Reads a block, as a query.
#[tactic(auto, unfolding(crate::specs::Reading::read_block_term))]
pub fn block_term(reader: &mut Reader, alloc: Global) -> Result<SelectTree, ReadError>
    ensures { GivesWithRest result reader.new (read_block_term reader.old) }
{
    let block = block(reader, alloc)?;
    Ok(SelectTree {
        node: SelectNode::Block(block),
    })
}

#[cycle(queries)]
#[tactic(auto, unfolding(crate::specs::Reading::read_term, crate::specs::Reading::then_close))]
fn term(reader: &mut Reader, alloc: Global, room: usize) -> Result<SelectTree, ReadError>
    ensures { GivesWithRest result reader.new (read_term (read_query room Front.Nothing) reader.old) }
{
    if reader.take_mark("(") {
        let tree = some_terms(reader, alloc, room)?;
        reader.want_mark(")")?;
        return Ok(tree);
    }
    block_term(reader, alloc)
}

#[cycle(queries)]
fn some_terms(reader: &mut Reader, alloc: Global, mut room: usize) -> Result<SelectTree, ReadError>
    ensures { GivesWithRest result reader.new (read_query room Front.Nothing reader.old) }
{
    let mut front = Front::Nothing;
    while room > 0 {
        room -= 1;
        let term = term(reader, alloc, room)?;
        let tree = join_to(alloc, front, term)?;
        if reader.next_is_word("union") {
            front = Front::BeforeUnion(tree);
        } else if reader.next_is_word("except") {
            front = Front::BeforeExcept(tree);
        } else {
            return Ok(tree);
        }
        reader.skip();
    }
    Err(ReadError::Syntax)
}

/// Reads a query.
pub fn query(reader: &mut Reader, alloc: Global) -> Result<SelectTree, ReadError>
    ensures { GivesWithRest result reader.new (read_whole_query reader.old) }
{
    let room = reader.tokens_left();
    some_terms(reader, alloc, room)
}
