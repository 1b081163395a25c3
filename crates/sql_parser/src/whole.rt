// All of the tokens of a piece.
ghost use Rattle.std.specs.Prelude.{◌≡◌, if◌then◌else◌, [], Ok, Err, IfOk, IsErrOf};
ghost use Rattle.beas_core.specs.declared.refusal.Refusal.{Refusal};
ghost use Rattle.beas_core.specs.Results.{Gives};
ghost use Rattle.sql_text.specs.Grammar.{wants_distinct};
ghost use Rattle.sql_text.specs.Symbols.{symbols};
ghost use Rattle.sql_text.specs.declared.tree.Statement.{Statement};
ghost use Rattle.sql_parser.specs.Outcome.{Parses, Reading, lacks_distinct, found_reading};
ghost use Rattle.sql_parser.specs.Reading.{read_statement};
ghost use Rattle.token_reader.specs.Reading.{has_group};

use crate::nesting::group_unless_too_deep;
use crate::parts::unless;
use crate::statements::statement;
use beas_core::{Fail, Refusal};
use sql_text::{SelectNode, SelectTree, Statement};
use sql_tokens::Token;
use std::alloc::Global;
use token_reader::{ReadError, Reader};

/// Reads a statement from all of the tokens, or a query that lacks its DISTINCT.
fn all_of(tokens: &[Token], alloc: Global, is_grouped: bool) -> Result<Statement, ReadError>
    requires { is_grouped ≡ has_group (symbols tokens.now) }
    ensures ok { IfOk result (λ s. read_statement (symbols tokens.now) ≡ Some (s, [])) }
    ensures syntax { IsErrOf result ReadError.Syntax → (s : Statement) → read_statement (symbols tokens.now) ≡ Some (s, [])
        → ⊥ }
{
    let mut reader = Reader::new(tokens);
    let found = statement(&mut reader, alloc, is_grouped)?;
    unless(reader.tokens_left() > 0, found)
}

fn is_plain_block(tree: &SelectTree) -> bool
    ensures { result ≡ wants_distinct tree.now }
{
    match &tree.node {
        SelectNode::Block(block) => !block.distinct,
        SelectNode::Union(..) | SelectNode::Except(..) => false,
    }
}

/// Whether a statement is over a query that lacks its DISTINCT.
fn lacks_distinct(statement: &Statement) -> bool
    ensures { result ≡ lacks_distinct statement.now }
{
    match statement {
        Statement::Select { tree }
        | Statement::Explain { tree }
        | Statement::ScanOk { tree }
        | Statement::Specialise { tree } => is_plain_block(tree),
        Statement::CreateTable { .. }
        | Statement::CreateAccess { .. }
        | Statement::DropAccess { .. }
        | Statement::Load { .. }
        | Statement::Insert { .. }
        | Statement::Delete { .. }
        | Statement::DiscoverGroup { .. }
        | Statement::DiscoverPairs { .. }
        | Statement::Grouped { .. } => false,
    }
}

/// The statement, unless it lacks its DISTINCT. It takes any type, since the drop of a statement is long.
fn unless_lone<T: Drop>(lacks_distinct: bool, statement: T) -> Result<T, Fail>
    ensures { result ≡ (if lacks_distinct then Err (Fail.Refused Refusal.NeedsDistinct) else Ok statement) }
{
    if lacks_distinct {
        return Err(Fail::Refused(Refusal::NeedsDistinct));
    }
    Ok(statement)
}

/// Reads the tokens of a piece, unless memory runs out.
fn reading(alloc: Global, tokens: &[Token]) -> Result<Statement, Fail>
    ensures { Gives result (found_reading (symbols tokens.now)) }
{
    let Some(is_grouped) = group_unless_too_deep(tokens) else {
        return Err(Fail::Refused(Refusal::TooDeep));
    };
    match all_of(tokens, alloc, is_grouped) {
        Ok(statement) => unless_lone(lacks_distinct(&statement), statement),
        Err(ReadError::Syntax) => Err(Fail::Refused(Refusal::Syntax)),
        Err(ReadError::NoMemory) => Err(Fail::NoMemory),
    }
}

/// The statement that the tokens of a piece spell. They are refused, in this order, where they are nested deeper
/// than 32 (`TooDeep`), where they spell neither a statement nor a query that lacks its DISTINCT (`Syntax`), and
/// where they spell such a query, also after EXPLAIN, SCAN OK or SPECIALISE (`NeedsDistinct`).
pub fn parse(alloc: Global, tokens: &[Token]) -> Result<Statement, Fail>
    // What is answered is so by the grammar.
    ensures spelled { IfOk result (λ s. Parses (symbols tokens.now) (Ok s)) }
    ensures refused { (why : Refusal) → IsErrOf result (Fail.Refused why) → Parses (symbols tokens.now) (Err why) }
    // What is so by the grammar is answered, unless memory runs out.
    ensures answered { (reading : Reading) → Parses (symbols tokens.now) reading → Gives result reading }
    ensures parsed { Gives result (found_reading (symbols tokens.now)) }
{
    reading(alloc, tokens)
}
