// The canonical text of a statement, from any of its spellings.
ghost use Rattle.std.specs.Prelude.{◌≡◌, ◌≤◌, ℕ, List, Ok, Err, length, IfOk, IsErrOf};
ghost use Rattle.beas_core.specs.declared.refusal.Refusal.{Refusal};
ghost use Rattle.sql_tokens.specs.Tokens.{tokens_of};
ghost use Rattle.sql_text.specs.declared.tree.Statement.{Statement};
ghost use Rattle.sql_text.specs.Symbols.{symbols};
ghost use Rattle.sql_text.specs.Canonical.{canonical_text};
ghost use Rattle.sql_parser.specs.Outcome.{Parses};

use beas_core::{Fail, Text};
use sql_parser::parse;
use sql_text::{Statement as Tree, print};
use sql_tokens::{Token, lex};
use std::alloc::Global;

/// The canonical text of the statement that a source of at most 16,777,216 bytes spells. A source that spells none
/// is refused as its tokens are.
pub fn canonical(alloc: Global, source: &str) -> Result<Text, Fail>
    requires { length source.now ≤ 16777216 }
    ensures text { IfOk result (λ text. (s : Statement) × Parses (symbols (tokens_of source.now)) (Ok s)
        × (text ≡ canonical_text s)) }
    ensures refused { (why : Refusal) → IsErrOf result (Fail.Refused why)
        → Parses (symbols (tokens_of source.now)) (Err why) }
{
    let tokens = lex(alloc, source)?;
    canonical_of(alloc, tokens.as_slice())
}

/// The canonical text of the statement that tokens spell, or the refusal of tokens that spell none.
fn canonical_of(alloc: Global, tokens: &[Token]) -> Result<Text, Fail>
    ensures text { IfOk result (λ text. (s : Statement) × Parses (symbols tokens.now) (Ok s)
        × (text ≡ canonical_text s)) }
    ensures refused { (why : Refusal) → IsErrOf result (Fail.Refused why) → Parses (symbols tokens.now) (Err why) }
{
    match parse(alloc, tokens) {
        Ok(statement) => {
            let text = printed(alloc, &statement);
            drop(statement);
            text
        }
        Err(why) => Err(why),
    }
}

/// The canonical text of a statement.
fn printed(alloc: Global, statement: &Tree) -> Result<Text, Fail>
    ensures text { IfOk result (λ text. text ≡ canonical_text statement.now) }
    ensures unrefused { (why : Refusal) → IsErrOf result (Fail.Refused why) → ⊥ }
{
    Ok(print(alloc, statement)?)
}
