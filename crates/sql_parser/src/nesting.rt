// What a look over all of the tokens of a statement tells: how deep they are nested, and whether they have a word GROUP.
ghost use Rattle.std.specs.Prelude.{◌≡◌, ◌<◌, ◌≤◌, ◌-◌, ◌^◌, ◌||◌, ℕ, MatchOption, codes, nat_lt, true, false};
ghost use Rattle.token_reader.specs.Reading.{has_group};
ghost use Rattle.sql_text.specs.Symbols.{Symbol, word, mark, symbol_of, symbols, is_word, joins_blocks, depth_after, joins_after, depth};

use beas_core::is_text;
use sql_tokens::{Token, TokenKind};

/// How deep a statement may be nested.
const DEEPEST: usize = 32;

/// How many words UNION and EXCEPT nest nothing.
const FREE_JOINS: usize = 1024;

fn joins_two_blocks(text: &str) -> bool
    ensures { result ≡ joins_blocks (word text.now) }
{
    is_text(text, "union") || is_text(text, "except")
}

/// The depth after a word UNION or EXCEPT.
fn depth_after_join(depth: usize, joins: usize) -> usize
    requires { depth ≤ 32 }
    ensures { (symbol : Symbol) → joins_blocks symbol ≡ true → result ≡ depth_after depth joins symbol }
{
    if FREE_JOINS <= joins {
        depth + 1
    } else {
        depth
    }
}

/// The depth after a mark.
fn depth_after_mark(depth: usize, text: &str) -> usize
    requires { depth ≤ 32 }
    ensures { (joins : ℕ) → result ≡ depth_after depth joins (mark text.now) }
{
    if is_text(text, "(") {
        depth + 1
    } else if is_text(text, ")") {
        depth.saturating_sub(1)
    } else {
        depth
    }
}

/// What a look over tokens told so far.
#[derive(Clone, Copy)]
struct Look {
    depth: usize,
    joins: usize,
    has_group: bool,
}

fn look_at_word(look: Look, text: &str) -> Look
    requires depth { look.depth ≤ 32 }
    requires joins { look.joins < 2 ^ 64 - 1 }
    ensures depth { result.depth ≡ depth_after look.depth look.joins (word text.now) }
    ensures joins { result.joins ≡ joins_after look.joins (word text.now) }
    ensures group { result.has_group ≡ (look.has_group || is_word (codes "group") (word text.now)) }
{
    let has_group = look.has_group || is_text(text, "group");
    if joins_two_blocks(text) {
        Look {
            depth: depth_after_join(look.depth, look.joins),
            joins: look.joins + 1,
            has_group,
        }
    } else {
        Look {
            depth: look.depth,
            joins: look.joins,
            has_group,
        }
    }
}

fn look_at_mark(look: Look, text: &str) -> Look
    requires { look.depth ≤ 32 }
    ensures depth { result.depth ≡ depth_after look.depth look.joins (mark text.now) }
    ensures joins { result.joins ≡ look.joins }
    ensures group { result.has_group ≡ look.has_group }
{
    Look {
        depth: depth_after_mark(look.depth, text),
        joins: look.joins,
        has_group: look.has_group,
    }
}

fn look_at(look: Look, token: &Token) -> Look
    requires depth { look.depth ≤ 32 }
    requires joins { look.joins < 2 ^ 64 - 1 }
    ensures depth { result.depth ≡ depth_after look.depth look.joins (symbol_of token.now.kind token.now.text) }
    ensures joins { result.joins ≡ joins_after look.joins (symbol_of token.now.kind token.now.text) }
    ensures group { result.has_group ≡ (look.has_group || is_word (codes "group") (symbol_of token.now.kind token.now.text)) }
{
    match token.kind {
        TokenKind::Word => look_at_word(look, token.text.as_str()),
        TokenKind::Mark => look_at_mark(look, token.text.as_str()),
        _ => look,
    }
}

/// Whether the word GROUP is among the tokens, and none where they are nested deeper than a statement may be. It takes
/// no memory.
#[tactic(auto, unfolding(token_reader::specs::Reading::has_group))]
pub fn group_unless_too_deep(tokens: &[Token]) -> Option<bool>
    ensures { MatchOption result (nat_lt 32 (depth (symbols tokens.now)) ≡ true)
        (λ found. (nat_lt 32 (depth (symbols tokens.now)) ≡ false) × (found ≡ has_group (symbols tokens.now))) }
{
    let mut look = Look {
        depth: 0,
        joins: 0,
        has_group: false,
    };
    for token in tokens {
        look = look_at(look, token);
        if look.depth > DEEPEST {
            return None;
        }
    }
    Some(look.has_group)
}
