// The pieces of a script, between semicolons.
ghost use Rattle.sql_tokens.specs.Pieces.{pieces_of, statements_of, is_semicolon, without_empty};
ghost use Rattle.std.specs.List.{position_or_len};
ghost use Rattle.std.specs.Prelude.{◌≡◌, ◌<◌, ◌≤◌, ◌+◌, ◌^◌, ◌++◌, ◌∷◌, [], length, map, drop, slice_range, All, IfOk, OnOk, OnErr};

use crate::token::{Piece, Token, TokenKind};
use beas_core::{List, NoMemory};
use std::alloc::Global;

/// The places of the lists of tokens between semicolons, before the first and after the last, in order and without
/// the empty ones. Fails only where it runs out of memory.
pub fn split(alloc: Global, tokens: &List<Token>) -> Result<List<Piece>, NoMemory>
    requires { length tokens.now < 2 ^ 32 }
    ensures pieces { IfOk result (λ pieces. pieces ≡ pieces_of tokens.now) }
    ensures parts { IfOk result (λ pieces. map (λ p. slice_range tokens.now p.from p.to) pieces
        ≡ statements_of tokens.now) }
    ensures within { IfOk result (λ pieces. All (λ p. (p.from < p.to) × (p.to ≤ length tokens.now)) pieces) }
{
    let all = tokens.as_slice();
    let mut pieces = List::new(alloc);
    let mut from = 0;
    loop {
        let to = piece_end(all, from);
        add_piece(&mut pieces, from, to)?;
        if to == all.len() {
            return Ok(pieces);
        }
        from = to + 1;
    }
}

// The place of the first semicolon from a place on, or the end.
fn piece_end(tokens: &[Token], from: usize) -> usize
    requires { from ≤ length tokens.now }
    ensures len { result ≡ from + position_or_len is_semicolon (drop from tokens.now) }
    ensures within { result ≤ length tokens.now }
{
    let mut to = from;
    while to < tokens.len() && !is_semicolon(&tokens[to]) {
        to += 1;
    }
    to
}

// Adds a piece that isn't empty.
fn add_piece(pieces: &mut List<Piece>, from: usize, to: usize) -> Result<(), NoMemory>
    requires order { from ≤ to }
    requires size { to < 2 ^ 32 }
    ensures { OnOk result (pieces.new ≡ pieces.old ++ without_empty (record { from = from; to = to } ∷ [])) }
{
    if from < to {
        pieces.push(Piece {
            from: from as u32,
            to: to as u32,
        })?;
    }
    Ok(())
}

fn is_semicolon(token: &Token) -> bool
    ensures { result ≡ is_semicolon token.now }
{
    token.kind == TokenKind::Mark && token.text.as_str() == ";"
}
