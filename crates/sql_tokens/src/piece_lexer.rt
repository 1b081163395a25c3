// One piece of a script, cut into tokens.
ghost use Rattle.sql_tokens.specs.Pieces.{AreFirst, FirstPieceIs, statements_of, tokens_past};
ghost use Rattle.std.specs.Prelude.{◌≡◌, ◌<◌, ◌≤◌, ◌==◌, ◌&&◌, ◌+◌, [], ◌∷◌, length, if◌then◌else◌, nat_lt, not, slice_index, IfOk, IsCharBoundary, OnErr};

use crate::lexer::{LONGEST_SCRIPT, lexeme, past_gaps};
use crate::token::Token;
use beas_core::{List, NoMemory};
use std::alloc::Global;
use std::mem::replace;

/// Puts the tokens of a script of at most 16,777,216 bytes from a place on, up to the next semicolon or else to the end, into
/// a list in the place of those that it has, and gives the place where the next piece begins, which lies further on unless
/// the first place is the end. Where these tokens are none, the statements from the one place on are those from the other
/// on; else these tokens are a statement, and those from the next place on are the ones after it. Whether it fails or not,
/// the list has no more tokens than the script has bytes. Fails only where it runs out of memory, and the list then has the
/// first of the tokens that stand from the place on.
pub fn lex_piece(
    alloc: Global,
    source: &str,
    at: usize,
    tokens: &mut List<Token>,
) -> Result<usize, NoMemory>
    requires size { length source.now ≤ LONGEST_SCRIPT }
    requires within { at ≤ length source.now }
    requires cut { IsCharBoundary source.now at }
    ensures piece { IfOk result (FirstPieceIs source.now at tokens.new) }
    ensures none { IfOk result (λ next. tokens.new ≡ []
        → statements_of (tokens_past at source.now) ≡ statements_of (tokens_past next source.now)) }
    ensures some { IfOk result (λ next. 0 < length tokens.new
        → statements_of (tokens_past at source.now) ≡ tokens.new ∷ statements_of (tokens_past next source.now)) }
    ensures few { length tokens.new ≤ length source.now }
    ensures part { OnErr result (AreFirst source.now at tokens.new) }
{
    let bytes = source.as_bytes();
    clear(alloc, tokens);
    let mut place = past_gaps(source, at);
    'tokens: while goes_on(bytes, place) {
        let token = lexeme(alloc, source, place)?;
        let to = token.to as usize;
        tokens.push(token)?;
        place = past_gaps(source, to);
    }
    Ok(past_semicolon(bytes, place))
}

// Whether neither a semicolon nor the end stands at a place.
fn goes_on(bytes: &[u8], place: usize) -> bool
    ensures { result ≡ nat_lt place (length bytes.now) && not (slice_index bytes.now place == 59) }
{
    place < bytes.len() && bytes[place] != b';'
}

// Where the next piece begins, where this one goes up to a semicolon at a place, or to the end.
fn past_semicolon(bytes: &[u8], place: usize) -> usize
    ensures { result ≡ (if nat_lt place (length bytes.now) then place + 1 else place) }
{
    if place < bytes.len() {
        place + 1
    } else {
        place
    }
}

// Lets the tokens of a list go.
fn clear(alloc: Global, tokens: &mut List<Token>)
    ensures { tokens.new ≡ [] }
{
    let mut items = replace(tokens, List::new(alloc)).into_vec();
    items.clear();
    *tokens = List::from_vec(items);
}
