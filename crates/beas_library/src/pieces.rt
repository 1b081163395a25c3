// The one statement of a text.
ghost use Rattle.std.specs.Prelude.{◌≡◌, ◌<◌, ◌≤◌, ◌-◌, ◌^◌, ◌∷◌, [], length, IfErr, IfOk};
ghost use Rattle.beas_run.specs.Readings.{pieces};
ghost use Rattle.beas_library.specs.OnePiece.{IsRefusedFor, IsStatementIn, holds};
ghost use Rattle.beas_library.specs.declared.pieces.Why.TheVariants.{NoMemory as Want};

use beas_core::{List, NoMemory};
use sql_tokens::{LONGEST_SCRIPT, Piece, Token, lex, split};
use std::alloc::Global;
use std::marker::Model;
use std::str;

/// Why a text has no report.
#[derive(Clone, Copy, Debug, PartialEq, Eq)]
pub enum Why {
    /// It has more than 16,777,216 bytes.
    TooLong,
    /// Its bytes aren't UTF-8.
    NotText,
    /// It has no statement.
    NoStatement,
    /// It has more than one statement.
    Several,
    /// It is to be priced, and is no query.
    NotAQuery,
    /// Memory ran out.
    NoMemory,
}

impl From<NoMemory> for Why {
    ghost from_gives = { λ _ why. why ≡ Want };

    fn from(_: NoMemory) -> Why {
        Why::NoMemory
    }
}

/// The tokens of a text's one statement, among those of the text.
#[derive(Drop)]
pub struct OnePiece {
    tokens: List<Token>,
    piece: Piece,
}

impl Model for OnePiece {
    ghost use Rattle.std.specs.Prelude.{List, slice_range};
    ghost use Rattle.sql_tokens.specs.declared.token.Token.{Token};
    ghost use Rattle.beas_library.specs.Within.{IsWithin};

    ghost Value = { List Token };

    ghost view = { λ p. slice_range p.tokens p.piece.from p.piece.to };

    ghost invariant = { λ p. IsWithin p.tokens p.piece };
}

impl OnePiece {
    /// The tokens of the statement.
    pub fn tokens(&self) -> &[Token]
        ensures tokens { result.now ≡ self.now }
        ensures few { length result.now < 2 ^ 32 - 1 }
    {
        &self.tokens.as_slice()[self.piece.from as usize..self.piece.to as usize]
    }
}

/// The one statement of a text of at most 16,777,216 bytes of UTF-8. A semicolon may stand before and after it.
pub fn one_piece(alloc: Global, text: &[u8]) -> Result<OnePiece, Why>
    ensures one { IfOk result (IsStatementIn text.now) }
    ensures why { IfErr result (λ why. IsRefusedFor why text.now) }
{
    if LONGEST_SCRIPT < text.len() {
        return Err(Why::TooLong);
    }
    match str::from_utf8(text) {
        Ok(text) => piece_in(alloc, text),
        Err(_) => Err(Why::NotText),
    }
}

/// The same of UTF-8.
fn piece_in(alloc: Global, text: &str) -> Result<OnePiece, Why>
    requires { length text.now ≤ LONGEST_SCRIPT }
    ensures one { IfOk result (λ found. pieces text.now ≡ found ∷ []) }
    ensures why { IfErr result (λ why. holds why text.now) }
{
    let tokens = lex(alloc, text)?;
    let pieces = split(alloc, &tokens)?;
    match pieces.as_slice() {
        [] => Err(Why::NoStatement),
        [piece] => Ok(OnePiece {
            tokens,
            piece: *piece,
        }),
        _ => Err(Why::Several),
    }
}
