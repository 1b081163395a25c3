// Tokens and pieces.
use beas_core::Text;

/// What a token is.
#[derive(Clone, Copy, Debug, PartialEq, Eq)]
pub enum TokenKind {
    Word,
    Number,
    Quoted,
    Mark,
    Bad,
}

/// A token. `text` is the folded word, the digits, the content of a quoted text with doubled quotes taken
/// once, the mark, or the bad bytes; it is spelled by the bytes of the script from `from` up to `to`.
#[derive(Debug, Drop)]
pub struct Token {
    pub kind: TokenKind,
    pub from: u32,
    pub to: u32,
    pub text: Text,
}

/// The tokens of a piece of a script: those from `from` up to `to`.
#[derive(Clone, Copy, Debug, PartialEq, Eq)]
pub struct Piece {
    pub from: u32,
    pub to: u32,
}
