//! The text of a script: its tokens, and the pieces between semicolons.
#![tactic(auto)]

mod lexer;
mod piece_lexer;
mod pieces;
mod quoting;
mod runs;
mod token;

pub use lexer::{LONGEST_SCRIPT, lex};
pub use piece_lexer::lex_piece;
pub use pieces::split;
pub use quoting::push_quoted;
pub use token::{Piece, Token, TokenKind};
