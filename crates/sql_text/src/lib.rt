//! The trees of statements, the grammar that tokens spell them by, and their canonical text.
#![tactic(auto)]

mod grouping;
mod printing;
mod tree;
mod writer;

pub use grouping::grouped_over;
pub use printing::print;
pub use sql_tokens::{Piece, Token, TokenKind, lex, split};
pub use tree::{
    BlockTree, ColumnRef, Cond, FromItem, GroupItem, Literal, SelectNode, SelectTree, Side,
    Statement,
};
