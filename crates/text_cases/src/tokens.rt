// The tokens of a script and where its pieces are cut, in words.
use crate::readings::lines_or_nothing;
use beas_core::NoMemory;
use sql_tokens::{LONGEST_SCRIPT, Piece, Token, TokenKind, lex, split};
use std::alloc::Global;

fn kind_word(kind: TokenKind) -> &'static str {
    match kind {
        TokenKind::Word => "word",
        TokenKind::Number => "number",
        TokenKind::Quoted => "quoted",
        TokenKind::Mark => "mark",
        TokenKind::Bad => "bad",
    }
}

// The kind of a token, the places of its bytes, and its text unless that is empty.
fn token_line(alloc: Global, token: &Token) -> Result<String, NoMemory> {
    let kind = kind_word(token.kind);
    let text = token.text.as_str();
    let space = if text.is_empty() { "" } else { " " };
    Ok(format!(in alloc; "{kind} {}..{}{space}{text}", token.from, token.to)?)
}

fn token_lines(alloc: Global, tokens: &[Token]) -> Result<String, NoMemory> {
    let mut lines = Vec::new(alloc);
    for token in tokens {
        lines.push(token_line(alloc, token)?)?;
    }
    lines_or_nothing(alloc, lines.as_slice())
}

fn piece_lines(alloc: Global, pieces: &[Piece]) -> Result<String, NoMemory> {
    let mut lines = Vec::new(alloc);
    for piece in pieces {
        lines.push(format!(in alloc; "{}..{}", piece.from, piece.to)?)?;
    }
    lines_or_nothing(alloc, lines.as_slice())
}

/// The tokens of a script, one a line.
pub fn tokens_in(alloc: Global, script: &str) -> Result<String, NoMemory> {
    if script.len() > LONGEST_SCRIPT {
        return Err(NoMemory);
    }
    token_lines(alloc, lex(alloc, script)?.as_slice())
}

/// The places of the pieces of a script among its tokens, one piece a line.
pub fn cuts_in(alloc: Global, script: &str) -> Result<String, NoMemory> {
    if script.len() > LONGEST_SCRIPT {
        return Err(NoMemory);
    }
    let tokens = lex(alloc, script)?;
    piece_lines(alloc, split(alloc, &tokens)?.as_slice())
}
