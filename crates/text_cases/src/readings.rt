// What texts are read as, in words.
use crate::texts::canonical;
use beas_core::{Fail, Name, NoMemory, Text};
use sql_tokens::{LONGEST_SCRIPT, Piece, Token, lex, split};
use std::alloc::Global;

// A refusal that a text alone can have, by its number.
fn words_of_number(number: u32) -> &'static str {
    match number {
        1 => "refused: no statement",
        2 => "refused: nested too deep",
        23 => "refused: lacks DISTINCT",
        _ => "refused for another reason",
    }
}

// What a text was read as, or its refusal.
fn outcome_words(alloc: Global, outcome: &Result<Text, Fail>) -> Result<String, NoMemory> {
    match outcome {
        Ok(text) => Ok(String::from_str(alloc, text.as_str())?),
        Err(Fail::Refused(why)) => Ok(String::from_str(alloc, words_of_number(why.number()))?),
        Err(Fail::NoMemory) => Err(NoMemory),
    }
}

// The canonical text of the statement that a text spells, or its refusal. No text here is too long.
fn canonical_in(alloc: Global, text: &str) -> Result<String, NoMemory> {
    if text.len() > LONGEST_SCRIPT {
        return Err(NoMemory);
    }
    let outcome = canonical(alloc, text);
    let words = outcome_words(alloc, &outcome);
    drop(outcome);
    words
}

// Adds what a canonical text is read as where it isn't itself.
fn add_reading(alloc: Global, words: &mut String) -> Result<(), NoMemory> {
    let again = canonical_in(alloc, words.as_str())?;
    if again.as_str() != words.as_str() {
        words.push_str("\nwhich is read as\n")?;
        words.push_str(again.as_str())?;
    }
    Ok(())
}

/// The canonical text of the statement that a text spells, with what that is read as where it isn't itself; or the
/// refusal.
pub fn statement_in(alloc: Global, text: &str) -> Result<String, NoMemory> {
    let mut words = canonical_in(alloc, text)?;
    if !words.as_str().starts_with("refused") {
        add_reading(alloc, &mut words)?;
    }
    Ok(words)
}

/// The lines below each other, or `nothing` where there is none.
pub fn lines_or_nothing(alloc: Global, lines: &[String]) -> Result<String, NoMemory> {
    if lines.is_empty() {
        return Ok(String::from_str(alloc, "nothing")?);
    }
    Ok(lines.join(alloc, "\n")?)
}

// The part of a script that the tokens of a piece spell.
fn piece_text<'a>(script: &'a str, tokens: &[Token], piece: Piece) -> &'a str {
    let first = tokens.get(piece.from as usize);
    let last = tokens.get((piece.to as usize).saturating_sub(1));
    match (first, last) {
        (Some(first), Some(last)) => script
            .get(first.from as usize..last.to as usize)
            .unwrap_or(""),
        _ => "",
    }
}

// The canonical text or the refusal of these pieces of a script, one a line.
fn piece_lines(
    alloc: Global,
    script: &str,
    tokens: &[Token],
    pieces: &[Piece],
) -> Result<String, NoMemory> {
    let mut lines = Vec::new(alloc);
    for piece in pieces {
        lines.push(statement_in(alloc, piece_text(script, tokens, *piece))?)?;
    }
    lines_or_nothing(alloc, lines.as_slice())
}

/// The canonical text or the refusal of each piece of a script, one a line.
pub fn pieces_in(alloc: Global, script: &str) -> Result<String, NoMemory> {
    if script.len() > LONGEST_SCRIPT {
        return Err(NoMemory);
    }
    let tokens = lex(alloc, script)?;
    let pieces = split(alloc, &tokens)?;
    piece_lines(alloc, script, tokens.as_slice(), pieces.as_slice())
}

/// The name that a text spells.
pub fn name_in(alloc: Global, text: &str) -> Result<String, NoMemory> {
    match Name::of(alloc, text)? {
        Some(name) => Ok(String::from_str(alloc, name.as_str())?),
        None => Ok(String::from_str(alloc, "no name")?),
    }
}
