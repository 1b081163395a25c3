// All of the tokens of a piece.
ghost use Rattle.std.specs.Prelude.{◌≡◌, IfOk, IsErrOf, option_map};
ghost use Rattle.beas_core.specs.declared.refusal.Refusal.{Refusal};
ghost use Rattle.beas_core.specs.Results.{Gives};
ghost use Rattle.sql_text.specs.Symbols.{symbols};
ghost use Rattle.token_reader.specs.Reading.{expect, read_number};
ghost use Rattle.piece_reader.specs.Sayings.{AT, IsReadAs, Reading, after_at, after_number, is_step, reading_of, session_of};

use crate::event::Event;
use beas_core::{Duplicate, Fail, Refusal, Text, limit_of};
use sql_parser::parse;
use sql_tokens::{Token, TokenKind};
use std::alloc::Global;

/// The session of the pieces that name none. No piece can name it.
pub const UNNAMED: u32 = 0;

/// The greatest number of a session.
const MOST_SESSIONS: u32 = 64;

/// The tokens after `@`, where these begin with it.
#[tactic(auto, unfolding(token_reader::specs::Reading::starts, token_reader::specs::Reading::rest_of))]
fn without_at(tokens: &[Token]) -> Option<&[Token]>
    ensures { expect AT (symbols tokens.now) ≡ option_map (λ rest. symbols rest.now) result }
{
    match tokens.split_first() {
        Some((token, rest)) if token.kind == TokenKind::Mark && token.text.as_str() == "@" => {
            Some(rest)
        }
        _ => None,
    }
}

/// The digits of a number and the tokens after it, where these begin with one.
#[tactic(auto, unfolding(token_reader::specs::Reading::read_number))]
fn number_first(tokens: &[Token]) -> Option<(&Text, &[Token])>
    ensures { read_number (symbols tokens.now) ≡ option_map (λ found. (found.0.now, symbols found.1.now)) result }
{
    match tokens.split_first() {
        Some((token, rest)) if token.kind == TokenKind::Number => Some((&token.text, rest)),
        _ => None,
    }
}

/// Whether these are the word STEP alone.
fn is_step(tokens: &[Token]) -> bool
    ensures { result ≡ is_step (symbols tokens.now) }
{
    match tokens.split_first() {
        Some((token, rest)) => {
            rest.is_empty() && token.kind == TokenKind::Word && token.text.as_str() == "step"
        }
        None => false,
    }
}

/// The session with this number, which has to be from 1 to 64.
#[tactic(auto, using(crate::proofs::SessionFacts::known_session, crate::proofs::SessionFacts::past_sessions, crate::proofs::SessionFacts::no_session))]
fn session_of(alloc: Global, digits: &Text) -> Result<u32, Fail>
    ensures { Gives result (session_of digits.now) }
{
    match limit_of(digits) {
        Some(session) if session <= MOST_SESSIONS => Ok(session),
        _ => Err(Fail::Refused(Refusal::BadSession {
            digits: digits.copy(alloc)?,
        })),
    }
}

/// Reads what stands after the number of a session.
fn said_by(alloc: Global, digits: &Text, tokens: &[Token]) -> Result<Event, Fail>
    ensures { Gives result (after_number digits.now (symbols tokens.now)) }
{
    if is_step(tokens) {
        let session = session_of(alloc, digits)?;
        return Ok(Event::Stepped { session });
    }
    // What is no statement is refused as such, whatever the number.
    let statement = parse(alloc, tokens)?;
    let session = session_of(alloc, digits)?;
    Ok(Event::Said { session, statement })
}

/// Reads what stands after `@`.
fn numbered(alloc: Global, tokens: &[Token]) -> Result<Event, Fail>
    ensures { Gives result (after_at (symbols tokens.now)) }
{
    match number_first(tokens) {
        Some((digits, rest)) => said_by(alloc, digits, rest),
        None => Err(Fail::Refused(Refusal::Syntax)),
    }
}

/// Reads the tokens of a piece, unless memory runs out.
fn reading(alloc: Global, tokens: &[Token]) -> Result<Event, Fail>
    ensures { Gives result (reading_of tokens.now) }
{
    match without_at(tokens) {
        Some(rest) => numbered(alloc, rest),
        None => {
            let statement = parse(alloc, tokens)?;
            Ok(Event::Said {
                session: UNNAMED,
                statement,
            })
        }
    }
}

/// What the tokens of a piece say. Without `@` they are a statement, and refused as `parse` refuses them. `@` that no number follows
/// is `Syntax`, however deep what follows is nested. After `@` and a number, STEP alone goes on with a query; all else is a statement,
/// refused as `parse` refuses it. Only then is the number looked at: it has to be from 1 to 64 (`BadSession`, with the digits as they
/// are written); leading zeros are allowed.
pub fn read_piece(alloc: Global, tokens: &[Token]) -> Result<Event, Fail>
    // What is answered is so by the grammar.
    ensures said { IfOk result (λ saying. IsReadAs tokens.now (Ok saying)) }
    ensures refused { (why : Refusal) → IsErrOf result (Fail.Refused why) → IsReadAs tokens.now (Err why) }
    // What is so by the grammar is answered, unless memory runs out.
    ensures answered { (reading : Reading) → IsReadAs tokens.now reading → Gives result reading }
    ensures found { Gives result (reading_of tokens.now) }
{
    reading(alloc, tokens)
}
