// Cutting a script into tokens.
ghost use Rattle.sql_tokens.specs.Cuts.{BeginsToken, IsAtToken, StandsAt, byte_kind, mark_of};
ghost use Rattle.sql_tokens.specs.Spans.{AreInOrder, IsSpelled};
ghost use Rattle.beas_core.specs.Spelling.{begins_word};
ghost use Rattle.sql_tokens.specs.Tokens.{tokens_from, tokens_of, with_quotes_doubled, quote, quoted_text, marks};
ghost use Rattle.std.specs.Char.{is_ascii_digit, to_ascii_lowercase};
ghost use Rattle.std.specs.List.{starts_with};
ghost use Rattle.std.specs.Prelude.{◌≡◌, ◌≢◌, ◌==◌, ◌<◌, ◌≤◌, ◌+◌, ◌-◌, [], ◌∷◌, length, drop, codes, eqb, find, map, option_map, slice_index, slice_range, All, IfOk, IfSome, IsAscii, IsCharBoundary, IsTrue};

use crate::runs::{Blank, InChar, InLine, InNumber, InWord, Unquoted, kind_of, run_end};
use crate::token::{Token, TokenKind};
use beas_core::{List, NoMemory, Text};
use std::alloc::Global;
use std::str;

/// The most bytes of a script.
pub const LONGEST_SCRIPT: usize = 16_777_216;

/// The most bytes of a word.
const LONGEST_WORD: usize = 64;

/// The content of a quoted text, and where its last quote ends.
#[derive(Drop)]
struct Content {
    text: Text,
    to: usize,
}

/// The tokens of a script of at most 16,777,216 bytes, in order; what is no token by the lexical rules stands among
/// them as a bad token. Fails only where it runs out of memory.
pub fn lex(alloc: Global, source: &str) -> Result<List<Token>, NoMemory>
    requires { length source.now ≤ LONGEST_SCRIPT }
    ensures tokens { IfOk result (λ tokens. tokens ≡ tokens_of source.now) }
    ensures in_order { IfOk result (λ tokens. AreInOrder 0 tokens (length source.now)) }
    ensures spelled { IfOk result (λ tokens. All (IsSpelled source.now) tokens) }
    ensures few { IfOk result (λ tokens. length tokens ≤ length source.now) }
{
    let mut tokens = List::new(alloc);
    let mut at = past_gaps(source, 0);
    while at < source.len() {
        let token = lexeme(alloc, source, at)?;
        at = past_gaps(source, token.to as usize);
        tokens.push(token)?;
    }
    Ok(tokens)
}

/// Where the white space and the comments end that stand from a place on: where the next token begins, or at the end.
pub fn past_gaps(source: &str, at: usize) -> usize
    requires within { at ≤ length source.now }
    requires cut { IsCharBoundary source.now at }
    ensures tokens { tokens_from at 0 (drop at source.now) ≡ tokens_from result 0 (drop result source.now) }
    ensures order { at ≤ result }
    ensures at_token { IsAtToken source.now result }
{
    let bytes = source.as_bytes();
    let mut to = run_end::<Blank>(bytes, at);
    while to < bytes.len() && begins_comment(bytes, to) {
        let line_end = run_end::<InLine>(bytes, to);
        to = run_end::<Blank>(bytes, line_end);
    }
    to
}

/// The token at a place where neither white space nor a comment begins.
pub fn lexeme(alloc: Global, source: &str, at: usize) -> Result<Token, NoMemory>
    requires size { length source.now ≤ LONGEST_SCRIPT }
    requires begins { BeginsToken source.now at }
    ensures { IfOk result (StandsAt source.now at) }
{
    match kind_of(source.as_bytes()[at]) {
        3 => word(alloc, source, at),
        2 => number(alloc, source, at),
        1 => plain(alloc, source, TokenKind::Mark, at, at + 1),
        _ => other(alloc, source, at),
    }
}

// The token at a place where neither a word nor a number nor a mark of one byte begins that no longer one begins with.
fn other(alloc: Global, source: &str, at: usize) -> Result<Token, NoMemory>
    requires size { length source.now ≤ LONGEST_SCRIPT }
    requires begins { BeginsToken source.now at }
    requires other { byte_kind (slice_index source.now at) ≡ 0 }
    ensures { IfOk result (StandsAt source.now at) }
{
    if source.as_bytes()[at] == b'\'' {
        return quoted_token(alloc, source, at);
    }
    mark(alloc, source, at)
}

// The word, or the bad token, of the letters and digits from a place on.
fn word(alloc: Global, source: &str, at: usize) -> Result<Token, NoMemory>
    requires size { length source.now ≤ LONGEST_SCRIPT }
    requires begins { BeginsToken source.now at }
    requires class { IsTrue (begins_word (slice_index source.now at)) }
    ensures { IfOk result (StandsAt source.now at) }
{
    let to = run_end::<InWord>(source.as_bytes(), at + 1);
    if to - at > LONGEST_WORD {
        return plain(alloc, source, TokenKind::Bad, at, to);
    }
    let text = in_small_letters(alloc, &source[at..to])?;
    Ok(token(TokenKind::Word, at, to, text))
}

// A word in small letters. Most words are short, and where the length is known to the compiler it makes neither a call nor a loop.
fn in_small_letters(alloc: Global, word: &str) -> Result<Text, NoMemory>
    requires { IsAscii word.now }
    ensures { IfOk result (λ text. text ≡ map to_ascii_lowercase word.now) }
{
    match word.len() {
        1 => letters::<1>(alloc, word),
        2 => letters::<2>(alloc, word),
        3 => letters::<3>(alloc, word),
        4 => letters::<4>(alloc, word),
        5 => letters::<5>(alloc, word),
        6 => letters::<6>(alloc, word),
        7 => letters::<7>(alloc, word),
        8 => letters::<8>(alloc, word),
        9..=16 => letters::<16>(alloc, word),
        _ => Ok(Text::from_string(word.to_ascii_lowercase(alloc)?)),
    }
}

// The small letters of a short word. They are made in an array, since a text of a few letters then takes no memory, and all
// of the array is made small, since its length is known to the compiler.
fn letters<const ROOM: usize>(alloc: Global, word: &str) -> Result<Text, NoMemory>
    requires ascii { IsAscii word.now }
    requires fits { length word.now ≤ ROOM }
    requires room { ROOM ≤ 16 }
    ensures { IfOk result (λ text. text ≡ map to_ascii_lowercase word.now) }
{
    let mut kept = [0; ROOM];
    kept[..word.len()].copy_from_slice(word.as_bytes());
    kept.make_ascii_lowercase();
    // The letters are ASCII as those of the word are, and so they are UTF-8.
    let small = unsafe { str::from_utf8_unchecked(&kept[..word.len()]) };
    Text::from_str(alloc, small)
}

fn number(alloc: Global, source: &str, at: usize) -> Result<Token, NoMemory>
    requires size { length source.now ≤ LONGEST_SCRIPT }
    requires begins { BeginsToken source.now at }
    requires class { IsTrue (is_ascii_digit (slice_index source.now at)) }
    ensures { IfOk result (StandsAt source.now at) }
{
    let to = run_end::<InNumber>(source.as_bytes(), at);
    plain(alloc, source, TokenKind::Number, at, to)
}

// The quoted text from a place on, or all the rest as a bad token where it has no end.
fn quoted_token(alloc: Global, source: &str, at: usize) -> Result<Token, NoMemory>
    requires size { length source.now ≤ LONGEST_SCRIPT }
    requires begins { BeginsToken source.now at }
    requires class { slice_index source.now at ≡ quote }
    ensures { IfOk result (StandsAt source.now at) }
{
    match read_content(alloc, source, at + 1)? {
        Some(content) => Ok(token(TokenKind::Quoted, at, content.to, content.text)),
        None => plain(alloc, source, TokenKind::Bad, at, source.len()),
    }
}

// The content of the quoted text whose first quote ends at a place, or none where the last quote is missing.
fn read_content(alloc: Global, source: &str, from: usize) -> Result<Option<Content>, NoMemory>
    requires from { from ≤ length source.now }
    requires cut { IsCharBoundary source.now from }
    ensures text { IfOk result (λ found. option_map (λ content. content.text) found
        ≡ quoted_text (drop from source.now)) }
    ensures to { IfOk result (λ found. IfSome found
        (λ content. content.to ≡ from + length (with_quotes_doubled content.text) + 1)) }
    ensures within { IfOk result (λ found. IfSome found (λ content. content.to ≤ length source.now)) }
    ensures end { IfOk result (λ found. IfSome found (λ content. IsCharBoundary source.now content.to)) }
{
    let bytes = source.as_bytes();
    let mut text = Text::new(alloc);
    let mut at = from;
    while at < bytes.len() {
        let end = run_end::<Unquoted>(bytes, at);
        if end == bytes.len() {
            return Ok(None);
        }
        if !has_quote(bytes, end + 1) {
            text.push_str(&source[at..end])?;
            return Ok(Some(Content { text, to: end + 1 }));
        }
        text.push_str(&source[at..end + 1])?;
        at = end + 2;
    }
    Ok(None)
}

// Whether a quote stands at a place, which may lie past the end.
fn has_quote(bytes: &[u8], at: usize) -> bool
    ensures { result ≡ (slice_index bytes.now at == quote) }
{
    at < bytes.len() && bytes[at] == b'\''
}

// The mark at a place where nothing else begins and no mark of one byte alone stands, or else the character as a bad token.
fn mark(alloc: Global, source: &str, at: usize) -> Result<Token, NoMemory>
    requires size { length source.now ≤ LONGEST_SCRIPT }
    requires begins { BeginsToken source.now at }
    requires other { byte_kind (slice_index source.now at) ≡ 0 }
    requires no_quote { slice_index source.now at ≢ quote }
    ensures { IfOk result (StandsAt source.now at) }
{
    let bytes = source.as_bytes();
    let len = mark_len(bytes, at);
    if len > 0 {
        return plain(alloc, source, TokenKind::Mark, at, at + len);
    }
    plain(
        alloc,
        source,
        TokenKind::Bad,
        at,
        run_end::<InChar>(bytes, at + 1),
    )
}

// How many bytes the longest mark at a place takes, 0 where none stands there.
fn mark_len(bytes: &[u8], at: usize) -> usize
    requires within { at < length bytes.now }
    requires other { byte_kind (slice_index bytes.now at) ≡ 0 }
    ensures mark { find (starts_with eqb (drop at bytes.now)) marks ≡ mark_of result (drop at bytes.now) }
    ensures within { at + result ≤ length bytes.now }
    ensures ascii { 0 < result → slice_index bytes.now (at + result - 1) < 128 }
{
    let next = if at + 1 < bytes.len() {
        bytes[at + 1]
    } else {
        0
    };
    match bytes[at] {
        b'<' if next == b'>' => 2,
        b'<' | b'>' | b'!' if next == b'=' => 2,
        b'<' | b'>' => 1,
        _ => 0,
    }
}

// A token whose text is its spelling.
fn plain(
    alloc: Global,
    source: &str,
    kind: TokenKind,
    from: usize,
    to: usize,
) -> Result<Token, NoMemory>
    requires size { length source.now ≤ LONGEST_SCRIPT }
    requires order { from ≤ to }
    requires within { to ≤ length source.now }
    requires first { IsCharBoundary source.now from }
    requires last { IsCharBoundary source.now to }
    ensures { IfOk result (λ token. token ≡ record {
      kind = kind;
      from = from;
      to = to;
      text = slice_range source.now from to;
    }) }
{
    let text = Text::from_str(alloc, &source[from..to])?;
    Ok(token(kind, from, to, text))
}

fn token(kind: TokenKind, from: usize, to: usize, text: Text) -> Token
    requires order { from ≤ to }
    requires size { to ≤ LONGEST_SCRIPT }
    ensures { result ≡ record { kind = kind; from = from; to = to; text = text } }
{
    Token {
        kind,
        from: from as u32,
        to: to as u32,
        text,
    }
}

fn begins_comment(bytes: &[u8], at: usize) -> bool
    requires { at < length bytes.now }
    ensures { result ≡ starts_with eqb (drop at bytes.now) (codes "--") }
{
    bytes[at] == b'-' && at + 1 < bytes.len() && bytes[at + 1] == b'-'
}
