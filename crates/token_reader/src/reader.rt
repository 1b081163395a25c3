// The tokens that are still to be read.
ghost use Rattle.std.specs.Prelude.{◌≡◌, ◌∷◌, [], codes, length, if◌then◌else◌, true, false, IsTrue, IfOk, OnOk, MatchOption, Some};
ghost use Rattle.token_reader.specs.Reading.{GivesWithRest, Passes, starts, rest_of, begins_with, expect, read_id, read_number, read_quoted, starts_id, starts_quoted, read_sign, sign_of, is_group, has_group};
ghost use Rattle.std.specs.List.{list_any};
ghost use Rattle.sql_text.specs.Symbols.{word, mark, symbols};
ghost use Rattle.sql_text.specs.Words.{OPEN};

use crate::texts::copy_of;
use beas_core::{Duplicate, Name, NoMemory, Sign, Text, is_name, is_text};
use sql_tokens::{Token, TokenKind};
use std::alloc::{AllocError, AllocFailed, Global};
use std::marker::Model;

/// Why reading stopped.
#[derive(Debug, Drop)]
pub enum ReadError {
    Syntax,
    NoMemory,
}

impl From<NoMemory> for ReadError {
    ghost use Rattle.token_reader.specs.declared.reader.ReadError.TheVariants.{NoMemory};
    ghost use Rattle.std.specs.Prelude.{◌≡◌};

    ghost from_gives = { λ _ e. e ≡ NoMemory };

    fn from(_: NoMemory) -> ReadError {
        ReadError::NoMemory
    }
}

#[tactic(auto, unfolding(crate::specs::Reading::sign_of))]
fn sign_of(text: &str) -> Option<Sign>
    ensures { result ≡ sign_of text.now }
{
    if is_text(text, "=") {
        Some(Sign::Equal)
    } else if is_text(text, "<>") || is_text(text, "!=") {
        Some(Sign::Differs)
    } else if is_text(text, "<") {
        Some(Sign::Less)
    } else if is_text(text, "<=") {
        Some(Sign::AtMost)
    } else if is_text(text, ">") {
        Some(Sign::More)
    } else if is_text(text, ">=") {
        Some(Sign::AtLeast)
    } else {
        None
    }
}

fn any_is_group(tokens: &[Token]) -> bool
    ensures { result ≡ list_any is_group tokens.now }
{
    tokens.iter().any(|token| token.kind == TokenKind::Word
        && is_text(token.text.as_str(), "group"))
}

/// The tokens that are still to be read, seen as what they are and their texts.
#[derive(Drop)]
pub struct Reader<'a> {
    rest: &'a [Token],
}

impl<'a> Model for Reader<'a> {
    ghost use Rattle.std.specs.Prelude.{List};
    ghost use Rattle.sql_text.specs.Symbols.{Symbol, symbols};

    ghost Value = { List Symbol };

    ghost view = { λ r. symbols r.rest.now };
}

impl<'a> Reader<'a> {
    /// A reader before the first of these tokens.
    pub fn new(tokens: &'a [Token]) -> Reader<'a>
        ensures { result ≡ symbols tokens.now }
    {
        Reader { rest: tokens }
    }

    /// How many tokens are left.
    pub fn tokens_left(&self) -> usize
        ensures { result ≡ length self.now }
    {
        self.rest.len()
    }

    /// Whether the next token is this word.
    #[tactic(auto, unfolding(crate::specs::Reading::starts))]
    pub fn next_is_word(&self, text: &str) -> bool
        ensures { result ≡ starts (word text.now) self.now }
    {
        match self.rest.split_first() {
            Some((token, _)) => token.kind == TokenKind::Word && is_text(token.text.as_str(), text),
            None => false,
        }
    }

    /// Whether the next token is this mark.
    #[tactic(auto, unfolding(crate::specs::Reading::starts))]
    pub fn next_is_mark(&self, text: &str) -> bool
        ensures { result ≡ starts (mark text.now) self.now }
    {
        match self.rest.split_first() {
            Some((token, _)) => token.kind == TokenKind::Mark && is_text(token.text.as_str(), text),
            None => false,
        }
    }

    /// Goes after the next token.
    #[tactic(auto, unfolding(crate::specs::Reading::rest_of))]
    pub fn skip(&mut self)
        ensures { self.new ≡ rest_of self.old }
    {
        if let Some((_, rest)) = self.rest.split_first() {
            self.rest = rest;
        }
    }

    /// Goes after this word, where it is next, and says whether it was.
    pub fn take_word(&mut self, text: &str) -> bool
        ensures found { result ≡ starts (word text.now) self.old }
        ensures rest { self.new ≡ (if result then rest_of self.old else self.old) }
    {
        let found = self.next_is_word(text);
        if found {
            self.skip();
        }
        found
    }

    /// Goes after this mark, where it is next, and says whether it was.
    pub fn take_mark(&mut self, text: &str) -> bool
        ensures found { result ≡ starts (mark text.now) self.old }
        ensures rest { self.new ≡ (if result then rest_of self.old else self.old) }
    {
        let found = self.next_is_mark(text);
        if found {
            self.skip();
        }
        found
    }

    /// Goes after these two words, where both are next, and says whether they were.
    #[tactic(auto, unfolding(crate::specs::Reading::begins_with))]
    pub fn take_words(&mut self, first: &str, second: &str) -> bool
        ensures found { result ≡ begins_with (word first.now ∷ word second.now ∷ []) self.old }
        ensures rest { self.new ≡ (if result then rest_of (rest_of self.old) else self.old) }
    {
        let before = self.rest;
        if self.take_word(first) && self.take_word(second) {
            return true;
        }
        self.rest = before;
        false
    }

    /// Goes after this word and an opening parenthesis, where both are next, and says whether they were.
    #[tactic(auto, unfolding(crate::specs::Reading::begins_with))]
    pub fn take_call(&mut self, function: &str) -> bool
        ensures found { result ≡ begins_with (word function.now ∷ OPEN ∷ []) self.old }
        ensures rest { self.new ≡ (if result then rest_of (rest_of self.old) else self.old) }
    {
        let before = self.rest;
        if self.take_word(function) && self.take_mark("(") {
            return true;
        }
        self.rest = before;
        false
    }

    /// Whether the word GROUP is among the tokens.
    #[tactic(auto, using(crate::proofs::Groups::any_group))]
    pub fn has_group(&self) -> bool
        ensures { result ≡ has_group self.now }
    {
        any_is_group(self.rest)
    }

    /// Goes after a word, which must be next.
    pub fn want_word(&mut self, text: &str) -> Result<(), ReadError>
        ensures { Passes result self.new (expect (word text.now) self.old) }
    {
        if self.take_word(text) {
            Ok(())
        } else {
            Err(ReadError::Syntax)
        }
    }

    /// Goes after a mark, which must be next.
    pub fn want_mark(&mut self, text: &str) -> Result<(), ReadError>
        ensures { Passes result self.new (expect (mark text.now) self.old) }
    {
        if self.take_mark(text) {
            Ok(())
        } else {
            Err(ReadError::Syntax)
        }
    }

    /// Reads an identifier.
    #[tactic(auto, unfolding(crate::specs::Reading::read_id))]
    pub fn name(&mut self, alloc: Global) -> Result<Name, ReadError>
        ensures { GivesWithRest result self.new (read_id self.old) }
    {
        match self.rest.split_first() {
            Some((token, rest)) if token.kind == TokenKind::Word && is_name(token.text.as_str()) =>
                {
                    self.rest = rest;
                    Ok(Name::from_text(copy_of(alloc, token.text.as_str())?))
                }
            _ => Err(ReadError::Syntax),
        }
    }

    /// Reads an identifier where one is next, and else gives none.
    #[tactic(auto, unfolding(crate::specs::Reading::starts_id, crate::specs::Reading::read_id))]
    #[inline(always)]
    pub fn maybe_name(&mut self, alloc: Global) -> Result<Option<Name>, NoMemory>
        ensures name { IfOk result (λ found. MatchOption found ((starts_id self.old ≡ false) × (self.new ≡ self.old))
            (λ name. (starts_id self.old ≡ true) × (read_id self.old ≡ Some (name, self.new)))) }
    {
        match self.rest.split_first() {
            Some((token, rest)) if token.kind == TokenKind::Word && is_name(token.text.as_str()) =>
                {
                    self.rest = rest;
                    Ok(Some(Name::from_text(copy_of(alloc, token.text.as_str())?)))
                }
            _ => Ok(None),
        }
    }

    /// Reads the digits of a number.
    #[tactic(auto, unfolding(crate::specs::Reading::read_number))]
    pub fn number(&mut self, alloc: Global) -> Result<Text, ReadError>
        ensures { GivesWithRest result self.new (read_number self.old) }
    {
        match self.rest.split_first() {
            Some((token, rest)) if token.kind == TokenKind::Number => {
                self.rest = rest;
                Ok(token.text.copy(alloc)?)
            }
            _ => Err(ReadError::Syntax),
        }
    }

    /// Reads a text between quotes.
    #[tactic(auto, unfolding(crate::specs::Reading::read_quoted))]
    pub fn quoted_text(&mut self, alloc: Global) -> Result<Text, ReadError>
        ensures { GivesWithRest result self.new (read_quoted self.old) }
    {
        match self.rest.split_first() {
            Some((token, rest)) if token.kind == TokenKind::Quoted => {
                self.rest = rest;
                Ok(token.text.copy(alloc)?)
            }
            _ => Err(ReadError::Syntax),
        }
    }

    /// Whether a text between quotes is next.
    #[tactic(auto, unfolding(crate::specs::Reading::starts_quoted))]
    pub fn next_is_quoted(&self) -> bool
        ensures { result ≡ starts_quoted self.now }
    {
        match self.rest.split_first() {
            Some((token, _)) => token.kind == TokenKind::Quoted,
            None => false,
        }
    }

    /// Reads the sign of a comparison.
    #[tactic(auto, unfolding(crate::specs::Reading::read_sign))]
    pub fn sign(&mut self) -> Result<Sign, ReadError>
        ensures { GivesWithRest result self.new (read_sign self.old) }
    {
        match self.rest.split_first() {
            Some((token, rest)) if token.kind == TokenKind::Mark => {
                let sign = sign_of(token.text.as_str()).ok_or(ReadError::Syntax)?;
                self.rest = rest;
                Ok(sign)
            }
            _ => Err(ReadError::Syntax),
        }
    }
}
