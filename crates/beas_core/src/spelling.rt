// Names and bounds as texts spell them.
ghost use Rattle.std.specs.Prelude.{◌≡◌, ◌+◌, ◌*◌, ◌≤◌, IfOk, IsTrue, slice_index, nat_le, if◌then◌else◌};
ghost use Rattle.std.specs.Char.{is_ascii_digit, is_ascii_uppercase, digit_value};
ghost use Rattle.std.specs.List.{list_all, list_any};
ghost use Rattle.std.specs.Str.{bytes_eq};
ghost use Rattle.beas_core.specs.Spelling.{begins_word, continues_word, is_word, is_reserved, is_name, name_of, limit_in};

use crate::errors::NoMemory;
use crate::folded_names::is_reserved;
use crate::names::Name;
use crate::same_text::first_byte;
use crate::text::Text;
use std::alloc::Global;

/// The greatest bound of a constraint.
const GREATEST_LIMIT: u64 = 4_294_967_295;

/// Whether a byte begins a word: a letter or `_`.
pub fn begins_word(byte: u8) -> bool
    ensures { result ≡ begins_word byte }
{
    byte.is_ascii_alphabetic() || byte == b'_'
}

// Whether a byte goes on with a word: a letter, `_` or a digit.
fn continues_word(byte: u8) -> bool
    ensures { result ≡ continues_word byte }
{
    begins_word(byte) || byte.is_ascii_digit()
}

fn all_continue(text: &[u8]) -> bool
    ensures { result ≡ list_all continues_word text.now }
{
    for byte in text {
        if !continues_word(*byte) {
            return false;
        }
    }
    true
}

fn is_a_word(text: &[u8]) -> bool
    ensures { result ≡ is_word text.now }
{
    let begins = begins_word(first_byte(text));
    let goes_on = all_continue(text);
    let fits = text.len() <= 64;
    begins && goes_on && fits
}

impl Name {
    /// The text in lower case as a name, where it is an identifier: a letter or `_`, then letters, digits and `_`,
    /// at most 64 bytes in all, and no reserved word.
    pub fn of(alloc: Global, text: &str) -> Result<Option<Name>, NoMemory>
        ensures { IfOk result (λ name. name ≡ name_of text.now) }
    {
        if !is_a_word(text.as_bytes()) {
            return Ok(None);
        }
        let folded = text.to_ascii_lowercase(alloc)?;
        if is_reserved(folded.as_str()) {
            return Ok(None);
        }
        Ok(Some(Name::from_text(Text::from_string(folded))))
    }
}

// The value with one more digit after it; a value that is too great already is left as it is.
fn push_digit(value: u64, byte: u8) -> u64
    requires digit { IsTrue (is_ascii_digit byte) }
    requires small { value ≤ 42949672959 }
    ensures value { result ≡ (if nat_le value 4294967295 then value * 10 + digit_value byte else value) }
    ensures small { result ≤ 42949672959 }
{
    if value <= GREATEST_LIMIT {
        value * 10 + u64::from(byte - b'0')
    } else {
        value
    }
}

/// The value of decimal digits alone, where it is from 1 to 4,294,967,295. It takes no memory.
pub fn limit_of(digits: &Text) -> Option<u32>
    ensures { result ≡ limit_in digits.now }
{
    let bytes = digits.as_str().as_bytes();
    let mut value: u64 = 0;
    for byte in bytes {
        if !byte.is_ascii_digit() {
            return None;
        }
        value = push_digit(value, *byte);
    }
    if value == 0 || value > GREATEST_LIMIT {
        return None;
    }
    Some(value as u32)
}
