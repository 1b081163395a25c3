// Digits without leading zeros.
ghost use Rattle.std.specs.Prelude.{◌≡◌, ◌<◌, IfOk, MatchOption, length};
ghost use Rattle.sql_text.specs.Grammar.{significant_digits};

use beas_core::{NoMemory, Text};
use std::alloc::Global;

/// The digits without one leading zero, where other digits stand after it.
fn without_zero(digits: &str) -> Option<&str>
    ensures same { MatchOption result (significant_digits digits.now ≡ digits.now)
        (λ rest. significant_digits digits.now ≡ significant_digits rest.now) }
    ensures shorter { MatchOption result (Unit {0}) (λ rest. length rest.now < length digits.now) }
{
    let rest = digits.strip_prefix('0')?;
    if rest.is_empty() {
        return None;
    }
    Some(rest)
}

/// A copy of digits without their leading zeros, of which one digit is kept.
fn stripped(alloc: Global, written: &str) -> Result<Text, NoMemory>
    ensures { IfOk result (λ kept. kept ≡ significant_digits written.now) }
{
    let mut digits = written;
    while let Some(rest) = without_zero(digits) {
        digits = rest;
    }
    Text::from_str(alloc, digits)
}

/// Digits without their leading zeros, of which one digit is kept. Where none leads, they are the same text.
pub fn significant_digits(alloc: Global, digits: Text) -> Result<Text, NoMemory>
    ensures { IfOk result (λ kept. kept ≡ significant_digits digits) }
{
    if without_zero(digits.as_str()).is_none() {
        return Ok(digits);
    }
    stripped(alloc, digits.as_str())
}
