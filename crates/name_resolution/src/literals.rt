// The values of literals.
ghost use Rattle.std.specs.Prelude.{◌≡◌, IfOk};
ghost use Rattle.std.specs.Str.{all_ascii_digits};
ghost use Rattle.name_resolution.specs.Literals.{in_range, signed_number, number_value};
ghost use Rattle.name_resolution.specs.Binding.{number_refusals, value_of};
ghost use Rattle.name_resolution.specs.Meanings.{literal_meaning};
ghost use Rattle.beas_core.specs.Results.{IsRefusedAs};
ghost use Rattle.name_resolution.specs.Refusing.{first};

use crate::meaning::Meaning;
use beas_core::{Duplicate, Fail, NoMemory, Refusal, Value};
use sql_text::Literal;
use std::alloc::Global;

/// What a literal stands for.
pub fn literal_meaning(alloc: Global, literal: &Literal) -> Result<Meaning, NoMemory>
    ensures { IfOk result (λ meaning. meaning ≡ literal_meaning literal.now) }
{
    match literal {
        Literal::Number { negative, digits } => match number(*negative, digits.as_str()) {
            Some(value) => Ok(Meaning::Fixed(value)),
            None => Ok(Meaning::OutOfRange {
                negative: *negative,
                digits: digits.copy(alloc)?,
            }),
        },
        Literal::Words { text } => Ok(Meaning::Fixed(Value::Str(text.copy(alloc)?))),
    }
}

/// The value of a literal. A number that no i64 has is refused.
pub fn literal_value(alloc: Global, literal: &Literal) -> Result<Value, Fail>
    ensures value { IfOk result (λ value. value_of (literal_meaning literal.now) ≡ Some value) }
    ensures refused { IsRefusedAs result (first (number_refusals literal.now)) }
{
    match literal_meaning(alloc, literal)? {
        Meaning::Fixed(value) => Ok(value),
        Meaning::OutOfRange { negative, digits } => {
            Err(Fail::Refused(Refusal::NumberRange { negative, digits }))
        }
        // The others are for names, and a literal is none.
        _ => unreachable!(),
    }
}

fn number(negative: bool, digits: &str) -> Option<Value>
    ensures { result ≡ number_value negative digits.now }
{
    signed_number(negative, digits).map(Value::Int)
}

/// A number with its sign, where an i64 has it.
#[tactic(auto, unfolding(crate::specs::Literals::signed_number))]
fn signed_number(negative: bool, digits: &str) -> Option<i64>
    ensures { result ≡ signed_number negative digits.now }
{
    if digits.is_empty() || !all_digits(digits.as_bytes()) {
        return None;
    }
    match digits.parse::<u64>() {
        Ok(magnitude) => in_range(negative, magnitude),
        Err(_) => None,
    }
}

fn all_digits(text: &[u8]) -> bool
    ensures { result ≡ all_ascii_digits text.now }
{
    text.iter().all(|byte| byte.is_ascii_digit())
}

fn in_range(negative: bool, magnitude: u64) -> Option<i64>
    ensures { result ≡ in_range negative magnitude }
{
    if negative {
        if magnitude > 1 << 63 {
            return None;
        }
        Some((-i128::from(magnitude)) as i64)
    } else {
        i64::try_from(magnitude).ok()
    }
}
