// One field of a record.
ghost use Rattle.std.specs.Prelude.{◌≡◌, Some, IfOk, IfSome, option_map, slice_get};
ghost use Rattle.std.specs.Option.{is_some};
ghost use Rattle.csv.specs.Records.{fields_of};
ghost use Rattle.csv_load.specs.Fields.{names, integer_in, text_in, short_text_in, cell};

use beas_core::{ColType, Column, NoMemory, Text, Value};
use csv::ByteRecord;
use std::alloc::Global;
use std::str;

/// The field at a place of a record.
pub fn field_at(fields: &ByteRecord, place: usize) -> Option<&[u8]>
    ensures { option_map (λ field. field.now) result ≡ slice_get (fields_of fields.now) place }
{
    fields.get(place)
}

/// Whether a header's field is a column's name, in any case of its letters.
pub fn names_column(field: &[u8], column: &Column) -> bool
    ensures { result ≡ names field.now column.now }
{
    field.eq_ignore_ascii_case(column.name.as_str().as_bytes())
}

/// The number of an optional sign and digits.
fn number_of(text: &str) -> Option<i64>
    ensures { result ≡ integer_in text.now }
{
    let number = text.parse::<i64>();
    number.ok()
}

/// The bytes as a text, where they are one.
fn text_in(bytes: &[u8]) -> Option<&str>
    ensures { option_map (λ text. text.now) result ≡ text_in bytes.now }
{
    match str::from_utf8(bytes) {
        Ok(text) => Some(text),
        Err(_) => None,
    }
}

/// A number up to this can take one more digit, and is then still far below 2 to the 63.
const MOST: u64 = 100_000_000_000_000_000;

/// The number of a field of few digits alone. An integer may give none too: one with a sign, or a long one.
fn few_digits(field: &[u8]) -> Option<i64>
    ensures { IfSome result (λ number. integer_in field.now ≡ Some number) }
{
    if field.is_empty() {
        return None;
    }
    let mut number: u64 = 0;
    for digit in field {
        if !digit.is_ascii_digit() || number > MOST {
            return None;
        }
        number = number * 10 + u64::from(*digit - b'0');
    }
    Some(number as i64)
}

/// The integer that the field is. Most are a few digits, which are read faster here than by `from_utf8` and `parse`.
fn integer_of(field: &[u8]) -> Option<i64>
    ensures { result ≡ integer_in field.now }
{
    if let Some(number) = few_digits(field) {
        return Some(number);
    }
    match text_in(field) {
        Some(text) => number_of(text),
        None => None,
    }
}

/// The field as a text of at most so many bytes, where it is one.
fn short_text_in(field: &[u8], longest: u32) -> Option<&str>
    ensures { option_map (λ text. text.now) result ≡ short_text_in longest field.now }
{
    if field.len() <= longest as usize {
        text_in(field)
    } else {
        None
    }
}

/// Whether the field has a value in a column of this kind.
pub fn has_value(field: &[u8], kind: ColType, longest: u32) -> bool
    ensures { result ≡ is_some (cell longest kind field.now) }
{
    match kind {
        ColType::Integer => integer_of(field).is_some(),
        ColType::Words => short_text_in(field, longest).is_some(),
    }
}

/// The field's value in a column of this kind, where it has one.
pub fn value_of(
    alloc: Global,
    field: &[u8],
    kind: ColType,
    longest: u32,
) -> Result<Option<Value>, NoMemory>
    ensures { IfOk result (λ value. value ≡ cell longest kind field.now) }
{
    match kind {
        ColType::Integer => Ok(integer_of(field).map(Value::Int)),
        ColType::Words => match short_text_in(field, longest) {
            Some(text) => Ok(Some(Value::Str(Text::from_str(alloc, text)?))),
            None => Ok(None),
        },
    }
}
