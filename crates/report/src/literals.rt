// Values as they are written in a statement.
ghost use Rattle.std.specs.Prelude.{◌≡◌, ◌++◌, IfOk, OnOk, map};
ghost use Rattle.beas_core.specs.Texts.{with_commas};
ghost use Rattle.report.specs.Texts.{literal_text};

use beas_core::{List, NoMemory, Text, Value};
use itoa::Buffer;
use sql_tokens::push_quoted;
use std::alloc::Global;

/// Values with a comma and a space between them: a number in decimal, a text in quotes with its quotes
/// doubled.
pub fn literals(alloc: Global, values: &List<Value>) -> Result<Text, NoMemory>
    ensures { IfOk result (λ text. text ≡ with_commas (map literal_text values.now)) }
{
    let mut text = Text::new(alloc);
    if let [first, after @ ..] = values.as_slice() {
        push_literal(&mut text, first)?;
        for value in after {
            text.push_str(", ")?;
            push_literal(&mut text, value)?;
        }
    }
    Ok(text)
}

fn push_literal(text: &mut Text, value: &Value) -> Result<(), NoMemory>
    ensures ok { OnOk result (text.new ≡ text.old ++ literal_text value.now) }
{
    match value {
        Value::Int(number) => text.push_str(Buffer::new().format(*number)),
        Value::Str(words) => push_quoted(text, words.as_str()),
    }
}
