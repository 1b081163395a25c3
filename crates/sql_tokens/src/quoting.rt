// Texts as the language quotes them.
ghost use Rattle.std.specs.Prelude.{◌≡◌, ◌++◌, OnOk};
ghost use Rattle.sql_tokens.specs.Tokens.{with_quotes_doubled, in_quotes};

use beas_core::{NoMemory, Text};

/// Adds a text between quotes, with each of its own quotes doubled.
pub fn push_quoted(text: &mut Text, content: &str) -> Result<(), NoMemory>
    ensures { OnOk result (text.new ≡ text.old ++ in_quotes content.now) }
{
    text.push_str("'")?;
    push_doubled(text, content)?;
    text.push_str("'")
}

fn push_doubled(text: &mut Text, content: &str) -> Result<(), NoMemory>
    ensures ok { OnOk result (text.new ≡ text.old ++ with_quotes_doubled content.now) }
{
    let mut rest = content;
    while let Some((front, back)) = rest.split_once('\'') {
        text.push_str(front)?;
        text.push_str("''")?;
        rest = back;
    }
    text.push_str(rest)
}
