// The law of printing, on text.
ghost use Rattle.std.specs.Prelude.{◌≡◌};
ghost use Rattle.sql_tokens.specs.Tokens.{tokens_of};
ghost use Rattle.sql_text.specs.declared.tree.Statement.{Statement};
ghost use Rattle.sql_text.specs.Symbols.{symbols};
ghost use Rattle.sql_text.specs.Grammar.{Spells};
ghost use Rattle.sql_text.specs.Canonical.{canonical_text};
ghost use Rattle.beas_laws.specs.Spelled.{IsSpelledByTokens};

use sql_text::Statement;

/// Where some tokens spell a statement, the tokens of its canonical text spell it, and no other.
pub fn law_printed(statement: &Statement)
    ensures spelled { IsSpelledByTokens statement.now → Spells (symbols (tokens_of (canonical_text statement.now)))
        statement.now }
    ensures no_other { IsSpelledByTokens statement.now → (other : Statement)
        → Spells (symbols (tokens_of (canonical_text statement.now))) other → other ≡ statement.now }
{}
