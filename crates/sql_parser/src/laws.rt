// Laws of the grammar.
ghost use Rattle.std.specs.Prelude.{◌≡◌, List};
ghost use Rattle.sql_text.specs.declared.tree.Statement.{Statement};
ghost use Rattle.sql_text.specs.Symbols.{Symbol};
ghost use Rattle.sql_text.specs.Grammar.{Spells};
ghost use Rattle.sql_parser.specs.Outcome.{Parses, Reading, found_reading};

/// Tokens spell at most one statement.
pub fn law_one_statement()
    ensures { (tokens : List Symbol) (s t : Statement) → Spells tokens s → Spells tokens t → s ≡ t }
{}

/// Tokens have a reading, and no other: a statement that they spell, or why they spell none.
pub fn law_one_reading()
    ensures some { (tokens : List Symbol) → Parses tokens (found_reading tokens) }
    ensures one { (tokens : List Symbol) (reading : Reading) → Parses tokens reading → found_reading tokens ≡ reading }
{}
