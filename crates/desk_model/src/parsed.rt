// Each statement that tokens spell has what a session asks of a statement: no more parts than there are tokens, and none
// missing that it needs.
ghost use Rattle.std.specs.Prelude.{◌≡◌, ◌-◌, ◌<◌, ◌^◌, length, Ok, Some};
ghost use Rattle.piece_reader.specs.Sayings.{IsReadAs, statement_in};
ghost use Rattle.session.specs.Statements.{StatementIsWellFormed};
ghost use Rattle.sql_parser.specs.Outcome.{Parses};
ghost use Rattle.sql_text.specs.Symbols.{symbols};

use piece_reader::Event;
use sql_text::Statement;
use sql_tokens::Token;

/// A statement that fewer than 2^32 - 1 tokens spell has what a session asks of the statements that it carries out.
#[tactic(auto, using(crate::proofs::WellFormedFacts::parsed_well))]
pub fn law_parsed_well(tokens: &[Token], statement: &Statement)
    requires few { length tokens.now < 2 ^ 32 - 1 }
    requires spelled { Parses (symbols tokens.now) (Ok statement.now) }
    ensures { StatementIsWellFormed statement.now }
{}

/// So has a statement that a piece of fewer than 2^32 - 1 tokens says, of a session or of none.
#[tactic(auto, using(crate::proofs::WellFormedFacts::said_well))]
pub fn law_said_well(tokens: &[Token], event: &Event, statement: &Statement)
    requires few { length tokens.now < 2 ^ 32 - 1 }
    requires said { IsReadAs tokens.now (Ok event.now) }
    requires stated { statement_in event.now ≡ Some statement.now }
    ensures { StatementIsWellFormed statement.now }
{}
