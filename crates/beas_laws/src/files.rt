// Laws on files that can't be read.
ghost use Rattle.std.specs.Prelude.{◌≡◌, ℕ, All, List};
ghost use Rattle.std.specs.List.{AllZip};
ghost use Rattle.catalogue.specs.Database.{Database};
ghost use Rattle.desk_model.specs.Desks.{State};
ghost use Rattle.desk_model.specs.Pieces.{seen_turns, turns};
ghost use Rattle.piece_reader.specs.Sayings.{IsReadAs, Reading};
ghost use Rattle.beas_laws.specs.Unreadable.{NamesNone, TellsFailures};
ghost use Rattle.session.specs.declared.loading.LoadOutcome.{LoadOutcome};
ghost use Rattle.session.specs.Effects.{Settings, action_of};
ghost use Rattle.session.specs.Ties.{failures};
ghost use Rattle.session.specs.Turns.{Turn, loads_of, turn_of};
ghost use Rattle.sql_tokens.specs.declared.token.Token.{Token};
ghost use Rattle.sql_text.specs.declared.tree.Statement.{Statement};

/// A statement is refused because a file can't be read exactly where it is a LOAD whose file's load failed, and names
/// this file.
pub fn law_unreadable_statement()
    ensures { (settings : Settings) (db : Database) (statement : Statement) (outcome : LoadOutcome)
        → TellsFailures (turn_of (action_of settings db statement) outcome) }
{}

/// So does each turn of a script, whatever sessions its pieces name.
pub fn law_unreadable_script()
    ensures { (settings : Settings) (state : State) (pieces : List (List Token)) (readings : List Reading)
        (outcomes : List LoadOutcome) → AllZip IsReadAs pieces readings
        → All TellsFailures (seen_turns (turns settings state readings outcomes)) }
{}

/// So where no load failed of any file, no turn's report says of a file that it can't be read.
pub fn law_all_readable()
    ensures { (turns : List Turn) → All TellsFailures turns → ((name : List ℕ) → failures name (loads_of turns) ≡ 0)
        → All NamesNone turns }
{}
