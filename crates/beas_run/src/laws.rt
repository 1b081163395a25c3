// What is true of every script that names no session.
ghost use Rattle.std.specs.Prelude.{◌≡◌, ◌≤◌, [], ℕ, List, length};
ghost use Rattle.catalogue.specs.Database.{schema_of};
ghost use Rattle.catalogue.specs.Schema.{SchemaIsSound};
ghost use Rattle.session.specs.declared.loading.LoadOutcome.{LoadOutcome};
ghost use Rattle.session.specs.Effects.{Settings};
ghost use Rattle.desk_model.specs.Pieces.{turns};
ghost use Rattle.desk_model.specs.PlainScripts.{statement_turns};
ghost use Rattle.piece_reader.specs.Sayings.{Reading};
ghost use Rattle.beas_run.specs.NoSessions.{MeansStatements, NamesNoSession, statement_readings};
ghost use Rattle.beas_run.specs.Readings.{Readings};
ghost use Rattle.beas_run.specs.Runs.{longest_script};
ghost use Rattle.beas_run.specs.Walks.{Moment};

/// A script that names no session means its statements, one after another, as if there were no sessions: its turns are
/// theirs, after each no query is open, and a run that carries them all out takes exactly their cost.
pub fn law_no_sessions()
    ensures { (settings : Settings) (before : Moment) (script : List ℕ) (readings : List Reading) (outcomes : List LoadOutcome)
        → SchemaIsSound (schema_of before.state.db) → before.state.queries ≡ []
        → length script ≤ longest_script → NamesNoSession script → Readings script readings
        → MeansStatements (turns settings before.state readings outcomes)
        (statement_turns settings before.state.db (statement_readings script) outcomes) before }
{}
