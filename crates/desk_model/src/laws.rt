// What is true of every list of events, and of scripts that name no session.
ghost use Rattle.std.specs.Prelude.{◌≡◌, ℕ, false, List, map, Contains, None, Ok, Option, Result, Some};
ghost use Rattle.beas_core.specs.declared.limits.Limits.{Limits};
ghost use Rattle.beas_core.specs.declared.plan.Prepared.{Prepared};
ghost use Rattle.beas_core.specs.declared.refusal.Refusal.{Refusal};
ghost use Rattle.beas_core.specs.Fits.{PlanFits};
ghost use Rattle.beas_core.specs.declared.schema.TableId.{TableId};
ghost use Rattle.beas_core.specs.Shapes.{EachIdOnce};
ghost use Rattle.catalogue.specs.Database.{Database, rows_at, schema_of};
ghost use Rattle.catalogue.specs.Schema.{Schema, SchemaIsSound};
ghost use Rattle.piece_reader.specs.declared.event.Event.TheVariants.{Said};
ghost use Rattle.piece_reader.specs.Sayings.{as_plain};
ghost use Rattle.report.specs.declared.reports.Report.{Report};
ghost use Rattle.session.specs.declared.loading.LoadOutcome.{LoadOutcome};
ghost use Rattle.session.specs.Announced.{announcement};
ghost use Rattle.session.specs.Effects.{Settings, action_of, answer_effect};
ghost use Rattle.session.specs.Statements.{StatementIsWellFormed, TreeIsWellFormed};
ghost use Rattle.session.specs.Turns.{turn_of};
ghost use Rattle.sql_text.specs.declared.tree.Statement.{Statement};
ghost use Rattle.sql_text.specs.Trees.{Tree};
ghost use Rattle.desk_model.specs.Answers.{Happening, effect_by, first_answer};
ghost use Rattle.desk_model.specs.Frames.{SameOn};
ghost use Rattle.desk_model.specs.Changes.{changes};
ghost use Rattle.desk_model.specs.Desks.{DeskAction, OneEach, State, action_of_event, at_desk, opened_effect, query_of, wanting};
ghost use Rattle.piece_reader.specs.declared.event.Event.{Event};
ghost use Rattle.desk_model.specs.Pieces.{piece_action, seen_turns, turns};
ghost use Rattle.desk_model.specs.PlainScripts.{beside, statement_turns};

/// What is announced of a query fits the constraints over which it is announced.
pub fn law_announced_fits()
    ensures { (limits : Limits) (budget : Option ℕ) (schema : Schema) (tree : Tree) (prepared : Prepared)
        → SchemaIsSound schema → TreeIsWellFormed tree
        → announcement limits budget schema tree ≡ Ok prepared → PlanFits schema.accesses prepared }
{}

/// A query that was opened is answered as it would have been where it was opened: with the full answer over the rows of
/// then and the reads that it takes over them, whatever events came between.
pub fn law_first_answer()
    ensures { (settings : Settings) (state : State) (session : ℕ) (tree : Tree) (prepared : Prepared)
        → SchemaIsSound (schema_of state.db) → query_of session state ≡ None → TreeIsWellFormed tree
        → announcement settings.limits settings.budget (schema_of state.db) tree ≡ Ok prepared
        → (happenings : List Happening) (report : Report)
        → first_answer settings session (opened_effect settings.explain state session (Ok prepared)).state happenings ≡ Some report
        → report ≡ (answer_effect settings.explain state.db prepared).report }
{}

/// A statement that names no session does what it does to the database alone, and leaves the open queries.
pub fn law_plain_piece()
    ensures { (settings : Settings) (state : State) (statement : Statement) → SchemaIsSound (schema_of state.db)
        → query_of 0 state ≡ None → StatementIsWellFormed statement
        → piece_action settings state (Ok (Said 0 statement)) ≡ Some (at_desk state (action_of settings state.db statement)) }
{}

/// So does a whole script that names no session: its turns are those of its statements, and after each the same queries
/// are open. What is seen of them is what its statements do.
pub fn law_plain_script()
    ensures { (settings : Settings) (state : State) (readings : List (Result Statement Refusal)) (outcomes : List LoadOutcome)
        → SchemaIsSound (schema_of state.db) → query_of 0 state ≡ None
        → ((statement : Statement) → Contains readings (Ok statement) → StatementIsWellFormed statement)
        → (turns settings state (map as_plain readings) outcomes
        ≡ map (beside state.queries) (statement_turns settings state.db readings outcomes))
        × (seen_turns (turns settings state (map as_plain readings) outcomes) ≡ statement_turns settings state.db readings outcomes) }
{}

/// A statement leaves each table as it was that it doesn't change: its rows, and the constraints that are live on it. So
/// a query that names no table that a statement changes goes on seeing what it saw.
pub fn law_unchanged_tables()
    ensures { (settings : Settings) (db : Database) (statement : Statement) (outcome : LoadOutcome) (t : TableId)
        → EachIdOnce db.accesses → changes (schema_of db) statement t ≡ false
        → SameOn db.accesses (turn_of (action_of settings db statement) outcome).effect.db.accesses
        (rows_at db) (rows_at (turn_of (action_of settings db statement) outcome).effect.db) t }
{}

/// No event gives a session a second open query, out of memory either.
pub fn law_one_each()
    ensures event { (settings : Settings) (state : State) (event : Event) (outcome : LoadOutcome) (action : DeskAction)
        → OneEach state → action_of_event settings state event ≡ Some action → OneEach (effect_by action outcome).state }
    ensures lost { (state : State) (event : Event) → OneEach state → OneEach (wanting state event) }
{}
