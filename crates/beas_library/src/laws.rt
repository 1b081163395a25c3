// What is true of scripts that are said statement by statement.
ghost use Rattle.std.specs.Prelude.{◌≡◌, ◌<◌, ◌^◌, ℕ, List, length};
ghost use Rattle.std.specs.List.{flat_map};
ghost use Rattle.beas_library.specs.declared.engine.Engine.{Engine};
ghost use Rattle.beas_library.specs.Scripts.{IsBefore, SaysAll, WritesAsRun};
ghost use Rattle.beas_run.specs.Readings.{readings_of};

/// Texts that have the statements of a script, and are said one after another, leave the reports that a run of the script
/// writes: with the same lines and numbers, the same reads and the same database.
pub fn law_says_as_run()
    ensures { (script : List ℕ) (texts : List (List ℕ)) (before after : Engine) (m n : ℕ) (lines : List ℕ)
        → readings_of script ≡ flat_map readings_of texts → length texts < 2 ^ 32 → IsBefore before
        → SaysAll texts before after m n lines → WritesAsRun script lines before after m n }
{}
