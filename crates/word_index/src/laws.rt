// A law on what a store has interned.
ghost use Rattle.std.specs.Prelude.{List};
ghost use Rattle.beas_core.specs.Types.{Row};
ghost use Rattle.beas_core.specs.declared.value.Value.{Value};
ghost use Rattle.catalogue.specs.Schema.{Schema};
ghost use Rattle.word_index.specs.declared.any.AnyIndex.{AnyIndex};
ghost use Rattle.update_guard.specs.Guarding.{IsGuarded};
ghost use Rattle.word_index.specs.Kept.{meanings, AreInterned, AreKept};

/// What the types of a store keep, `AreKept` that of its indexes and `IsGuarded` its own, implies: for each live
/// constraint, the interner has every value that a row of the constraint's table has in a column of its key or a fetched one.
pub fn law_interned()
    ensures { (codes : List Value) (indexes : List AnyIndex) (schema : Schema) (rows : List (List Row)) → AreKept codes indexes
        → IsGuarded schema rows (meanings codes indexes) → AreInterned codes schema.accesses rows }
{}
