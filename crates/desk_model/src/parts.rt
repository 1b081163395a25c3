// Laws on parts and on updates.
ghost use Rattle.std.specs.Prelude.{◌≡◌, ◌==◌, ◌++◌, ◌∷◌, ◌⊎◌, [], List, true};
ghost use Rattle.std.specs.List.{list_any};
ghost use Rattle.beas_core.specs.declared.schema.Access.{Access};
ghost use Rattle.beas_core.specs.declared.schema.TableId.{TableId};
ghost use Rattle.beas_core.specs.Shapes.{EachIdOnce};
ghost use Rattle.beas_core.specs.Types.{TableRows};
ghost use Rattle.catalogue.specs.Database.{Database, rows_at};
ghost use Rattle.desk_model.specs.Kept.{accesses_with, rows_with};
ghost use Rattle.desk_model.specs.Frames.{KeepsTable, IsUntouched, SameOn, Update, updated};

use crate::part::Part;

/// An update leaves each table as it was that it doesn't touch.
pub fn law_updated()
    ensures { (db : Database) (update : Update) (t : TableId) → EachIdOnce db.accesses → IsUntouched db update t
        → SameOn db.accesses (updated db update).accesses (rows_at db) (rows_at (updated db update)) t }
{}

/// A part that is made of a table as it is changes nothing.
pub fn law_with_part<P: Part>(parts: &[P], part: &P)
    ensures { (own : List Access) (other : TableRows) → EachIdOnce own
        → KeepsTable P.table_of P.rows P.accesses own other part.now
        → (t : TableId) → SameOn (accesses_with P.table_of P.accesses parts.now own)
        (accesses_with P.table_of P.accesses (parts.now ++ part.now ∷ []) own)
        (rows_with P.table_of P.rows parts.now other) (rows_with P.table_of P.rows (parts.now ++ part.now ∷ []) other) t }
{}

/// Whatever becomes of the store, a table stays as it was over the parts if it has one, or if the store left it so.
pub fn law_parts<P: Part>(parts: &[P])
    ensures { (before after : List Access) (old new : TableRows) (t : TableId) → EachIdOnce before → EachIdOnce after
        → (list_any (λ p. (P.table_of p).0 == t.0) parts.now ≡ true) ⊎ SameOn before after old new t
        → SameOn (accesses_with P.table_of P.accesses parts.now before) (accesses_with P.table_of P.accesses parts.now after)
        (rows_with P.table_of P.rows parts.now old) (rows_with P.table_of P.rows parts.now new) t }
{}
