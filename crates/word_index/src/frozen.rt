// A table as it was when it was frozen.
ghost use Rattle.std.specs.Prelude.{◌≡◌, ◌<◌, IsTrue, length, slice_index_or};
ghost use Rattle.beas_core.specs.declared.schema.Access.{Access as Constraint};
ghost use Rattle.beas_core.specs.Derivations.{is_live};
ghost use Rattle.catalogue.specs.Schema.{access_with_id};
ghost use Rattle.word_index.specs.Parts.{IsPart};

use crate::indexes::CodeIndexes;
use beas_core::{Access, AccessId, List, TableId};
use catalogue::position_of_id;
use row_store::Rows;

/// A table as it was: its rows and its live constraints, each with its index over codes and all with an interner of their
/// own. It stands by itself, so no call of the guard that it came from touches it. It isn't `Debug`, since its tuples are
/// handed out by probes alone.
#[derive(Drop)]
pub struct Frozen {
    /// The table.
    pub table: TableId,
    pub(crate) rows: Rows,
    pub(crate) accesses: List<Access>,
    pub(crate) indexes: CodeIndexes,
    ghost kept: { IsPart table rows accesses indexes },
}

/// A frozen table has these four fields and no other, so one copy of its rows: with a further field this would not compile.
fn frozen_fields(frozen: &Frozen) {
    let Frozen {
        table: _table,
        rows: _rows,
        accesses: _accesses,
        indexes: _indexes,
    } = frozen;
}

impl Frozen {
    /// Where the constraint with this id stands.
    pub(crate) fn position(&self, id: AccessId) -> usize
        requires { IsTrue (is_live self.now.accesses id) }
        ensures within { result < length self.now.accesses }
        ensures found { (d : Constraint) → slice_index_or self.now.accesses result d ≡ access_with_id self.now.accesses id }
        ensures has_id { (access_with_id self.now.accesses id).id.0 ≡ id.0 }
    {
        position_of_id(self.accesses.as_slice(), id)
    }

    /// Whether a constraint of the table has this id. It takes no memory.
    pub fn has(&self, id: AccessId) -> bool
        ensures { result ≡ is_live self.now.accesses id }
    {
        self.accesses
            .as_slice()
            .iter()
            .any(|access| access.id.0 == id.0)
    }
}
