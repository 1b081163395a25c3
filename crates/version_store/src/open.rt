// An open query, and a store whose tables can be kept for it.
ghost use Rattle.std.specs.Prelude.{◌≡◌, IfOk};
ghost use Rattle.beas_core.specs.declared.schema.TableId.{TableId as Number};
ghost use Rattle.beas_core.specs.Shapes.{EachIdOnce};
ghost use Rattle.desk_model.specs.Frames.{KeepsTable};

use beas_core::{AccessPort, List, Name, NoMemory, TableId, Text};
use cursor_executor::Cursor;
use desk_model::Part;
use std::alloc::Global;

/// A query that a session has opened, between two of its probes.
#[derive(Drop)]
pub struct OpenQuery<P> {
    pub session: u32,
    pub cursor: Cursor,
    /// The header of its answer, which is that of its prepared query: the cursor's own is gone when its rows are taken.
    pub header: List<Name>,
    /// The plan lines that its answer shows.
    pub plan: Text,
    /// The tables that may have changed since its opening, as they were. A statement that was refused, or changed no row,
    /// may have left one too.
    pub parts: Vec<P>,
}

/// A store whose tables can be kept as they are.
pub trait Freezes<P: Part>: AccessPort {
    /// Whether the store has this table.
    ghost has_table: { Self → Number → Type 0 };

    /// A table as it is, with its live constraints. No later call of the store touches it. It counts no read.
    fn freeze(&self, alloc: Global, table: TableId) -> Result<P, NoMemory>
        requires { has_table self.now table }
        ensures table { IfOk result (λ part. P.table_of part ≡ table) }
        ensures part { IfOk result (KeepsTable P.table_of P.rows P.accesses (Self.accesses self.now) (Self.rows self.now)) };

    /// No two of its constraints have one id.
    ghost once: { (s : Self) → EachIdOnce (Self.accesses s) };
}
