// All tuples that a probe found, in a ghost field. Clauses speak of each of them. The program copies only those that it keeps.
ghost use Rattle.std.specs.Prelude.{◌≡◌, List};
ghost use Rattle.std.specs.Borrow.{ftrue};
ghost use Rattle.beas_core.specs.Types.{Row};

use beas_core::{AccessPort, Hits};
use std::marker::Model;

/// All tuples that a probe found, for clauses. It has no bytes and owns nothing.
#[derive(Drop)]
pub struct Group {
    pub ghost rows: { List Row },
}

impl Model for Group {
    ghost also_owns = { λ _. ftrue };
}

impl Group {
    /// The tuples that hits stand for.
    pub fn of<P: AccessPort>(_port: &P, _hits: &Hits) -> Group
        ensures { result.rows ≡ P.members _port.now _hits.now }
    {
        Group {}
    }
}
