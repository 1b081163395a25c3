// What an open database holds.
ghost use Rattle.std.specs.Prelude.{IfOk};
ghost use Rattle.beas_library.specs.Engines.{IsFresh};

use beas_core::Limits;
use beas_library::Engine;
use std::alloc::{AllocError, Global};

/// An engine. It stands alone in a box.
#[derive(Drop)]
pub struct Held {
    pub engine: Engine,
}

impl Held {
    /// An engine without tables.
    pub(crate) fn new(
        alloc: Global,
        limits: Limits,
        budget: Option<u64>,
        explain: bool,
    ) -> Result<Box<Held>, AllocError>
        ensures { IfOk result (λ held. IsFresh limits budget explain held.value.engine) }
    {
        let held = Box::new(
            alloc,
            Held {
                engine: Engine::new(alloc, limits, budget, explain),
            },
        )?;
        Ok(held)
    }
}
