// A law on what constants cover.
ghost use Rattle.std.specs.Prelude.{◌≡◌, ℕ, List as Items, map};
ghost use Rattle.beas_core.specs.declared.value.Value.{Value};
ghost use Rattle.beas_core.specs.Classes.{normal_of};
ghost use Rattle.beas_core.specs.Coverage.{own_is_covered};
ghost use Rattle.specialise.specs.Specialised.{is_covered_with, with_constants};

use beas_core::{Access, Block, List};

/// Whether constants for some classes make a block covered doesn't depend on their values.
pub fn law_values(accesses: &List<Access>, block: &Block)
    ensures { (given : Items (ℕ × Value)) → own_is_covered (normal_of (with_constants block.now given)) accesses.now
        ≡ is_covered_with accesses.now block.now (map (λ g. g.0) given) }
{}
