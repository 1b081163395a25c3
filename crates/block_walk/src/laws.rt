// What a walk from the valuations before the first step reaches and wants.
ghost use Rattle.std.specs.Prelude.{◌↔◌, IsTrue, Contains, flat_map, is_some, []};
ghost use Rattle.beas_core.specs.Types.{Guide, Row};
ghost use Rattle.beas_core.specs.Coverage.{ClassesInRange, ConstantsInRange, start_classes};
ghost use Rattle.beas_core.specs.Derivations.{steps_are_sound};
ghost use Rattle.beas_core.specs.Valuations.{valuations};
ghost use Rattle.beas_core.specs.Reads.{Probe, probes};
ghost use Rattle.beas_core.specs.Guides.{GuideFits};
ghost use Rattle.block_walk.specs.Descents.{reached, wanted};

use beas_core::{AccessPort, DStep, List, Normal};

/// A walk from each valuation before the first step reaches exactly the valuations after the last one, and wants
/// exactly the probes of the derivation, of a guided block too.
pub fn law_walk<P: AccessPort>(port: &P, normal: &Normal, steps: &List<DStep>)
    requires classes { ClassesInRange normal.now }
    requires constants { ConstantsInRange normal.now }
    ensures { (guide : Guide) → GuideFits normal.now guide
        → IsTrue (steps_are_sound normal.now (P.accesses port.now) (start_classes normal.now (is_some guide)) steps.now)
        → ((y : Row) → Contains (valuations (P.rows port.now) normal.now (P.accesses port.now) guide steps.now) y
        ↔ Contains (flat_map (reached (P.rows port.now) normal.now (P.accesses port.now) steps.now (start_classes normal.now (is_some guide)))
        (valuations (P.rows port.now) normal.now (P.accesses port.now) guide [])) y)
        × ((p : Probe) → Contains (probes (P.rows port.now) normal.now (P.accesses port.now) guide steps.now) p
        ↔ Contains (flat_map (wanted (P.rows port.now) normal.now (P.accesses port.now) 0 steps.now (start_classes normal.now (is_some guide)))
        (valuations (P.rows port.now) normal.now (P.accesses port.now) guide [])) p) }
{}
