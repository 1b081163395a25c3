// Which places stand in a condition or in the output.
ghost use Rattle.std.specs.Prelude.{◌≡◌, ◌<◌, ◌∷◌, [], All, length, map};
ghost use Rattle.std.specs.List.{flat_map};
ghost use Rattle.beas_core.specs.Classes.{operand_places, used_places};
ghost use Rattle.beas_core.specs.Shapes.{BlockIsWellFormed, ComparisonIsWellFormed, IsPlace};
ghost use Rattle.normal_form.specs.Places.{with_places};

use crate::places::Places;
use beas_core::{Block, Comparison, Operand, Place, Value};

#[tactic(auto, using(crate::proofs::Used::used_one))]
fn note(places: &Places<'_>, place: Place, used: &mut [bool])
    requires place { IsPlace places.now.atoms.now place }
    requires full { length used.old ≡ places.now.count }
    ensures { used.new ≡ with_places places.now.atoms.now used.old (place ∷ []) }
{
    used[places.number(place)] = true;
}

#[tactic(auto, using(crate::proofs::Used::used_more, crate::proofs::Used::used_nil))]
fn note_output(places: &Places<'_>, output: &[Place], used: &mut [bool])
    requires output { All (IsPlace places.now.atoms.now) output.now }
    requires full { length used.old ≡ places.now.count }
    ensures { used.new ≡ with_places places.now.atoms.now used.old output.now }
{
    for place in output {
        note(places, *place, used);
    }
}

#[tactic(auto, using(crate::proofs::Used::used_pairs, crate::proofs::Used::used_nil))]
fn note_equalities(places: &Places<'_>, equalities: &[(Place, Place)], used: &mut [bool])
    requires equalities { All
        (λ e. IsPlace places.now.atoms.now e.0 × IsPlace places.now.atoms.now e.1) equalities.now }
    requires full { length used.old ≡ places.now.count }
    ensures { used.new ≡ with_places places.now.atoms.now used.old (flat_map (λ e. e.0 ∷ e.1 ∷ []) equalities.now) }
{
    for equality in equalities {
        note(places, equality.0, used);
        note(places, equality.1, used);
    }
}

#[tactic(auto, using(crate::proofs::Used::used_firsts, crate::proofs::Used::used_nil))]
fn note_constants(places: &Places<'_>, constants: &[(Place, Value)], used: &mut [bool])
    requires constants { All (λ c. IsPlace places.now.atoms.now c.0) constants.now }
    requires full { length used.old ≡ places.now.count }
    ensures { used.new ≡ with_places places.now.atoms.now used.old (map (λ c. c.0) constants.now) }
{
    for constant in constants {
        note(places, constant.0, used);
    }
}

#[tactic(auto, using(crate::proofs::Used::used_append))]
fn note_sides(places: &Places<'_>, comparison: &Comparison, used: &mut [bool])
    requires comparison { ComparisonIsWellFormed places.now.atoms.now comparison.now }
    requires full { length used.old ≡ places.now.count }
    ensures { used.new ≡ with_places places.now.atoms.now used.old
        (comparison.now.left ∷ operand_places comparison.now.right) }
{
    note(places, comparison.left, used);
    if let Operand::At(place) = &comparison.right {
        note(places, *place, used);
    }
}

#[tactic(auto, using(crate::proofs::Used::used_sides, crate::proofs::Used::used_nil))]
fn note_comparisons(places: &Places<'_>, comparisons: &[Comparison], used: &mut [bool])
    requires comparisons { All (ComparisonIsWellFormed places.now.atoms.now) comparisons.now }
    requires full { length used.old ≡ places.now.count }
    ensures { used.new ≡ with_places places.now.atoms.now used.old
        (flat_map (λ c. c.left ∷ operand_places c.right) comparisons.now) }
{
    for comparison in comparisons {
        note_sides(places, comparison, used);
    }
}

/// Notes the places of a block that stand in a condition or in the output.
#[tactic(auto, using(crate::proofs::Used::used_append))]
pub fn note_block(places: &Places<'_>, block: &Block, used: &mut [bool])
    requires block { BlockIsWellFormed block.now }
    requires atoms { places.now.atoms.now ≡ block.now.atoms }
    requires full { length used.old ≡ places.now.count }
    ensures { used.new ≡ with_places block.now.atoms used.old (used_places block.now) }
{
    note_equalities(places, block.equalities.as_slice(), used);
    note_constants(places, block.constants.as_slice(), used);
    note_comparisons(places, block.comparisons.as_slice(), used);
    note_output(places, block.output.as_slice(), used);
}
