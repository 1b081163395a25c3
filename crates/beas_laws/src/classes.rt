// Laws on the classes of a block.
ghost use Rattle.std.specs.Prelude.{◌≡◌, ◌<◌, ◌↔◌, ℕ, IsTrue};
ghost use Rattle.beas_core.specs.declared.query.Place.{Place};
ghost use Rattle.beas_core.specs.Shapes.{BlockIsWellFormed, IsPlace};
ghost use Rattle.beas_core.specs.Classes.{Linked, is_joined, class_of, normal_of};
ghost use Rattle.beas_core.specs.Coverage.{ClassesInRange, ConstantsInRange};
ghost use Rattle.beas_core.specs.Numbering.{FirstPlace};

use beas_core::Block;

/// The classes of a block are those of the least equivalence that holds its equalities. The normal form counts them,
/// they are numbered in order of their first place, and each number below the count is the class of some place.
pub fn law_classes(block: &Block)
    requires { BlockIsWellFormed block.now }
    ensures computed { (p q : Place)
        → IsTrue (is_joined block.now.equalities p q) ↔ Linked block.now.equalities p q }
    ensures numbered { (p q : Place) → IsPlace block.now.atoms p → IsPlace block.now.atoms q
        → (class_of block.now p ≡ class_of block.now q) ↔ Linked block.now.equalities p q }
    ensures first { (class : ℕ) → class < (normal_of block.now).count → FirstPlace block.now class }
    ensures classes { ClassesInRange (normal_of block.now) }
    ensures constants { ConstantsInRange (normal_of block.now) }
{}
