// Labels of places, which are relabelled for each equality between two classes. They lie where the caller has room.
ghost use Rattle.std.specs.Prelude.{◌≡◌, ◌<◌, ◌∷◌, ℕ, All, List as Items, length, map};
ghost use Rattle.beas_core.specs.declared.query.Place.{Place as Position};
ghost use Rattle.beas_core.specs.Shapes.{IsPlace};
ghost use Rattle.normal_form.specs.Labels.{AreFirst, AreLabels, heads, label_at, rank, replace};

use crate::places::Places;
use beas_core::Place;

// Gives each place a label of its own.
#[tactic(auto, using(crate::proofs::Joined::own_written))]
fn label_each(count: u16, labels: &mut [u16])
    requires full { length labels.old ≡ count }
    ensures len { length labels.new ≡ count }
    ensures own { (k : ℕ) → k < count → label_at labels.new k ≡ k }
{
    for place in 0..count {
        labels[usize::from(place)] = place;
    }
}

fn relabel(labels: &mut [u16], from: u16, to: u16)
    ensures { labels.new ≡ map (replace from to) labels.old }
{
    for label in labels.iter_mut() {
        if *label == from {
            *label = to;
        }
    }
}

// The labels with one more equality: a look where its places have one label, else a pass over all.
#[tactic(auto, using(crate::proofs::Joined::labels_apart, crate::proofs::Joined::labels_same))]
fn join(places: &Places<'_>, equality: &(Place, Place), labels: &mut [u16])
    requires left { IsPlace places.now.atoms.now equality.now.0 }
    requires right { IsPlace places.now.atoms.now equality.now.1 }
    requires full { length labels.old ≡ places.now.count }
    ensures { (equalities : Items (Position × Position)) → AreLabels places.now.atoms.now equalities labels.old
        → AreLabels places.now.atoms.now (equality.now ∷ equalities) labels.new }
{
    let left = labels[places.number(equality.0)];
    let right = labels[places.number(equality.1)];
    if left != right {
        relabel(labels, left.max(right), left.min(right));
    }
}

/// Writes the labels that some equalities give to places, whatever stood there.
#[tactic(auto, using(crate::proofs::Joined::own_labels_are))]
pub fn write_labels(places: &Places<'_>, equalities: &[(Place, Place)], labels: &mut [u16])
    requires equalities { All
        (λ e. IsPlace places.now.atoms.now e.0 × IsPlace places.now.atoms.now e.1) equalities.now }
    requires full { length labels.old ≡ places.now.count }
    ensures { AreLabels places.now.atoms.now equalities.now labels.new }
{
    label_each(places.count, labels);
    for equality in equalities.iter().rev() {
        join(places, equality, labels);
    }
}

/// Writes over labels the classes of their places, numbered in order of their first place, and says how many there are.
#[tactic(auto, using(crate::proofs::Numbered::heads_le))]
pub fn number_classes(places: &Places<'_>, labels: &mut [u16]) -> u16
    requires full { length labels.old ≡ places.now.count }
    requires first { AreFirst labels.old }
    ensures numbers { labels.new ≡ map (rank labels.old) labels.old }
    ensures count { result ≡ length (heads labels.old) }
{
    let mut count: u16 = 0;
    for place in 0..usize::from(places.count) {
        let first = usize::from(labels[place]);
        if first == place {
            labels[place] = count;
            count += 1;
        } else {
            labels[place] = labels[first];
        }
    }
    count
}
