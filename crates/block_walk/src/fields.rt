// What a walk is made of.
use crate::known::{Known, Spot};
use crate::ordered::OrderedKeys;
use crate::stack::Stack;
use crate::walking::Walk;

/// A walk, what its probes found and the valuations that it has yet to visit have these fields and no others: with a further
/// one, such as a copy of the rows that it has read, this wouldn't compile.
pub fn walk_fields(walk: &Walk) {
    let Walk {
        first: _first,
        stages: _stages,
        known,
        pending,
        key: _key,
        through: _through,
    } = walk;
    let Known {
        values: _values,
        spots: _spots,
        chains: _chains,
        ordered,
        indexes: _indexes,
    } = known;
    let OrderedKeys { steps: _steps } = ordered;
    let Stack {
        values: _left,
        valuations: _valuations,
    } = pending;
}

/// A spot has these fields and no other: with a further field this would not compile.
fn spot_fields(spot: &Spot) {
    let Spot {
        step: _step,
        from: _from,
        width: _width,
        count: _count,
        key_width: _key_width,
        index: _index,
        all: _all,
    } = spot;
}
