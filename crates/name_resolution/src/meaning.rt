// What names and literals stand for.
use beas_core::{Atom, ColType, Comparison, List, Name, Place, Sign, Text, Value};

/// A column of an atom of a block, both counted from 0, and the type of its values.
#[derive(Clone, Copy)]
pub struct BoundColumn {
    pub atom: usize,
    pub column: usize,
    pub kind: ColType,
}

/// What a ref or a literal stands for, or why it stands for nothing.
#[derive(Drop)]
pub enum Meaning {
    At(BoundColumn),
    Fixed(Value),
    /// No column has this name.
    Unknown { table: Option<Name>, column: Name },
    /// Several columns have this name.
    Ambiguous { column: Name },
    /// A number that no i64 has.
    OutOfRange { negative: bool, digits: Text },
}

/// A condition with what its sides stand for.
#[derive(Drop)]
pub enum Condition {
    Compare {
        left: Meaning,
        sign: Sign,
        right: Meaning,
    },
    Between {
        value: Meaning,
        low: Meaning,
        high: Meaning,
    },
}

/// A block with its names looked up.
#[derive(Drop)]
pub struct LookedUp {
    pub atoms: List<Atom>,
    pub star: bool,
    pub items: List<Meaning>,
    /// The types of the outputs.
    pub kinds: List<ColType>,
    pub conditions: List<Condition>,
}

/// What a condition adds to a block.
#[derive(Drop)]
pub enum Part {
    Equality(Place, Place),
    Constant(Place, Value),
    Compared(Comparison),
}
