// The kinds of refusals that come after unknown tables and repeated aliases.

/// What may be wrong with a ref or a literal.
#[derive(Clone, Copy)]
pub enum Flaw {
    UnknownColumn,
    AmbiguousColumn,
    NumberRange,
    TextTooLong,
}

/// A kind of refusal.
#[derive(Clone, Copy)]
pub enum Kind {
    /// What may be wrong with a ref or a literal.
    OfMeaning(Flaw),
    /// The sides of a condition differ in type.
    Types,
    /// The outputs differ from those of the first block in number or in type.
    Shapes,
    /// Too many blocks.
    Blocks,
    /// Too many atoms.
    Atoms,
    /// Too many outputs are written.
    Outputs,
}
