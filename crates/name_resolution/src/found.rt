// What the names of a block are found in.
use crate::meaning::BoundColumn;
use beas_core::{Atom, Column};

/// The columns with a name, where there is at least one.
#[derive(Clone, Copy)]
pub enum Found {
    One(BoundColumn),
    Several,
}

/// An atom, counted from 0, and its columns.
#[derive(Clone, Copy)]
pub struct AtomColumns<'a> {
    pub atom: usize,
    pub columns: &'a [Column],
}

/// An atom, its alias and its columns.
#[derive(Clone, Copy)]
pub struct NamedAtom<'a> {
    pub atom: Atom,
    pub alias: &'a str,
    pub columns: &'a [Column],
}
