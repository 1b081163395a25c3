// Stretches of the list whose labels are spread anew.

/// The tuples from one place to another, and the labels before and after them.
#[derive(Clone, Copy)]
pub struct Stretch {
    pub first: usize,
    pub end: usize,
    pub low: u64,
    pub high: u64,
}
