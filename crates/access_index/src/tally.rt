// A tuple of an index and how many rows have it.
use beas_core::Row;
use blocked_list::Counted;

/// A tuple over a constraint's columns and how many rows have it.
#[derive(Drop)]
pub struct Tally {
    pub tuple: Row,
    pub count: u32,
}

impl Counted for Tally {
    ghost recounted = { λ tally count. record tally { count = count } };

    fn set_count(&mut self, count: u32) {
        self.count = count;
    }
}
