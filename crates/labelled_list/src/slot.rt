// What the list and the map of a labelled list hold.
use blocked_list::Counted;

/// Names a tuple by its place in the map. The list writes this number in place, so that no memory is taken when a tuple
/// moves within the map.
#[derive(Drop)]
pub struct Slot {
    pub entry: u32,
}

impl Counted for Slot {
    ghost recounted = { λ slot entry. record slot { entry = entry } };

    fn set_count(&mut self, entry: u32) {
        self.entry = entry;
    }
}

/// How many rows have a tuple, and its label, which rises along the list.
#[derive(Drop)]
pub struct Standing {
    pub count: u32,
    pub label: u64,
}
