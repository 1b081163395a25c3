// The forms that a group has.
use blocked_list::BlockedList;
use labelled_list::{Coded, LabelledList};

/// A short list, whose tuples are found by looking at their codes one after another, or a long one, which finds each by
/// its codes at once and takes more memory for that.
///
/// An index has a group for each of its keys, and most are short. A long one lies apart, so that it takes no room in a
/// short one's place.
#[derive(Drop)]
pub enum Form {
    Short(BlockedList<Coded>),
    Labelled(Box<LabelledList>),
}
