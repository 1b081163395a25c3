// Places of a list one after another.
ghost use Rattle.std.specs.Prelude.{◌≡◌, ◌<◌, length, slice_index_or};
ghost use Rattle.blocked_list.specs.Runs.{IsWithin};

use crate::blocked::BlockedList;
use crate::chunk::Counted;
use std::marker::Model;

/// Reads a list's items, seen as the list. It keeps the rest of a leaf from a place that was looked up on, so that the items
/// after it are read where they lie: a walk onwards looks up one place for each leaf.
#[derive(Drop)]
pub struct Walk<'a, T: Counted> {
    list: &'a BlockedList<T>,
    run: &'a [T],
    from: usize,
}

impl<'a, T: Counted> Model for Walk<'a, T> {
    ghost use Rattle.std.specs.Prelude.{List};
    ghost use Rattle.blocked_list.specs.Runs.{IsWithin};

    ghost Value = { List T };

    ghost view = { λ s. s.list.now };

    ghost invariant = { λ s. IsWithin s.list.now s.from s.run.now };
}

impl<'a, T: Counted> Walk<'a, T> {
    /// Reads the items of this list.
    pub fn over(list: &'a BlockedList<T>) -> Walk<'a, T>
        ensures { result ≡ list.now }
    {
        Walk {
            list,
            run: &[],
            from: 0,
        }
    }

    /// The item at a place.
    pub fn get(&mut self, at: usize) -> &'a T
        requires { at < length self.old }
        ensures item { result.now ≡ slice_index_or self.old at result.now }
        ensures same { self.new ≡ self.old }
    {
        if at < self.from || self.run.len() <= at - self.from {
            match self.list.run(at) {
                None => return self.list.get(at),
                Some(run) => {
                    self.run = run;
                    self.from = at;
                }
            }
        }
        &self.run[at - self.from]
    }
}
