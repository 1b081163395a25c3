// What a part of a blocked list can do.
ghost use Rattle.std.specs.Prelude.{◌≡◌, ◌+◌, ◌<◌, ◌≤◌, ◌^◌, ◌++◌, [], ◌∷◌, List, Bool, ℕ, length, filter, insert, remove, slice_index_or, slice_set, OnOk, OnErr, IfOk, MatchOption};
ghost use Rattle.std.specs.List.Sorted.{IsPartitionedBy};
ghost use Rattle.blocked_list.specs.Ends.{ends, IsCut};
ghost use Rattle.blocked_list.specs.Runs.{IsRun};

use beas_core::NoMemory;
use std::alloc::Global;

/// An item with a count that is written in place.
pub trait Counted: Drop {
    /// The item with another count.
    ghost recounted: { Self → ℕ → Self };

    /// Writes the count.
    fn set_count(&mut self, count: u32)
        ensures { self.new ≡ recounted self.old count };
}

/// What a search looks for: it tells of each item whether it stands before that place.
pub trait Before<T> {
    ghost before: { Self → T → Bool };

    /// Whether the item stands before the place.
    fn is_before(&self, item: &T) -> bool
        ensures { result ≡ before self.now item.now };
}

/// A part of a blocked list, itself a list.
pub trait Chunk<T: Counted>: Drop {
    ghost items: { Self → List T };

    /// A chunk of one item.
    fn of(alloc: Global, item: T) -> Result<Self, NoMemory>
        ensures { IfOk result (λ chunk. items chunk ≡ item ∷ []) };

    fn len(&self) -> usize
        ensures { result ≡ length (items self.now) };

    fn get(&self, at: usize) -> &T
        requires { at < length (items self.now) }
        ensures { result.now ≡ slice_index_or (items self.now) at result.now };

    /// Items from a place on that lie one after another in memory, at least one.
    fn run(&self, at: usize) -> &[T]
        requires { at < length (items self.now) }
        ensures { IsRun (items self.now) at result.now };

    /// Whether the last item stands before the place, true where there is no item.
    fn ends_before<B: Before<T>>(&self, wanted: &B) -> bool
        ensures { result ≡ ends (B.before wanted.now) (items self.now) };

    /// How many items stand before the place, where they are the first ones.
    fn partition_point<B: Before<T>>(&self, wanted: &B) -> usize
        requires { IsPartitionedBy (B.before wanted.now) (items self.now) }
        ensures { result ≡ length (filter (B.before wanted.now) (items self.now)) };

    /// Puts an item in at a place. After an error the items are as they were.
    fn insert(&mut self, alloc: Global, at: usize, item: T) -> Result<(), NoMemory>
        requires within { at ≤ length (items self.old) }
        requires room { length (items self.old) + 1 < 2 ^ 64 }
        ensures ok { OnOk result (items self.new ≡ insert (items self.old) at item) }
        ensures err { OnErr result (items self.new ≡ items self.old) };

    /// Writes the count of the item at a place.
    fn recount(&mut self, at: usize, count: u32)
        requires { at < length (items self.old) }
        ensures { (d : T) → items self.new
            ≡ slice_set (items self.old) at (T.recounted (slice_index_or (items self.old) at d) count) };

    /// Drops the item at a place.
    fn remove(&mut self, at: usize)
        requires { at < length (items self.old) }
        ensures { items self.new ≡ remove (items self.old) at };

    /// The back half, cut off, where the chunk is full and memory is there.
    fn split(&mut self) -> Option<Self>
        ensures { MatchOption result (items self.new ≡ items self.old)
            (λ back. IsCut (items self.old) (items self.new) (items back)) };
}
