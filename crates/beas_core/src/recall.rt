// Calls that are there for their clause alone. The clause says what a type holds, which a caller may otherwise not know. They
// change nothing and take no memory.
ghost use Rattle.std.specs.Prelude.{ℕ, ◌<◌, ◌^◌, length};

use crate::plan::{Normal, Prepared};

/// Recalls that the announced number of a prepared query fits 128 bits.
pub fn recall_bound(prepared: &Prepared)
    ensures { prepared.now.bound < 2 ^ 128 }
{
    let _bound = prepared.bound;
}

/// Recalls that a block has fewer than 2^16 classes.
pub fn recall_classes(block: &Normal)
    ensures { block.now.count < 2 ^ 16 }
{
    let _count = block.count;
}

/// Recalls that a list has fewer than 2^64 items.
pub fn recall_length<T>(list: &[T])
    ensures { length list.now < 2 ^ 64 }
{
    let _length = list.len();
}
