//! The hash by which maps find their keys: fast for numbers, and with a seed that each run may choose anew. Nothing that a
//! map answers depends on the seed. Hashes without a seed mix their inputs likewise, by a fixed factor.
#![tactic(auto)]

mod hasher;

pub use hasher::{FIXED_FACTOR, SeededHasher, SeededHashing, mixed};
