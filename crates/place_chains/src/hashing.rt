// Hashes of keys, by which what a probe found is found again.
ghost use Rattle.std.specs.Prelude.{◌≡◌};
ghost use Rattle.place_chains.specs.Hashing.{hash_of, number_of};

use beas_core::Value;
use seeded_hash::{FIXED_FACTOR, mixed};
use std::hash::{FoldHasher, Hash, Hasher};

// The number that stands for a value.
fn number_of(value: &Value) -> u64
    ensures { result ≡ number_of value.now }
{
    match value {
        Value::Int(number) => number.cast_unsigned(),
        Value::Str(text) => {
            let mut hasher = FoldHasher::default();
            text.hash(&mut hasher);
            hasher.finish()
        }
    }
}

/// The hash of a step and a key.
pub fn hash_of(step: usize, key: &[Value]) -> u64
    ensures { result ≡ hash_of step key.now }
{
    // The step is mixed in first, so that equal numbers of different steps have hashes of their own.
    let mut hash = mixed(FIXED_FACTOR, step as u64, 0);
    for value in key {
        hash = mixed(FIXED_FACTOR, hash, number_of(value));
    }
    hash
}
