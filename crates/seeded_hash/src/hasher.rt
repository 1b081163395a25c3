// A hasher of numbers: maps are asked by numbers much more often than by texts.
ghost use Rattle.std.specs.Prelude.{◌≡◌};
ghost use Rattle.std.specs.Hash.FoldHasher.{folded_multiply};
ghost use Rattle.seeded_hash.specs.Mixing.{mixed, input_of};

use std::hash::{BuildHasher, DefaultHasher, Hasher};

/// A fast hasher that takes one multiplication for each input, which is a number of 64 bits. Eight bytes or one are the number
/// that they spell; any others are hashed by SipHash first, which has the factor before them. Inputs that collide for one
/// seed are spread under another. The multiplication isn't cryptographic.
#[derive(Clone, Copy)]
pub struct SeededHasher {
    state: u64,
    // It is drawn from the seed too: with a fixed one, inputs that collide for one seed would often do so for others.
    factor: u64,
}

/// What makes a hasher for each key of a map.
#[derive(Clone, Copy)]
pub struct SeededHashing {
    initial: SeededHasher,
}

/// The factor where none is drawn: 2^64 over the golden ratio, rounded to an odd number, as multiplicative hashing often
/// takes it.
pub const FIXED_FACTOR: u64 = 0x9e37_79b9_7f4a_7c15;

// Both halves of the product of two numbers, joined.
fn folded_product(a: u64, b: u64) -> u64
    ensures { result ≡ folded_multiply a b }
{
    let product = a as u128 * b as u128;
    (product & 0xFFFF_FFFF_FFFF_FFFF) as u64 ^ (product >> 64) as u64
}

/// An input mixed into a state. It isn't cryptographic: who chooses the inputs can make many states equal.
pub fn mixed(factor: u64, state: u64, input: u64) -> u64
    ensures { result ≡ mixed factor state input }
{
    folded_product(state ^ input, factor)
}

/// The input that stands for some bytes. Eight of them, or one, are the number that they spell.
fn input_of(factor: u64, bytes: &[u8]) -> u64
    ensures { result ≡ input_of factor bytes.now }
{
    match bytes {
        [a, b, c, d, e, f, g, h] => u64::from_le_bytes([*a, *b, *c, *d, *e, *f, *g, *h]),
        [byte] => u64::from(*byte),
        _ => {
            let mut hasher = DefaultHasher::new();
            hasher.write_u64(factor);
            hasher.write(bytes);
            hasher.finish()
        }
    }
}

impl SeededHashing {
    /// The hashing of a seed.
    pub fn seeded(seed: u64) -> SeededHashing {
        let mut draws = DefaultHasher::new();
        draws.write_u64(seed);
        let factor = draws.finish() | 1;
        draws.write_u64(seed);
        let state = draws.finish();
        SeededHashing {
            initial: SeededHasher { state, factor },
        }
    }
}

impl SeededHasher {
    // Mixes an input into the state.
    fn mix(&mut self, input: u64)
        ensures { self.new ≡ record self.old { state = mixed self.old.factor self.old.state input } }
    {
        self.state = mixed(self.factor, self.state, input);
    }
}

impl BuildHasher for SeededHashing {
    type Hasher = SeededHasher;

    ghost build_hasher = { λ s. s.initial };

    fn build_hasher(&self) -> SeededHasher {
        self.initial
    }
}

impl Hasher for SeededHasher {
    ghost use Rattle.seeded_hash.specs.Mixing.{mixed, input_of};

    ghost write = { λ s bytes. record s { state = mixed s.factor s.state (input_of s.factor bytes) } };

    ghost finish = { λ s. s.state };

    fn finish(&self) -> u64 {
        self.state
    }

    fn write(&mut self, bytes: &[u8]) {
        self.mix(input_of(self.factor, bytes));
    }

    fn write_u8(&mut self, byte: u8) {
        self.mix(u64::from(byte));
    }

    fn write_u64(&mut self, input: u64) {
        self.mix(input);
    }

    fn write_usize(&mut self, number: usize) {
        self.write_u64(number as u64);
    }
}
