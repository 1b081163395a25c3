// Numbers as their decimal digits.
use itoa::{Buffer, Integer};
use std::fmt;

/// A number that prints as its decimal digits.
#[derive(Clone, Copy)]
pub struct Decimal<I: Integer>(pub I);

impl<I: Integer> fmt::Display for Decimal<I> {
    ghost use Rattle.std.specs.Prelude.{Some};

    ghost output = { λ number. Some (I.text number.0) };

    fn fmt<W: fmt::Write>(&self, f: &mut fmt::Formatter<W>) -> fmt::Result {
        f.write_str(Buffer::new().format(self.0))
    }
}
