// Copies of the texts of tokens.
ghost use Rattle.std.specs.Prelude.{◌≡◌, IfOk};

use beas_core::{NoMemory, Text};
use std::alloc::Global;

/// A copy of a text. Many names are one letter, and a copy of a known length is cheap: the compiler makes it without a call.
pub fn copy_of(alloc: Global, text: &str) -> Result<Text, NoMemory>
    ensures { IfOk result (λ copy. copy ≡ text.now) }
{
    if text.len() == 1 {
        return Text::from_str(alloc, &text[..1]);
    }
    Text::from_str(alloc, text)
}
