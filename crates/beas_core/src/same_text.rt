// Whether two texts are the same. Their lengths tell most of them apart.
ghost use Rattle.std.specs.Prelude.{◌≡◌, bytes_eq, length, slice_index};

/// The first byte of a text, and 0 where it has none.
pub fn first_byte(text: &[u8]) -> u8
    ensures { result ≡ slice_index text.now 0 }
{
    if text.is_empty() { 0 } else { text[0] }
}

fn same_bytes(text: &[u8], found: &[u8]) -> bool
    requires { length text.now ≡ length found.now }
    ensures { result ≡ bytes_eq text.now found.now }
{
    let mut at = 0;
    while at < text.len() {
        if text[at] != found[at] {
            return false;
        }
        at += 1;
    }
    true
}

#[tactic(auto, using(crate::proofs::Sameness::told))]
fn is_so(found: &[u8], text: &[u8]) -> bool
    ensures { result ≡ bytes_eq text.now found.now }
{
    found.len() == text.len() && same_bytes(text, found)
}

/// Whether what was found is this text. It takes no memory.
pub fn is_text(found: &str, text: &str) -> bool
    ensures { result ≡ bytes_eq text.now found.now }
{
    is_so(found.as_bytes(), text.as_bytes())
}
