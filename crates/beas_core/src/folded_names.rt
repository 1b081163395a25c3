// Whether a word is a name. A look at the reserved words that begin with its first letter tells whether it is reserved.
ghost use Rattle.std.specs.Prelude.{◌≡◌, ◌&&◌, false, not, get_or, map};
ghost use Rattle.std.specs.List.{list_all, list_any};
ghost use Rattle.std.specs.Str.{bytes_eq};
ghost use Rattle.beas_core.specs.Spelling.{is_name, is_reserved};
ghost use Rattle.beas_core.specs.FoldedWords.{goes_on_folded, is_folded_word};

use crate::same_text::{first_byte, is_text};
use crate::spelling::begins_word;

// The words that are no names, by their first letter.
static RESERVED: [&[&str]; 26] = [
    &["access", "all", "and", "as"],
    &["between", "by"],
    &["case", "create", "cross"],
    &["delete", "discover", "distinct", "drop"],
    &["except", "exists", "explain"],
    &["fetch", "from", "full"],
    &["group"],
    &["having"],
    &[
        "in",
        "inner",
        "insert",
        "int",
        "integer",
        "intersect",
        "into",
        "is",
    ],
    &["join"],
    &[],
    &["left", "like", "limit", "load"],
    &[],
    &["natural", "not", "null"],
    &["offset", "on", "or", "order", "outer"],
    &[],
    &[],
    &["right"],
    &["select"],
    &["table", "text"],
    &["union", "using"],
    &["values"],
    &["where", "with"],
    &[],
    &[],
    &[],
];

fn goes_on(byte: u8) -> bool
    ensures { result ≡ goes_on_folded byte }
{
    matches!(byte, b'a'..=b'z' | b'_' | b'0'..=b'9')
}

// Whether all the bytes of a text go on with a word.
fn all_go_on(text: &[u8]) -> bool
    ensures { result ≡ list_all goes_on_folded text.now }
{
    for byte in text {
        if !goes_on(*byte) {
            return false;
        }
    }
    true
}

// Whether a text is a word without capitals.
fn is_folded_word(text: &[u8]) -> bool
    ensures { result ≡ is_folded_word text.now }
{
    begins_word(first_byte(text)) && all_go_on(text) && text.len() <= 64
}

fn is_among(words: &[&str], word: &str) -> bool
    ensures { result ≡ list_any (λ r. bytes_eq r.now word.now) words.now }
{
    for other in words {
        if is_text(word, other) {
            return true;
        }
    }
    false
}

// Whether a word is in the list at a position. None stands past the end.
fn is_in_list(lists: &[&[&str]], at: usize, word: &str) -> bool
    ensures { result ≡ get_or (map (λ words. list_any (λ r. bytes_eq r.now word.now) words.now) lists.now) at false }
{
    at < lists.len() && is_among(lists[at], word)
}

// Whether a word in lower case is one of those that are no names: a look at those with its first letter tells.
pub fn is_reserved(word: &str) -> bool
    ensures { result ≡ is_reserved word.now }
{
    let first = first_byte(word.as_bytes());
    // A byte below `a` wraps around, and its list would stand past the end, as that of a byte above `z`.
    is_in_list(&RESERVED, usize::from(first.wrapping_sub(b'a')), word)
}

fn is_free_word(text: &str) -> bool
    ensures { result ≡ (is_folded_word text.now && not (is_reserved text.now)) }
{
    is_folded_word(text.as_bytes()) && !is_reserved(text)
}

/// Whether a text is an identifier in lower case: a letter or `_`, then letters, digits and `_`, at most 64 bytes in
/// all, and no reserved word. It takes no memory.
#[tactic(auto, using(crate::proofs::FoldedFacts::name_told))]
pub fn is_name(text: &str) -> bool
    ensures { result ≡ is_name text.now }
{
    is_free_word(text)
}
