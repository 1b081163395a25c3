// Runs of bytes of one class.
ghost use Rattle.beas_core.specs.Spelling.{continues_word};
ghost use Rattle.sql_tokens.specs.Cuts.{byte_kind};
ghost use Rattle.sql_tokens.specs.Tokens.{is_in_line, continues_char, quote};
ghost use Rattle.std.specs.Char.{is_ascii_digit, is_ascii_whitespace};
ghost use Rattle.std.specs.List.{prefix_len};
ghost use Rattle.std.specs.Prelude.{◌≡◌, ◌≤◌, ◌+◌, ◌==◌, not, length, drop, Bool, ℕ};

/// What each byte is: 3 where it begins a word, 2 where it is a digit, 1 where it is a mark and no longer one begins with it,
/// and 0 for all others.
static KINDS: [u8; 256] = [
    0, 0, 0, 0, 0, 0, 0, 0, 0, 0, 0, 0, 0, 0, 0, 0, 0, 0, 0, 0, 0, 0, 0, 0, 0, 0, 0, 0, 0, 0, 0, 0,
    0, 0, 0, 0, 0, 0, 0, 0, 1, 1, 1, 1, 1, 1, 1, 0, 2, 2, 2, 2, 2, 2, 2, 2, 2, 2, 0, 1, 0, 1, 0, 0,
    1, 3, 3, 3, 3, 3, 3, 3, 3, 3, 3, 3, 3, 3, 3, 3, 3, 3, 3, 3, 3, 3, 3, 3, 3, 3, 3, 0, 0, 0, 0, 3,
    0, 3, 3, 3, 3, 3, 3, 3, 3, 3, 3, 3, 3, 3, 3, 3, 3, 3, 3, 3, 3, 3, 3, 3, 3, 3, 3, 0, 0, 0, 0, 0,
    0, 0, 0, 0, 0, 0, 0, 0, 0, 0, 0, 0, 0, 0, 0, 0, 0, 0, 0, 0, 0, 0, 0, 0, 0, 0, 0, 0, 0, 0, 0, 0,
    0, 0, 0, 0, 0, 0, 0, 0, 0, 0, 0, 0, 0, 0, 0, 0, 0, 0, 0, 0, 0, 0, 0, 0, 0, 0, 0, 0, 0, 0, 0, 0,
    0, 0, 0, 0, 0, 0, 0, 0, 0, 0, 0, 0, 0, 0, 0, 0, 0, 0, 0, 0, 0, 0, 0, 0, 0, 0, 0, 0, 0, 0, 0, 0,
    0, 0, 0, 0, 0, 0, 0, 0, 0, 0, 0, 0, 0, 0, 0, 0, 0, 0, 0, 0, 0, 0, 0, 0, 0, 0, 0, 0, 0, 0, 0, 0,
];

/// What a byte is, as `KINDS` says.
pub fn kind_of(byte: u8) -> u8
    ensures { result ≡ byte_kind byte }
{
    KINDS[byte as usize]
}

/// A class of bytes.
pub trait Class {
    ghost test: { ℕ → Bool };

    fn has(byte: u8) -> bool
        ensures { result ≡ test byte };
}

/// White space.
pub struct Blank;

/// The bytes of a word.
pub struct InWord;

/// The digits.
pub struct InNumber;

/// All but the line feed.
pub struct InLine;

/// All but the quote.
pub struct Unquoted;

/// The bytes of a character after its first.
pub struct InChar;

impl Class for Blank {
    ghost test = { is_ascii_whitespace };

    fn has(byte: u8) -> bool {
        byte.is_ascii_whitespace()
    }
}

impl Class for InWord {
    ghost test = { continues_word };

    fn has(byte: u8) -> bool {
        kind_of(byte) >= 2
    }
}

impl Class for InNumber {
    ghost test = { is_ascii_digit };

    fn has(byte: u8) -> bool {
        byte.is_ascii_digit()
    }
}

impl Class for InLine {
    ghost test = { is_in_line };

    fn has(byte: u8) -> bool {
        byte != b'\n'
    }
}

impl Class for Unquoted {
    ghost test = { λ byte. not (byte == quote) };

    fn has(byte: u8) -> bool {
        byte != b'\''
    }
}

impl Class for InChar {
    ghost test = { continues_char };

    fn has(byte: u8) -> bool {
        0x80 <= byte && byte < 0xC0
    }
}

/// Where the longest run of the class ends that begins at a place.
pub fn run_end<C: Class>(bytes: &[u8], from: usize) -> usize
    requires { from ≤ length bytes.now }
    ensures len { result ≡ from + prefix_len C.test (drop from bytes.now) }
    ensures within { result ≤ length bytes.now }
{
    let mut to = from;
    while to < bytes.len() && C::has(bytes[to]) {
        to += 1;
    }
    to
}
