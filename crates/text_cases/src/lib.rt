//! Compares what texts and files are read as with what they are to be read as.
//!
//! `try_csv`, `try_arguments` and `try_streams` print what comes of each case of a file, where each line is a case, and
//! one that begins with `#` is a comment. `try_spellings` prints how many cases of each file of a folder were as
//! wanted, and what came of those that weren't. `canonical` is what statements are read as. It promises nothing but
//! safety, and of `canonical` that a text comes of a statement that its source spells, and a refusal of one that spells
//! none.
//!
//! - `try_csv`: a line has a letter for the table's columns, a space, and the bytes of a CSV file. `p` is (name TEXT,
//!   age INTEGER), `n` is (n INTEGER) and `t` is (name TEXT). In the bytes `\n`, `\r` and `\\` stand for one byte,
//!   `\xHH` for the byte with this number, and `\{N}b` for N times the byte `b`. Told are the rows or the refusal that
//!   `rows_of` gives. scripts/csv-cases works them out with another reader of CSV, Python's.
//! - `try_arguments`: in a command line each argument has `|` before it, so that an empty line has no argument and `|`
//!   alone one empty argument; `*` stands for 70000 letters. A line `@SEED` asks for the length of the demonstration
//!   that the seed makes, for a checksum of its bytes (FNV-1a of 64 bits), and for how its seventh statement begins.
//!   scripts/words-cases makes the demonstrations by a program of its own.
//! - `try_streams`: a line is words with one space between them, and then acts with a comma between them. `read LIMIT
//!   TEXT ACTS` reads a reader of the text whole, `endless LIMIT` one that never ends, and `file LIMIT PATH` a file.
//!   Told is what was read, or why not, with the counts of faults and of bytes that were taken. `write PIECE ACTS` puts
//!   a piece, which may be empty, into a writer. Told is whether it was taken whole, with the count of faults and what
//!   the writer holds. An act is what the stream does at one call: `gives N` and `takes N` move at most N bytes, and
//!   `interrupted`, `would block`, `reset`, `broken pipe` and `out of memory` are errors. After its acts a stream moves
//!   nothing.
//!
//! In the folder of `try_spellings` each of the files `spellings`, `refusals`, `depths`, `pieces`, `names`, `tokens`
//! and `cuts` has cases with an empty line between them. A case is a text, of one line or more, and below it, on lines
//! that begin with `> `, what is wanted for it; a case whose text is empty has just those lines. A part that begins
//! with `#` is a remark. `[N TEXT]` stands for TEXT, N times, and `[U+0B]` for the character of Unicode with that
//! number of base 16: characters that can't be seen are written so.
//!
//! - `spellings`, `refusals`, `depths`: wanted is the canonical text of the statement that the text spells, which has
//!   to be read as itself, or `refused: ` with the reason.
//! - `pieces`: wanted is the same of each piece of the script, in order, or `nothing` where it has no piece.
//! - `names`: wanted is the name that the text spells, or `no name`.
//! - `tokens`: wanted is each token of the script, in order, as `word 5..6 a`: its kind, the places of its first byte
//!   and of the byte after its last, counted from 0, and its text unless that is empty. A script with no token has
//!   `nothing`.
//! - `cuts`: wanted is the places among the tokens of each piece of the script, in order, as `0..2` for a piece of the
//!   first two tokens, or `nothing` where it has no piece.
//!
//! The file `reserved` has words, one a line. Each is to be no name in a statement, and to be one with `_` after it.
#![tactic(auto)]

mod acts;
mod arguments;
mod cases;
mod csv_answers;
mod csv_files;
mod lines;
mod readings;
mod reads;
mod spelled_bytes;
mod spellings;
mod streams;
mod texts;
mod tokens;
mod writes;

pub use arguments::try_arguments;
pub use csv_files::try_csv;
pub use spellings::try_spellings;
pub use streams::try_streams;
pub use texts::canonical;
