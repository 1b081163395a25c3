// The whole script.
ghost use Rattle.std.specs.Prelude.{◌≡◌, ◌++◌, IfOk};
ghost use Rattle.demo_gen.specs.Demo.{demo_text};

use crate::draws::Draws;
use crate::inserts::{push_cafes, push_friends, push_meals};
use crate::queries::push_rounds;
use beas_core::{NoMemory, Text};
use std::alloc::Global;

const TABLES: &str = "\
CREATE TABLE friend (pid INTEGER, fid INTEGER);
CREATE TABLE dine (pid INTEGER, cid INTEGER, year INTEGER, month INTEGER);
CREATE TABLE cafe (cid INTEGER, city TEXT);
CREATE ACCESS f1 ON friend (pid) FETCH (fid) LIMIT 5000;
CREATE ACCESS d1 ON dine (pid, year, month) FETCH (cid) LIMIT 31;
CREATE ACCESS c1 ON cafe (cid) FETCH (city) LIMIT 1;
";

/// The script of the demonstration that a seed makes: three tables with a constraint each, 500 cafés, 2000 persons
/// with ten friends and five meals each, and a hundred queries, with a deletion after each tenth.
pub fn demo(alloc: Global, seed: u32) -> Result<Text, NoMemory>
    ensures { IfOk result (λ text. text ≡ demo_text seed) }
{
    let mut text = Text::from_str(alloc, TABLES)?;
    let mut draws = Draws {
        state: u64::from(seed),
    };
    text.push_str("INSERT INTO cafe VALUES ")?;
    push_cafes(&mut text, &mut draws, 500)?;
    text.push_str(";\nINSERT INTO friend VALUES ")?;
    push_friends(&mut text, &mut draws, 20_000)?;
    text.push_str(";\nINSERT INTO dine VALUES ")?;
    push_meals(&mut text, &mut draws, 10_000)?;
    text.push_str(";\n")?;
    push_rounds(&mut text, &mut draws, 10)?;
    Ok(text)
}
