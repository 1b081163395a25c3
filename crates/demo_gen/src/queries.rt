// The queries of the demonstration, and the deletions between them.
ghost use Rattle.std.specs.Prelude.{◌≡◌, ◌++◌, ◌*◌, OnOk};
ghost use Rattle.std.specs.List.{flat_map};
ghost use Rattle.demo_gen.specs.Draws.{state_after};
ghost use Rattle.demo_gen.specs.Demo.{delete_text, with_end, queries, query_text, rounds};

use crate::draws::Draws;
use beas_core::{NoMemory, Text};
use itoa::Buffer;

/// Adds so many rounds: ten queries, and the deletion of what a person dined who is drawn.
pub fn push_rounds(text: &mut Text, draws: &mut Draws, count: u64) -> Result<(), NoMemory>
    ensures { OnOk result (text.new ≡ text.old ++ flat_map with_end (rounds draws.old.state count)) }
{
    for round in 0..count {
        push_queries(text, draws, 10)?;
        push_deletion(text, draws.below(2000))?;
    }
    Ok(())
}

/// Adds so many queries, whose persons, months and cities are drawn in this order.
fn push_queries(text: &mut Text, draws: &mut Draws, count: u64) -> Result<(), NoMemory>
    ensures text { OnOk result (text.new ≡ text.old ++ flat_map with_end (queries draws.old.state count)) }
    ensures draws { OnOk result (draws.new.state ≡ state_after draws.old.state (3 * count)) }
{
    for query in 0..count {
        let person = draws.below(2000);
        let month = 1 + draws.below(12);
        let city = draws.below(10);
        push_query(text, person, month, city)?;
    }
    Ok(())
}

#[tactic(auto, unfolding(crate::specs::Demo::query_text))]
fn push_query(text: &mut Text, person: u64, month: u64, city: u64) -> Result<(), NoMemory>
    ensures { OnOk result (text.new ≡ text.old ++ with_end (query_text person month city)) }
{
    text.push_str("SELECT DISTINCT c.cid FROM friend AS f, dine AS d, cafe AS c WHERE f.pid = ")?;
    text.push_str(Buffer::new().format(person))?;
    text.push_str(" AND f.fid = d.pid AND d.year = 2015 AND d.month = ")?;
    text.push_str(Buffer::new().format(month))?;
    text.push_str(" AND d.cid = c.cid AND c.city = 'c")?;
    text.push_str(Buffer::new().format(city))?;
    text.push_str("'")?;
    text.push_str(";\n")
}

/// Adds the deletion of what a person dined.
#[tactic(auto, unfolding(crate::specs::Demo::delete_text))]
fn push_deletion(text: &mut Text, person: u64) -> Result<(), NoMemory>
    ensures { OnOk result (text.new ≡ text.old ++ with_end (delete_text person)) }
{
    text.push_str("DELETE FROM dine WHERE pid = ")?;
    text.push_str(Buffer::new().format(person))?;
    text.push_str(";\n")
}
