// The rows of the tables, each table by one statement.
ghost use Rattle.std.specs.Prelude.{◌≡◌, ◌++◌, ◌*◌, OnOk};
ghost use Rattle.demo_gen.specs.Draws.{state_after};
ghost use Rattle.demo_gen.specs.Demo.{cafe_at, cafe_row, dine_at, dine_row, friend_at, friend_row, rows_text, separator};

use crate::draws::Draws;
use beas_core::{NoMemory, Text};
use itoa::Buffer;

/// Adds so many cafés, each in a city that is drawn.
pub fn push_cafes(text: &mut Text, draws: &mut Draws, count: u64) -> Result<(), NoMemory>
    ensures text { OnOk result (text.new ≡ text.old ++ rows_text (cafe_at draws.old.state) count) }
    ensures draws { OnOk result (draws.new.state ≡ state_after draws.old.state count) }
{
    for cid in 0..count {
        push_separator(text, cid)?;
        push_cafe(text, cid, draws.below(10))?;
    }
    Ok(())
}

/// Adds so many friendships: ten of each person, with a friend who is drawn.
pub fn push_friends(text: &mut Text, draws: &mut Draws, count: u64) -> Result<(), NoMemory>
    ensures text { OnOk result (text.new ≡ text.old ++ rows_text (friend_at draws.old.state) count) }
    ensures draws { OnOk result (draws.new.state ≡ state_after draws.old.state count) }
{
    for place in 0..count {
        push_separator(text, place)?;
        push_friend(text, place / 10, draws.below(2000))?;
    }
    Ok(())
}

/// Adds so many meals: five of each person, in a café and then a month that are drawn.
pub fn push_meals(text: &mut Text, draws: &mut Draws, count: u64) -> Result<(), NoMemory>
    ensures text { OnOk result (text.new ≡ text.old ++ rows_text (dine_at draws.old.state) count) }
    ensures draws { OnOk result (draws.new.state ≡ state_after draws.old.state (2 * count)) }
{
    for place in 0..count {
        let cid = draws.below(500);
        let month = 1 + draws.below(12);
        push_separator(text, place)?;
        push_meal(text, place / 5, cid, month)?;
    }
    Ok(())
}

/// Sets a row apart from the one before it.
fn push_separator(text: &mut Text, place: u64) -> Result<(), NoMemory>
    ensures { OnOk result (text.new ≡ text.old ++ separator place) }
{
    if place > 0 {
        text.push_str(", ")?;
    }
    Ok(())
}

fn push_cafe(text: &mut Text, cid: u64, city: u64) -> Result<(), NoMemory>
    ensures { OnOk result (text.new ≡ text.old ++ cafe_row cid city) }
{
    text.push_str("(")?;
    text.push_str(Buffer::new().format(cid))?;
    text.push_str(", 'c")?;
    text.push_str(Buffer::new().format(city))?;
    text.push_str("')")
}

fn push_friend(text: &mut Text, pid: u64, fid: u64) -> Result<(), NoMemory>
    ensures { OnOk result (text.new ≡ text.old ++ friend_row pid fid) }
{
    text.push_str("(")?;
    text.push_str(Buffer::new().format(pid))?;
    text.push_str(", ")?;
    text.push_str(Buffer::new().format(fid))?;
    text.push_str(")")
}

fn push_meal(text: &mut Text, pid: u64, cid: u64, month: u64) -> Result<(), NoMemory>
    ensures { OnOk result (text.new ≡ text.old ++ dine_row pid cid month) }
{
    text.push_str("(")?;
    text.push_str(Buffer::new().format(pid))?;
    text.push_str(", ")?;
    text.push_str(Buffer::new().format(cid))?;
    text.push_str(", 2015, ")?;
    text.push_str(Buffer::new().format(month))?;
    text.push_str(")")
}
