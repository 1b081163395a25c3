// How a part of a report is told.
ghost use Rattle.std.specs.Prelude.{◌≡◌, ◌++◌, None, Some, drop, if◌then◌else◌, length, nat_le, option_map};
ghost use Rattle.beas_c.specs.Telling.{Copies, CopiesSome, Tells, TellsSum, TellsWide, kind_of};

use crate::status::{ABSENT, DONE, NO_ROOM};
use report::Report;

/// The number of a report's kind.
pub fn kind_of(report: Option<&Report>) -> i32
    ensures { result ≡ kind_of (option_map (λ r. r.now) report.entry) }
{
    match report {
        None => 0,
        Some(Report::Done) => 1,
        Some(Report::Changed { .. }) => 2,
        Some(Report::Greatest { .. }) => 3,
        Some(Report::Pairs { .. }) => 4,
        Some(Report::Explained { .. }) => 5,
        Some(Report::Answered { .. }) => 6,
        Some(Report::Grouped { .. }) => 7,
        Some(Report::Specialised { .. }) => 8,
        Some(Report::Opened { .. }) => 9,
        Some(Report::Probed { .. }) => 10,
        Some(Report::Refused { .. }) => 11,
    }
}

/// Tells what was found.
pub fn tell<T: Copy>(found: Option<T>, into: &mut T) -> i32
    ensures { Tells found result into.old into.new }
{
    match found {
        Some(part) => {
            *into = part;
            DONE
        }
        None => ABSENT,
    }
}

/// Tells a number in two halves.
pub fn tell_wide(found: Option<u128>, low: &mut u64, high: &mut u64) -> i32
    ensures { TellsWide found result (low.old, high.old) (low.new, high.new) }
{
    match found {
        Some(number) => {
            *low = (number % (1 << 64)) as u64;
            *high = (number / (1 << 64)) as u64;
            DONE
        }
        None => ABSENT,
    }
}

/// Tells a number with a sign in two halves.
pub fn tell_sum(found: Option<i128>, low: &mut u64, high: &mut i64) -> i32
    ensures { TellsSum found result (low.old, high.old) (low.new, high.new) }
{
    match found {
        Some(sum) => {
            *low = sum.rem_euclid(1 << 64) as u64;
            *high = sum.div_euclid(1 << 64) as i64;
            DONE
        }
        None => ABSENT,
    }
}

/// Copies a text's bytes to the front of `into`, if there is room, and tells how many they are.
pub fn copy(text: Option<&str>, into: &mut [u8], len: &mut usize) -> i32
    ensures { CopiesSome (option_map (λ t. t.now) text.entry) result into.old into.new len.old len.new }
{
    match text {
        Some(text) => copy_bytes(text.as_bytes(), into, len),
        None => ABSENT,
    }
}

/// Copies bytes to the front of `into`, if there is room, and tells how many they are.
pub fn copy_bytes(bytes: &[u8], into: &mut [u8], len: &mut usize) -> i32
    ensures { Copies bytes.now result into.old into.new len.new }
{
    *len = bytes.len();
    if copy_to_front(bytes, into) {
        DONE
    } else {
        NO_ROOM
    }
}

/// Copies bytes to the front of `into`, and tells whether there was room for them; if not, nothing is written.
fn copy_to_front(bytes: &[u8], into: &mut [u8]) -> bool
    ensures room { result ≡ nat_le (length bytes.now) (length into.old) }
    ensures copied { into.new ≡ (if result then bytes.now ++ drop (length bytes.now) into.old else into.old) }
{
    let n = bytes.len();
    if into.len() < n {
        return false;
    }
    into[..n].copy_from_slice(bytes);
    true
}
