// The calls that tell of pairs of columns, and of columns that make a query covered. They are counted from 0.
ghost use Rattle.std.specs.Prelude.{◌≡◌, option_map};
ghost use Rattle.beas_library.specs.Told.{pair_told, place_told};
ghost use Rattle.beas_c.specs.Telling.{HasCopied, HasTold, name_of};

use crate::database::Database;
use crate::status::CLOSED;
use crate::telling::{copy, tell};
use beas_core::Name;
use std::alloc::Global;

/// The size of a pair's greatest group.
#[unsafe(no_mangle)]
pub extern "C" fn beas_pair_most(db: &mut Database, alloc: Global, pair: u64, most: &mut u32) -> i32
    ensures told { HasTold (λ engine. option_map (λ found. found.2) (pair_told engine.report pair))
        db.old.seat.value result most.old most.new }
    ensures same { db.new.seat.value ≡ db.old.seat.value }
{
    match db.take(alloc) {
        Some(held) => {
            let status = tell(most_of(held.engine.pair(pair as usize)), most);
            db.put(held);
            status
        }
        None => CLOSED,
    }
}

/// A name of a pair: 0 is the key, and any other number the other column.
#[unsafe(no_mangle)]
pub extern "C" fn beas_pair_name(
    db: &mut Database,
    alloc: Global,
    pair: u64,
    which: u8,
    into: &mut [u8],
    len: &mut usize,
) -> i32
    ensures copied { HasCopied (λ engine. option_map (name_of which) (pair_told engine.report pair))
        db.old.seat.value result into.old into.new len.old len.new }
    ensures same { db.new.seat.value ≡ db.old.seat.value }
{
    match db.take(alloc) {
        Some(held) => {
            let status = copy(name_of(held.engine.pair(pair as usize), which), into, len);
            db.put(held);
            status
        }
        None => CLOSED,
    }
}

/// The number of the atom of a column, from 1 on.
#[unsafe(no_mangle)]
pub extern "C" fn beas_place_atom(
    db: &mut Database,
    alloc: Global,
    place: u64,
    atom: &mut u32,
) -> i32
    ensures told { HasTold (λ engine. option_map (λ found. found.0) (place_told engine.report place))
        db.old.seat.value result atom.old atom.new }
    ensures same { db.new.seat.value ≡ db.old.seat.value }
{
    match db.take(alloc) {
        Some(held) => {
            let status = tell(atom_of(held.engine.place(place as usize)), atom);
            db.put(held);
            status
        }
        None => CLOSED,
    }
}

/// The name of that column.
#[unsafe(no_mangle)]
pub extern "C" fn beas_place_name(
    db: &mut Database,
    alloc: Global,
    place: u64,
    into: &mut [u8],
    len: &mut usize,
) -> i32
    ensures copied { HasCopied (λ engine. option_map (λ found. found.1) (place_told engine.report place))
        db.old.seat.value result into.old into.new len.old len.new }
    ensures same { db.new.seat.value ≡ db.old.seat.value }
{
    match db.take(alloc) {
        Some(held) => {
            let status = copy(column_of(held.engine.place(place as usize)), into, len);
            db.put(held);
            status
        }
        None => CLOSED,
    }
}

/// The size of the greatest group.
fn most_of(pair: Option<&(Name, Name, u32)>) -> Option<u32>
    ensures { result ≡ option_map (λ found. found.now.2) pair.entry }
{
    match pair {
        Some((_, _, most)) => Some(*most),
        None => None,
    }
}

/// The name of the key, or that of the other column.
fn name_of(pair: Option<&(Name, Name, u32)>, which: u8) -> Option<&str>
    ensures { option_map (λ name. name.now) result ≡ option_map (λ found. name_of which found.now) pair.entry }
{
    match pair {
        Some((key, other, _)) => Some(if which == 0 {
            key.as_str()
        } else {
            other.as_str()
        }),
        None => None,
    }
}

/// The number of the atom.
fn atom_of(place: Option<&(u32, Name)>) -> Option<u32>
    ensures { result ≡ option_map (λ found. found.now.0) place.entry }
{
    match place {
        Some((atom, _)) => Some(*atom),
        None => None,
    }
}

/// The name of the column.
fn column_of(place: Option<&(u32, Name)>) -> Option<&str>
    ensures { option_map (λ name. name.now) result ≡ option_map (λ found. found.now.1) place.entry }
{
    match place {
        Some((_, name)) => Some(name.as_str()),
        None => None,
    }
}
