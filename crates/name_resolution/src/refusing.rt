// Refuses blocks with their names looked up.
ghost use Rattle.std.specs.Prelude.{◌≡◌, ◌++◌, ◌<◌, ◌+◌, ◌^◌, ℕ, List, IsTrue, length, not, nat_lt};
ghost use Rattle.std.specs.List.{flat_map, list_any, enumerate_from};
ghost use Rattle.name_resolution.specs.Binding.{places_in_all};
ghost use Rattle.beas_core.specs.Results.{IsRefusedAs};
ghost use Rattle.name_resolution.specs.Refusing.{first, refusals_if, unknown_column, ambiguous_column, number_range, text_too_long, flaws, has_flaw, condition_has_flaw, block_has_flaw, sides, kind_of, kinds_differ, is_mixed, same_kind, same_kinds, mixed_types, places};

use crate::kinds::{Flaw, Kind};
use crate::meaning::{Condition, LookedUp, Meaning};
use crate::scope::copy_of;
use beas_core::{ColType, Counted, Duplicate, Fail, Limits, Refusal, Text, Value};
use std::alloc::Global;

/// Refuses for this reason where the flag is set.
fn refuse_if(failing: bool, why: Refusal) -> Result<(), Fail>
    ensures { IsRefusedAs result (first (refusals_if failing why)) }
{
    if failing {
        return Err(Fail::Refused(why));
    }
    drop(why);
    Ok(())
}

fn refuse_unknown(alloc: Global, meaning: &Meaning) -> Result<(), Fail>
    ensures { IsRefusedAs result (first (unknown_column meaning.now)) }
{
    match meaning {
        Meaning::Unknown { table, column } => Err(Fail::Refused(Refusal::UnknownColumn {
            table: copy_of(alloc, table)?,
            column: column.copy(alloc)?,
        })),
        _ => Ok(()),
    }
}

fn refuse_ambiguous(alloc: Global, meaning: &Meaning) -> Result<(), Fail>
    ensures { IsRefusedAs result (first (ambiguous_column meaning.now)) }
{
    match meaning {
        Meaning::Ambiguous { column } => Err(Fail::Refused(Refusal::Ambiguous {
            column: column.copy(alloc)?,
        })),
        _ => Ok(()),
    }
}

fn refuse_number(alloc: Global, meaning: &Meaning) -> Result<(), Fail>
    ensures { IsRefusedAs result (first (number_range meaning.now)) }
{
    match meaning {
        Meaning::OutOfRange { negative, digits } => Err(Fail::Refused(Refusal::NumberRange {
            negative: *negative,
            digits: digits.copy(alloc)?,
        })),
        _ => Ok(()),
    }
}

/// Refuses a text of more than `limit` bytes.
pub fn refuse_text(limit: u32, text: &Text) -> Result<(), Fail>
    ensures { IsRefusedAs result (first (refusals_if (nat_lt limit (length text.now)) (Refusal.TextTooLong limit))) }
{
    let long = text.as_str().len() > limit as usize;
    refuse_if(long, Refusal::TextTooLong { limit })
}

fn refuse_long(limit: u32, meaning: &Meaning) -> Result<(), Fail>
    ensures { IsRefusedAs result (first (text_too_long limit meaning.now)) }
{
    match meaning {
        Meaning::Fixed(Value::Str(text)) => refuse_text(limit, text),
        _ => Ok(()),
    }
}

/// Refuses what a ref or a literal stands for where it has this flaw.
#[tactic(auto, unfolding(crate::specs::Refusing::flaws))]
pub fn refuse_meaning(alloc: Global, flaw: Flaw, limit: u32, meaning: &Meaning) -> Result<(), Fail>
    ensures { IsRefusedAs result (first (flaws flaw limit meaning.now)) }
{
    match flaw {
        Flaw::UnknownColumn => refuse_unknown(alloc, meaning),
        Flaw::AmbiguousColumn => refuse_ambiguous(alloc, meaning),
        Flaw::NumberRange => refuse_number(alloc, meaning),
        Flaw::TextTooLong => refuse_long(limit, meaning),
    }
}

fn refuse_items(alloc: Global, flaw: Flaw, limit: u32, items: &[Meaning]) -> Result<(), Fail>
    ensures { IsRefusedAs result (first (flat_map (flaws flaw limit) items.now)) }
{
    for item in items {
        refuse_meaning(alloc, flaw, limit, item)?;
    }
    Ok(())
}

fn refuse_sides(alloc: Global, flaw: Flaw, limit: u32, condition: &Condition) -> Result<(), Fail>
    ensures { IsRefusedAs result (first (flat_map (flaws flaw limit) (sides condition.now))) }
{
    match condition {
        Condition::Compare { left, right, .. } => {
            refuse_meaning(alloc, flaw, limit, left)?;
            refuse_meaning(alloc, flaw, limit, right)
        }
        Condition::Between { value, low, high } => {
            refuse_meaning(alloc, flaw, limit, value)?;
            refuse_meaning(alloc, flaw, limit, low)?;
            refuse_meaning(alloc, flaw, limit, high)
        }
    }
}

fn refuse_conditions(
    alloc: Global,
    flaw: Flaw,
    limit: u32,
    conditions: &[Condition],
) -> Result<(), Fail>
    ensures { IsRefusedAs result (first (flat_map (flaws flaw limit) (flat_map sides conditions.now))) }
{
    for condition in conditions {
        refuse_sides(alloc, flaw, limit, condition)?;
    }
    Ok(())
}

/// Whether what a ref or a literal stands for has a flaw of any kind.
fn has_flaw(limit: u32, meaning: &Meaning) -> bool
    ensures { result ≡ has_flaw limit meaning.now }
{
    match meaning {
        Meaning::At(_) => false,
        Meaning::Fixed(Value::Int(_)) => false,
        Meaning::Fixed(Value::Str(text)) => text.as_str().len() > limit as usize,
        _ => true,
    }
}

/// Whether a side of a condition has a flaw of any kind.
pub fn condition_has_flaw(limit: u32, condition: &Condition) -> bool
    ensures { result ≡ condition_has_flaw limit condition.now }
{
    match condition {
        Condition::Compare { left, right, .. } => has_flaw(limit, left) || has_flaw(limit, right),
        Condition::Between { value, low, high } => {
            has_flaw(limit, value) || has_flaw(limit, low) || has_flaw(limit, high)
        }
    }
}

/// Whether any of these has a flaw.
fn any_item_has_flaw(limit: u32, items: &[Meaning]) -> bool
    ensures { result ≡ list_any (has_flaw limit) items.now }
{
    for item in items {
        if has_flaw(limit, item) {
            return true;
        }
    }
    false
}

fn any_condition_has_flaw(limit: u32, conditions: &[Condition]) -> bool
    ensures { result ≡ list_any (condition_has_flaw limit) conditions.now }
{
    for condition in conditions {
        if condition_has_flaw(limit, condition) {
            return true;
        }
    }
    false
}

fn block_has_flaw(limit: u32, block: &LookedUp) -> bool
    ensures { result ≡ block_has_flaw limit block.now }
{
    any_item_has_flaw(limit, block.items.as_slice())
        || any_condition_has_flaw(limit, block.conditions.as_slice())
}

/// Whether a ref or a literal of any of these blocks has a flaw of any kind.
pub fn any_block_has_flaw(limit: u32, blocks: &[LookedUp]) -> bool
    ensures { result ≡ list_any (block_has_flaw limit) blocks.now }
{
    for block in blocks {
        if block_has_flaw(limit, block) {
            return true;
        }
    }
    false
}

fn kind_of(meaning: &Meaning) -> Option<ColType>
    ensures { result ≡ kind_of meaning.now }
{
    match meaning {
        Meaning::At(column) => Some(column.kind),
        Meaning::Fixed(Value::Int(_)) => Some(ColType::Integer),
        Meaning::Fixed(Value::Str(_)) => Some(ColType::Words),
        _ => None,
    }
}

/// Whether two types are the same.
fn same_kind(left: ColType, right: ColType) -> bool
    ensures { result ≡ same_kind left right }
{
    match (left, right) {
        (ColType::Integer, ColType::Integer) => true,
        (ColType::Integer, ColType::Words) => false,
        (ColType::Words, ColType::Integer) => false,
        (ColType::Words, ColType::Words) => true,
    }
}

/// Whether two sides differ in type.
fn kinds_differ(left: &Meaning, right: &Meaning) -> bool
    ensures { result ≡ kinds_differ (kind_of left.now) (kind_of right.now) }
{
    match (kind_of(left), kind_of(right)) {
        (Some(left), Some(right)) => !same_kind(left, right),
        _ => false,
    }
}

/// Whether sides of a condition that are compared differ in type.
pub fn is_mixed(condition: &Condition) -> bool
    ensures { result ≡ is_mixed condition.now }
{
    match condition {
        Condition::Compare { left, right, .. } => kinds_differ(left, right),
        Condition::Between { value, low, high } => {
            kinds_differ(value, low) || kinds_differ(value, high)
        }
    }
}

/// Refuses a condition whose sides differ in type. A refusal is made only where there is one, since that takes longer than the test.
fn refuse_if_mixed(number: u32, nth: u32, condition: &Condition) -> Result<(), Fail>
    ensures { IsRefusedAs result (first (refusals_if (is_mixed condition.now) (Refusal.MixedTypes number nth))) }
{
    if is_mixed(condition) {
        return Err(Fail::Refused(Refusal::MixedTypes {
            block: number,
            condition: nth,
        }));
    }
    Ok(())
}

fn refuse_mixed(number: u32, conditions: &[Condition]) -> Result<(), Fail>
    requires { length conditions.now < 2 ^ 32 }
    ensures { IsRefusedAs result (first (mixed_types number conditions.now)) }
{
    for (place, condition) in conditions.iter().enumerate() {
        refuse_if_mixed(number, place as u32 + 1, condition)?;
    }
    Ok(())
}

fn same_kinds(left: &[ColType], right: &[ColType]) -> bool
    ensures { result ≡ same_kinds left.now right.now }
{
    let mut left_rest = left;
    let mut right_rest = right;
    while let [first, lefts @ ..] = left_rest {
        let [second, rights @ ..] = right_rest else {
            return false;
        };
        if !same_kind(*first, *second) {
            return false;
        }
        left_rest = lefts;
        right_rest = rights;
    }
    right_rest.is_empty()
}

fn too_many(what: Counted, limit: u16) -> Refusal
    ensures { result ≡ Refusal.TooMany what limit }
{
    Refusal::TooMany {
        what,
        limit: u64::from(limit),
    }
}

/// Refuses the first place of a kind in a block, if there is one. `number` is the block's, counted from 1, and `shape`
/// has the types of the outputs of the first block.
#[tactic(auto, unfolding(crate::specs::Refusing::places))]
pub fn refuse_block(
    alloc: Global,
    kind: Kind,
    limits: &Limits,
    shape: &[ColType],
    number: u32,
    block: &LookedUp,
) -> Result<(), Fail>
    requires { length block.now.conditions < 2 ^ 32 }
    ensures { IsRefusedAs result (first (places kind limits.now shape.now (number, block.now))) }
{
    match kind {
        Kind::OfMeaning(flaw) => {
            refuse_items(alloc, flaw, limits.text, block.items.as_slice())?;
            refuse_conditions(alloc, flaw, limits.text, block.conditions.as_slice())
        }
        Kind::Types => refuse_mixed(number, block.conditions.as_slice()),
        Kind::Shapes => {
            let differs = !same_kinds(shape, block.kinds.as_slice());
            refuse_if(differs, Refusal::ShapeMismatch { block: number })
        }
        Kind::Blocks => {
            let many = number > u32::from(limits.blocks);
            refuse_if(many, too_many(Counted::Blocks, limits.blocks))
        }
        Kind::Atoms => {
            let many = block.atoms.len() > usize::from(limits.atoms);
            refuse_if(many, too_many(Counted::Atoms, limits.atoms))
        }
        Kind::Outputs => {
            let many = block.items.len() > usize::from(limits.outputs);
            refuse_if(many, too_many(Counted::Outputs, limits.outputs))
        }
    }
}
