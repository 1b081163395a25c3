// Ids of constraints, and lists with room.
ghost use Rattle.std.specs.Prelude.{◌≡◌, ◌≢◌, ◌<◌, ◌==◌, [], ◌∷◌, ◌++◌, not, map, filter, length, slice_index_or, slice_set, vec_len, vec_capacity, IsTrue, OnOk, AllPairs};
ghost use Rattle.std.specs.List.{list_any};
ghost use Rattle.beas_core.specs.declared.schema.Access.{Access};
ghost use Rattle.catalogue.specs.Schema.{access_with_id};
ghost use Rattle.catalogue.specs.Kept.{Ids};

use beas_core::{Access, AccessId, NoMemory};

/// Where the constraint with this id stands. Ids count up from 0, so until the first constraint is dropped each stands at its
/// id, and a look there is enough.
pub fn position_of_id(accesses: &[Access], id: AccessId) -> usize
    requires rise { AllPairs (λ a b. a.id.0 < b.id.0) accesses.now }
    requires live { IsTrue (list_any (λ a. a.id.0 == id.0) accesses.now) }
    ensures within { result < length accesses.now }
    ensures found { (d : Access) → slice_index_or accesses.now result d ≡ access_with_id accesses.now id }
    ensures has_id { (access_with_id accesses.now id).id.0 ≡ id.0 }
{
    let guess = id.0 as usize;
    if guess < accesses.len() && accesses[guess].id.0 == id.0 {
        return guess;
    }
    accesses.partition_point(|access| access.id.0 < id.0)
}

/// Adds an item at the end, in the room that is there.
pub fn push_in_room<T: Drop>(items: &mut Vec<T>, item: T)
    requires { vec_len items.old < vec_capacity items.old }
    ensures { items.new.items ≡ items.old.items ++ item ∷ [] }
{
    match items.push(item) {
        Ok(()) => {}
        Err(_) => unreachable!(),
    }
}

/// Makes room for one id more in one of the lists.
pub fn reserve_in(lists: &mut Vec<Vec<AccessId>>, at: usize) -> Result<(), NoMemory>
    requires { at < vec_len lists.old }
    ensures same { map (λ ids. ids.items) lists.new.items ≡ map (λ ids. ids.items) lists.old.items }
    ensures len { vec_len lists.new ≡ vec_len lists.old }
    ensures room { OnOk result ((d : Ids) → vec_len (slice_index_or lists.new.items at d) < vec_capacity
        (slice_index_or lists.new.items at d)) }
{
    let ids = &mut lists[at];
    ids.reserve(1)?;
    Ok(())
}

/// Adds an id at the end of one of the lists, in the room that is there.
pub fn push_in(lists: &mut Vec<Vec<AccessId>>, at: usize, id: AccessId)
    requires within { at < vec_len lists.old }
    requires room { (d : Ids) → vec_len (slice_index_or lists.old.items at d) < vec_capacity
        (slice_index_or lists.old.items at d) }
    ensures { map (λ ids. ids.items) lists.new.items
        ≡ slice_set (map (λ ids. ids.items) lists.old.items) at
        (slice_index_or (map (λ ids. ids.items) lists.old.items) at [] ++ id ∷ []) }
{
    push_in_room(&mut lists[at], id);
}

/// Takes an id out of one of the lists.
pub fn remove_in(lists: &mut Vec<Vec<AccessId>>, at: usize, id: AccessId)
    requires { at < vec_len lists.old }
    ensures { map (λ ids. ids.items) lists.new.items
        ≡ slice_set (map (λ ids. ids.items) lists.old.items) at
        (filter (λ i. not (i.0 == id.0)) (slice_index_or (map (λ ids. ids.items) lists.old.items) at [])) }
{
    let ids = &mut lists[at];
    ids.retain(|other| other.0 != id.0);
}
