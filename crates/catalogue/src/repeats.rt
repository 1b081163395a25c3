// Names that stand twice in one list.
ghost use Rattle.std.specs.Prelude.{◌≡◌, map, List, ℕ, IfOk, option_copied};
ghost use Rattle.beas_core.specs.Results.{IsRefusedAs};
ghost use Rattle.catalogue.specs.Refusing.{first_repeated, repeated_name};

use beas_core::{Column, Duplicate, Fail, Name, NoMemory, Refusal};
use indexmap::IndexMap;
use seeded_hash::SeededHashing;
use std::alloc::Global;

/// What has a name.
pub trait Named {
    /// Its name.
    ghost name_of: { Self → List ℕ };

    /// The name, lent.
    fn name(&self) -> &Name
        ensures { result.now ≡ name_of self.now };
}

impl Named for Name {
    ghost name_of = { λ n. n };

    fn name(&self) -> &Name {
        self
    }
}

impl Named for Column {
    ghost name_of = { λ c. c.name };

    fn name(&self) -> &Name {
        &self.name
    }
}

/// The first name that stands among those before it, if there is one.
fn first_repeated<T: Named>(
    alloc: Global,
    hashing: SeededHashing,
    items: &[T],
) -> Result<Option<&Name>, NoMemory>
    ensures { IfOk result (λ name. option_copied name ≡ first_repeated (map T.name_of items.now)) }
{
    let mut seen: IndexMap<&str, (), SeededHashing> = IndexMap::with_hasher(alloc, hashing);
    for item in items {
        let name = item.name();
        if seen.insert(name.as_str(), ())?.is_some() {
            return Ok(Some(name));
        }
    }
    Ok(None)
}

/// Refuses the first name that stands twice.
pub fn refuse_repeated<T: Named>(
    alloc: Global,
    hashing: SeededHashing,
    items: &[T],
) -> Result<(), Fail>
    ensures { IsRefusedAs result (repeated_name (map T.name_of items.now)) }
{
    match first_repeated(alloc, hashing, items)? {
        None => Ok(()),
        Some(name) => Err(Fail::Refused(Refusal::DuplicateName {
            name: name.copy(alloc)?,
        })),
    }
}
