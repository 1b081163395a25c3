// The places of a valuation and of a tuple whose values are equal where the tuple fits.
ghost use Rattle.std.specs.Prelude.{◌≡◌, ◌≤◌, ◌++◌, ◌-◌, map, All, IfOk, OnOk};
ghost use Rattle.plan_ops.specs.Matching.{IsShared, shared_in};

use beas_core::NoMemory;
use std::alloc::Global;
use std::marker::Model;

/// Pairs of a place of a valuation and one of a tuple, which have the same value if the tuple fits. The valuation's stand first.
#[derive(Drop)]
pub struct Shared {
    places: Vec<usize>,
    /// How many are the valuation's.
    count: usize,
}

impl Model for Shared {
    ghost use Rattle.std.specs.Prelude.{List, ℕ, ◌≤◌, take, drop, vec_len};

    ghost Value = { List ℕ × List ℕ };

    ghost view = { λ s. (take s.count s.places.items, drop s.count s.places.items) };

    ghost invariant = { λ s. s.count ≤ vec_len s.places };
}

// Adds, of each check of a tuple against a valuation of this width, the valuation's place.
fn push_row_places(
    checks: &[(usize, usize)],
    width: usize,
    places: &mut Vec<usize>,
) -> Result<(), NoMemory>
    ensures { OnOk result (places.new.items ≡ places.old.items ++ map (λ c. c.1) (shared_in width checks.now)) }
{
    for check in checks {
        if check.1 < width {
            places.push(check.1)?;
        }
    }
    Ok(())
}

// Adds, of each check of a tuple against a valuation of this width, the tuple's place.
fn push_tuple_places(
    checks: &[(usize, usize)],
    width: usize,
    places: &mut Vec<usize>,
) -> Result<(), NoMemory>
    requires { All (λ c. width ≤ c.0) checks.now }
    ensures { OnOk result (places.new.items ≡ places.old.items ++ map (λ c. c.0 - width) (shared_in width checks.now)) }
{
    for check in checks {
        if check.1 < width {
            places.push(check.0 - width)?;
        }
    }
    Ok(())
}

impl Shared {
    /// The places of a valuation of a width, and those of a tuple, that checks compare.
    pub(crate) fn of_checks(
        alloc: Global,
        checks: &[(usize, usize)],
        width: usize,
    ) -> Result<Shared, NoMemory>
        requires { All (λ c. width ≤ c.0) checks.now }
        ensures { IfOk result (IsShared width checks.now) }
    {
        let room = checks.len().saturating_mul(2);
        let mut places = Vec::with_capacity(alloc, room)?;
        push_row_places(checks, width, &mut places)?;
        let count = places.len();
        push_tuple_places(checks, width, &mut places)?;
        Ok(Shared { places, count })
    }

    pub fn row(&self) -> &[usize]
        ensures { result.now ≡ self.now.0 }
    {
        &self.places[..self.count]
    }

    pub fn tuple(&self) -> &[usize]
        ensures { result.now ≡ self.now.1 }
    {
        &self.places[self.count..]
    }
}
