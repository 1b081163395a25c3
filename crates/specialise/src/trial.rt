// Sets of candidates, tried one after another.
ghost use Rattle.std.specs.Prelude.{◌≡◌, ◌≤◌, ◌<◌, ◌^◌, IfOk, length, map, option_map};
ghost use Rattle.beas_core.specs.Classes.{normal_of};
ghost use Rattle.beas_core.specs.Coverage.{uses};
ghost use Rattle.beas_core.specs.Shapes.{BlockIsWellFormed};
ghost use Rattle.attribute_closure.specs.Uses.{as_use};
ghost use Rattle.specialise.specs.Specialised.{candidates as candidate_classes, first_place, first_set, is_covered_with};
ghost use Rattle.specialise.specs.Trials.{IsClosedTable, candidate_of, classes_in, first_from, rules_of, servers_of};

use crate::candidates::Candidate;
use crate::rules::table_of;
use crate::servers::{Server, all_serve, servers_of};
use attribute_closure::UseAt;
use beas_core::{Access, Block, List, NoMemory, Normal, Place};
use std::alloc::Global;

/// What a block asks of a set of candidates.
#[derive(Drop)]
pub struct Trial<'a> {
    pub accesses: &'a List<Access>,
    pub block: &'a Block,
    pub candidates: List<Candidate>,
    pub table: Vec<u32>,
    pub servers: List<List<Server>>,
    ghost candidates_are: { candidates ≡ map (candidate_of block.now) (candidate_classes accesses.now block.now) },
    ghost few: { length candidates ≤ 16 },
    ghost sets: { length table.items ≡ 2 ^ length candidates },
    ghost table_is: { IsClosedTable (rules_of accesses.now block.now) table.items },
    ghost servers_are: { servers ≡ servers_of accesses.now block.now },
}

impl Trial<'_> {
    // Whether constants for the candidates in a set make the block covered.
    fn covers(&self, held: u32) -> bool
        requires shape { BlockIsWellFormed self.now.block.now }
        requires held { held < 2 ^ length self.now.candidates }
        ensures { result ≡ is_covered_with self.now.accesses.now self.now.block.now
            (classes_in self.now.accesses.now self.now.block.now held) }
    {
        let set = self.table[held as usize];
        all_serve(held, set, self.servers.as_slice())
    }

    // Looks for the first set that makes the block covered, of `size` candidates from a position on and those that are held.
    // Where fewer are left there is none.
    fn try_sets(&self, size: usize, position: usize, held: u32) -> Option<u32>
        requires shape { BlockIsWellFormed self.now.block.now }
        requires position { position ≤ length self.now.candidates }
        requires held { held < 2 ^ position }
        ensures { option_map (classes_in self.now.accesses.now self.now.block.now) result
            ≡ first_from self.now.accesses.now self.now.block.now size position held }
    {
        if size == 0 {
            return self.covers(held).then_some(held);
        }
        if self.candidates.len() - position < size {
            return None;
        }
        if let Some(set) = self.try_sets(size - 1, position + 1, held | (1 << position)) {
            return Some(set);
        }
        self.try_sets(size, position + 1, held)
    }

    // Looks for the first set of candidates that makes the block covered.
    fn find_set(&self) -> Option<u32>
        requires { BlockIsWellFormed self.now.block.now }
        ensures { option_map (classes_in self.now.accesses.now self.now.block.now) result
            ≡ first_set self.now.accesses.now self.now.block.now }
    {
        let count = self.candidates.len();
        for size in 0..count + 1 {
            if let Some(set) = self.try_sets(size, 0, 0) {
                return Some(set);
            }
        }
        None
    }

    // The first places of the candidates in a set.
    fn places_in(&self, alloc: Global, set: u32) -> Result<List<Place>, NoMemory>
        ensures { IfOk result (λ places. places ≡ map (first_place self.now.block.now)
            (classes_in self.now.accesses.now self.now.block.now set)) }
    {
        let mut places = List::new(alloc);
        for (position, candidate) in self.candidates.as_slice().iter().enumerate() {
            if (set >> position) & 1 == 1 {
                places.push(candidate.place)?;
            }
        }
        Ok(places)
    }

    /// The first places of the first set of candidates that makes the block covered.
    pub(crate) fn search(&self, alloc: Global) -> Result<Option<List<Place>>, NoMemory>
        requires { BlockIsWellFormed self.now.block.now }
        ensures { IfOk result (λ found. found
            ≡ option_map (map (first_place self.now.block.now)) (first_set self.now.accesses.now self.now.block.now)) }
    {
        match self.find_set() {
            None => Ok(None),
            Some(set) => Ok(Some(self.places_in(alloc, set)?)),
        }
    }
}

/// What a block asks of a set of candidates, where `found` are the uses of the constraints.
#[tactic(auto, using(coverage_check::proofs::NormalFacts::few_atoms))]
pub(crate) fn trial_of<'a>(
    alloc: Global,
    accesses: &'a List<Access>,
    block: &'a Block,
    normal: &Normal,
    found: &[UseAt<'_>],
    candidates: List<Candidate>,
) -> Result<Trial<'a>, NoMemory>
    requires shape { BlockIsWellFormed block.now }
    requires normal { normal.now ≡ normal_of block.now }
    requires found { map as_use found.now ≡ uses normal.now accesses.now }
    requires candidates { candidates ≡ map (candidate_of block.now) (candidate_classes accesses.now block.now) }
    requires few { length candidates ≤ 16 }
    ensures accesses { IfOk result (λ trial. trial.accesses.now ≡ accesses.now) }
    ensures block { IfOk result (λ trial. trial.block.now ≡ block.now) }
{
    let table = table_of(alloc, normal, candidates.as_slice(), found)?;
    let servers = servers_of(alloc, normal, candidates.as_slice(), found)?;
    Ok(Trial {
        accesses,
        block,
        candidates,
        table,
        servers,
    })
}
