// The places of a bucket, each of which leads to the one before it.
ghost use Rattle.std.specs.Prelude.{◌≡◌, ◌<◌, ◌≤◌, ℕ, None, Some, IfSome, OnErr, OnOk, IfOk, length, slice_index_or, slice_set, vec_capacity, vec_len};
ghost use Rattle.place_chains.specs.Chains.{IsLast};
ghost use Rattle.place_chains.specs.Buckets.{AllLeadBack, AreLinked, IsChained, bucket, buckets_of, hashes_of};

use std::alloc::{AllocError, Global};

/// As many buckets are made at first, so that few places take memory only once.
const LEAST: usize = 31;

/// A place's hash, and the place before it in its bucket.
#[derive(Clone, Copy)]
pub struct Link {
    pub hash: u64,
    pub earlier: Option<usize>,
}

/// The bucket of a hash among so many. It multiplies, since a division takes several times as long.
pub fn bucket_of(hash: u64, count: usize) -> usize
    requires { 0 < count }
    ensures is { result ≡ bucket hash count }
    ensures below { result < count }
{
    (hash as u128 * count as u128 >> 64) as usize
}

/// The first place with a hash on the way back from a place, or from none.
pub fn same_from(links: &[Link], hash: u64, from: Option<usize>) -> Option<usize>
    requires back { AllLeadBack links.now }
    requires from { IfSome from (λ place. place < length links.now) }
    ensures { (count end : ℕ) → AreLinked count links.now (length links.now) → end ≤ length links.now
        → IsLast (bucket hash count) (buckets_of count links.now) end from → IsLast hash (hashes_of links.now) end result }
{
    let mut at = from;
    'places: while let Some(place) = at {
        let link = links[place];
        if link.hash == hash {
            return at;
        }
        at = link.earlier;
    }
    None
}

/// Whether there are so many places or more on the way back from a place, or from none.
pub fn is_long_from(links: &[Link], from: Option<usize>, many: usize) -> bool
    requires back { AllLeadBack links.now }
    requires from { IfSome from (λ place. place < length links.now) }
{
    let mut at = from;
    for _ in 0..many {
        match at {
            Some(place) => at = links[place].earlier,
            None => return false,
        }
    }
    true
}

/// Makes a place the last one of its bucket, and gives the one that was the last.
pub fn replace_head(heads: &mut [Option<usize>], hash: u64, place: usize) -> Option<usize>
    requires { 0 < length heads.old }
    ensures earlier { result ≡ slice_index_or heads.old (bucket hash (length heads.old)) None }
    ensures heads { heads.new ≡ slice_set heads.old (bucket hash (length heads.old)) (Some place) }
{
    let bucket = bucket_of(hash, heads.len());
    let earlier = heads[bucket];
    heads[bucket] = Some(place);
    earlier
}

/// Links all places anew, through buckets that are empty.
fn spread(heads: &mut [Option<usize>], links: &mut [Link])
    requires few { length links.old < length heads.old }
    requires empty { (b : ℕ) → b < length heads.old → slice_index_or heads.old b None ≡ None }
    ensures hashes { hashes_of links.new ≡ hashes_of links.old }
    ensures chained { IsChained heads.new links.new }
{
    for (place, link) in links.iter_mut().enumerate() {
        link.earlier = replace_head(heads, link.hash, place);
    }
}

/// More buckets than there are places, with the places in them, and room for as many places. After an error the places lie as
/// they did.
pub fn wider_heads(alloc: Global, links: &mut Vec<Link>) -> Result<Vec<Option<usize>>, AllocError>
    ensures err { OnErr result (links.new.items ≡ links.old.items) }
    ensures capacity { vec_capacity links.old ≤ vec_capacity links.new }

    ensures hashes { OnOk result (hashes_of links.new.items ≡ hashes_of links.old.items) }
    ensures chained { IfOk result (λ heads. IsChained heads.items links.new.items) }
    ensures more { IfOk result (λ heads. vec_len links.new < vec_len heads) }
    ensures room { IfOk result (λ heads. vec_len heads ≤ vec_capacity links.new) }
{
    let len = links.len();
    let count = (len * 2).max(LEAST);
    // Room first, so that nothing has changed where memory is refused.
    links.reserve(count - len)?;
    let mut heads = Vec::from_elem(alloc, None, count)?;
    spread(&mut heads, links);
    Ok(heads)
}
