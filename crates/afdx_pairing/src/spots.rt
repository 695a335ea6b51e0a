//! Where the records of a queue stand, by their bytes.

ghost use Rattle.std.specs.Prelude.{◌≡◌, ◌++◌, ◌∷◌, [], ℕ, List, drop, nat_le, OnOk, OnErr, if◌then◌else◌};
ghost use Rattle.std.specs.Bool.{OnTrue};
ghost use Rattle.std.specs.List.{find};
ghost use Rattle.std.specs.Str.{bytes_eq};
ghost use Rattle.afdx_pairing.specs.Inner.Queue.{spots_at, AreInOrder};

use afdx_units::Stamp;
use std::alloc::{AllocError, Allocator};
use std::collections::{BTreeMap, VecDeque};

/// Where a record stands, counted from the first one that ever was in the queue, and its instant.
#[derive(Clone, Copy, Debug, PartialEq, Eq)]
pub(crate) struct Spot {
    pub(crate) stamp: Stamp,
    pub(crate) place: u64,
}

/// The spots of the records that have the same bytes, by these.
pub(crate) type Spots<A> = BTreeMap<Vec<u8, A>, VecDeque<Spot, A>, A>;

/// Adds the spot of a record of these bytes after those of others. O(bytes * log of the map).
pub(crate) fn add<A: Allocator + Copy>(
    alloc: A,
    spots: &mut Spots<A>,
    bytes: &[u8],
    spot: Spot,
) -> Result<(), AllocError>
    ensures ok { OnOk result ((b : List ℕ) → spots_at spots.new b ≡ spots_at spots.old b ++ (if bytes_eq bytes.now b then spot ∷ [] else [])) }
    ensures err { OnErr result ((b : List ℕ) → spots_at spots.new b ≡ spots_at spots.old b) }
{
    if let Some(same) = spots.get_mut(bytes) {
        same.push_back(spot)?;
        return Ok(());
    }
    let key = Vec::from_slice(alloc, bytes)?;
    let mut same = VecDeque::new(alloc);
    same.push_back(spot)?;
    spots.insert(key, same)?;
    Ok(())
}

/// Takes the first spot of these bytes away. Returns whether it was the last one.
fn take_first<A: Allocator + Copy>(spots: &mut Spots<A>, bytes: &[u8]) -> bool
    ensures none { OnTrue result (spots_at spots.new bytes.now ≡ []) }
    ensures rest { (b : List ℕ) → spots_at spots.new b ≡ (if bytes_eq bytes.now b then drop 1 (spots_at spots.old b) else spots_at spots.old b) }
{
    match spots.get_mut(bytes) {
        Some(same) => {
            same.pop_front();
            same.is_empty()
        }
        None => false,
    }
}

/// Takes the first spot of these bytes away. O(bytes * log of the map).
pub(crate) fn forget<A: Allocator + Copy>(spots: &mut Spots<A>, bytes: &[u8])
    ensures { (b : List ℕ) → spots_at spots.new b ≡ (if bytes_eq bytes.now b then drop 1 (spots_at spots.old b) else spots_at spots.old b) }
{
    let is_empty = take_first(spots, bytes);
    if is_empty {
        spots.remove(bytes);
    }
}

/// Returns the first spot of these bytes whose instant, in nanoseconds, is no sooner than this. O(bytes * log of the map).
pub(crate) fn first_from<A: Allocator + Copy>(
    spots: &Spots<A>,
    bytes: &[u8],
    from: u128,
) -> Option<Spot>
    requires { AreInOrder (spots_at spots.now bytes.now) }
    ensures { result ≡ find (λ s. nat_le from s.stamp) (spots_at spots.now bytes.now) }
{
    let same = spots.get(bytes)?;
    let index = same.partition_point(|spot| u128::from(spot.stamp.ns()) < from);
    match same.get(index) {
        Some(spot) => Some(*spot),
        None => None,
    }
}
