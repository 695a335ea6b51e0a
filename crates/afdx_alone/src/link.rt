//! A virtual link by itself.

ghost use Rattle.std.specs.Prelude.{◌≤◌};
ghost use Rattle.afdx_units.specs.Line.{least_size, greatest_size};

use afdx_units::{Bag, GREATEST_SIZE, LEAST_SIZE, MAX_JITTER, MAX_LINK_ID, MICROSECOND};

/// What the policing of one virtual link goes by (ARINC 664 Part 7; limits: profile).
#[derive(Clone, Copy, Debug, PartialEq, Eq)]
pub struct Alone {
    /// The last 16 bits of its destination address.
    pub id: u16,
    /// Its bandwidth allocation gap.
    pub bag: Bag,
    /// The greatest jitter, in nanoseconds.
    pub jitter: u64,
    /// The greatest size of a frame, in bytes.
    pub max_size: u32,
    ghost jitter_limit: { jitter ≤ 10000000 },
    ghost size_least: { least_size ≤ max_size },
    ghost size_most: { max_size ≤ greatest_size },
}

impl Alone {
    ghost use Rattle.std.specs.Prelude.{MatchOption};
    ghost use Rattle.afdx_alone.specs.declared.link.Alone.{Alone as Link};
    ghost use Rattle.afdx_alone.specs.Link.{HasNumbers};

    /// Returns the link of these numbers (gap in ms, jitter in µs, size in bytes); `None` if one is out of its limits. O(1).
    pub fn of_numbers(id: u64, bag: u64, jitter: u64, size: u64) -> Option<Alone>
        ensures { MatchOption result ((link : Link) → HasNumbers link id bag jitter size → ⊥)
            (λ link. HasNumbers link id bag jitter size) }
    {
        let bag = Bag::from_ms(bag)?;
        let has_limits = id <= MAX_LINK_ID
            && jitter <= MAX_JITTER
            && u64::from(LEAST_SIZE) <= size
            && size <= u64::from(GREATEST_SIZE);
        if !has_limits {
            return None;
        }
        Some(Alone {
            id: id as u16,
            bag,
            jitter: jitter * MICROSECOND,
            max_size: size as u32,
        })
    }
}
