//! Calls of crates that have no other test by their calls, each made once; the front page of its crate quotes it.

use crate::watching::record;
use afdx_account::ByteAccount;
use afdx_levels::{Levels, Outlook};
use afdx_merging::{Clock, Merging};
use afdx_pairing::{Event, Limits, Numbered, Pair, Pairing};
use afdx_samples::{capture, small};
use afdx_units::{Bag, Speed, Stamp};
use std::test::Fail;

/// Checks that nothing is known of the level at first, and that the account is full a gap later.
#[test]
fn a_level_becomes_known(rt: HostRuntime) -> Result<(), Fail> {
    let later = Stamp::from_ns(1_000_000).ok_or("an instant")?;
    // example of afdx_levels
    let account = ByteAccount::new(1518, Bag::Ms1, 0);
    let levels = Levels::unknown(&account, 0, Stamp::ZERO);
    let first = levels.outlook(&account, 0, Stamp::ZERO, 1518);
    let second = levels.outlook(&account, 0, later, 1518);
    assert_eq!(rt; (first, second), (Outlook::Unsure, Outlook::Must));
    // end of example
    Ok(())
}

/// Checks that a record which leaves one line time after a frame came is of that frame.
#[test]
fn a_record_is_of_a_frame(rt: HostRuntime) -> Result<(), Fail> {
    let frame = record(rt.alloc(), (0, b'A'))?;
    let record = record(rt.alloc(), (6_720, b'A'))?;
    let limits = Limits {
        least: 0,
        bound: 22_720,
        tolerance: 0,
        gap: 0,
        speed: Speed::Hundred,
        before: 0,
    };
    // example of afdx_pairing
    let came = Numbered::new(rt.alloc(), 1, frame.stamp(), frame)?;
    let left = Numbered::new(rt.alloc(), 1, record.stamp(), record)?;
    let kept = Event::Kept(Pair {
        came: came.mark(),
        left: left.mark(),
        delay: 6_720,
    });
    let mut pairing = Pairing::new(rt.alloc(), limits);
    let mut events = Vec::new(rt.alloc());
    pairing.came(came, true)?;
    pairing.left(left, &mut events)?;
    assert!(rt; events.as_slice() == [kept].as_slice());
    // end of example
    Ok(())
}

/// The clock of captures whose stamps are taken as they are.
const CLOCK: Clock = Clock {
    later: 0,
    sooner: 0,
    delay: 0,
};

/// Checks that, of two captures, the second has the first record.
#[test]
fn the_first_of_two_captures(rt: HostRuntime) -> Result<(), Fail> {
    let later = capture(rt.alloc(), &[small(10, 2)])?;
    let sooner = capture(rt.alloc(), &[small(20, 1)])?;
    // example of afdx_merging
    let mut readers = [later.as_slice(), sooner.as_slice()];
    let mut merging = Merging::open(rt.alloc(), &[CLOCK, CLOCK], &mut readers)
        .ok()
        .ok_or("two captures")?;
    let first = merging.next(&mut readers).ok().ok_or("a record")?;
    assert_eq!(rt; first.map(|arrival| arrival.place), Some(1));
    // end of example
    Ok(())
}
