//! Frames that are held while a copy of them is not handed out or discarded, and numbers that are used again.

ghost use Rattle.std.specs.Prelude.{◌<◌};

use crate::traffic::{arrive, next, switch_of};
use afdx_core::Fate;
use afdx_held_frames::Store;
use afdx_samples::{frame, record, single, small};
use std::test::*;

/// Checks that a frame is held until the last of its copies is discarded.
#[test]
fn copies_of_one_frame(rt: HostRuntime) -> Result<(), Fail> {
    // example of afdx_held_frames
    let frame = record(rt.alloc(), small(10, 0)).ok_or("a record")?;
    let mut store = Store::new(rt.alloc());
    store.make_room()?;
    store.add(2, frame);
    store.discard(0);
    let one = store.held();
    store.discard(0);
    let none = store.held();
    assert_eq!(rt; (one, none), (1, 0));
    // end of example
    Ok(())
}

/// Returns the number of captured bytes of the frame with this number, by which it is told from the others in flight.
fn length(number: u32) -> u32
    requires { number < 1000 }
    ensures { result < 67 }
{
    60 + number % 7
}

/// Checks that, if a frame comes each 0.1 ms and is handed out when two more have come, no more than three are held; so each slot is used
/// hundreds of times.
#[test]
fn keys_used_again(rt: HostRuntime) -> Result<(), Fail> {
    let alloc = rt.alloc();
    let mut switch = switch_of(alloc, &single(alloc)?)?;
    let _first = arrive(alloc, &mut switch, 1, frame(10, length(0), 0));
    let _second = arrive(alloc, &mut switch, 1, frame(10, length(1), 100_000));
    for number in 2..1000 {
        let came = arrive(
            alloc,
            &mut switch,
            1,
            frame(10, length(number), number * 100_000),
        );
        let held = switch.held();
        let out = next(&mut switch, 2);
        let first = number - 2;
        let end = first * 100_000 + (length(first) + 24) * 80;
        assert_eq!(rt;
            (came.0, held, out, switch.held()),
            (
                Some(Fate::Passed(10)),
                3,
                Ok(Some((end as u64, length(first) as usize))),
                2
            )
        );
    }
    Ok(())
}
