//! Switches by rows of calls: which frames they hold, those of which a copy waits, is being sent, or was not handed out; and arrivals
//! at one instant.

use crate::traffic::Frame::{Large, Small};
use crate::traffic::{Call, answered, finished, leaves, switch_of};
use afdx_core::Fate;
use afdx_filter::Verdict;
use afdx_port::Offer;
use afdx_samples::{Port, double, slow};
use std::alloc::{AllocError, Global};
use std::test::*;

/// What a table has: one of the samples, of which `double` has this port 3.
#[derive(Clone, Copy)]
enum Content {
    Slow,
    Double(Port),
}

/// Calls of a switch over a table, and what port 3 hands out once it is finished, by ends and numbers of bytes.
#[derive(Clone, Copy)]
struct Scene {
    name: &'static str,
    content: Content,
    calls: &'static [Call],
    left: &'static [(u64, usize)],
}

/// Port 3 as the samples have it.
const THREE: Port = Port {
    id: 3,
    mbit: 100,
    buffer: 100_000,
    max_delay_us: 500_000,
};

const SCENES: &[Scene] = &[
    Scene {
        name: "a frame goes to two ports, one of which has room for one frame",
        content: Content::Slow,
        calls: &[
            Call::Fate(1, Small(10, 0), Fate::Passed(10)),
            Call::Held(1),
            Call::Offers(
                1,
                Small(10, 0),
                (Some((2, Offer::Full)), Some((3, Offer::Queued))),
            ),
            Call::Held(2),
            Call::Next(3, None),
            Call::Advance(1, true),
            Call::Next(3, Some((6_720, 60))),
            Call::Held(2),
            Call::Next(2, Some((67_200, 60))),
            Call::Held(1),
            Call::Next(3, None),
            Call::Advance(6_721, true),
            Call::Next(3, Some((13_440, 60))),
            Call::Held(0),
        ],
        left: &[],
    },
    Scene {
        name: "the third frame waits for longer than the greatest delay",
        content: Content::Double(Port {
            max_delay_us: 100,
            ..THREE
        }),
        calls: &[
            Call::Fate(1, Large(10, 0), Fate::Passed(10)),
            Call::Fate(2, Small(20, 0), Fate::Passed(20)),
            Call::Fate(2, Small(20, 23_040), Fate::Passed(20)),
            Call::Held(3),
            Call::Advance(123_041, true),
            Call::Held(2),
            Call::Next(3, Some((123_040, 1514))),
            Call::Next(3, Some((129_760, 60))),
            Call::Held(0),
        ],
        left: &[],
    },
    Scene {
        name: "a frame that was filtered, one without room and one that was policed",
        content: Content::Double(Port {
            buffer: 1_600,
            ..THREE
        }),
        calls: &[
            Call::Fate(1, Small(11, 0), Fate::Filtered(Verdict::NoLink)),
            Call::Held(0),
            Call::Offers(1, Large(10, 0), (Some((3, Offer::Queued)), None)),
            Call::Held(1),
            Call::Offers(2, Large(20, 0), (Some((3, Offer::Full)), None)),
            Call::Held(1),
            Call::Fate(1, Small(10, 0), Fate::Policed(10)),
            Call::Held(1),
        ],
        left: &[(123_040, 1514)],
    },
    // Both leave, at the ends that the definitions give for this order.
    Scene {
        name: "the other merge of one instant: the large frame first",
        content: Content::Double(THREE),
        calls: &[
            Call::Fate(2, Large(20, 0), Fate::Passed(20)),
            Call::Fate(1, Small(10, 0), Fate::Passed(10)),
        ],
        left: &[(123_040, 1514), (129_760, 60)],
    },
];

fn text_of(alloc: Global, content: Content) -> Result<String, AllocError> {
    match content {
        Content::Slow => slow(alloc),
        Content::Double(third) => double(alloc, third),
    }
}

/// Returns how many of a scene's calls a switch answers as it should, up to the first that it does not, and whether exactly the rest is
/// left then.
fn plays(alloc: Global, scene: &Scene) -> Result<(usize, bool), Fail> {
    let mut switch = switch_of(alloc, &text_of(alloc, scene.content)?)?;
    let count = answered(alloc, &mut switch, scene.calls);
    let mut done = finished(switch);
    Ok((count, leaves(&mut done, 3, scene.left)))
}

#[test]
fn scenes_by_their_calls(rt: HostRuntime) -> Result<(), Fail> {
    for scene in SCENES {
        let played = plays(rt.alloc(), scene)?;
        assert_eq!(rt; played, (scene.calls.len(), true), "{}", scene.name);
    }
    Ok(())
}
