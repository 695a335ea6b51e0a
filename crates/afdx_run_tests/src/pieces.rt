//! Captures that come in pieces, in any order of ports, beside a run over the whole captures.

use crate::feeding::{
    Intake, Reported, agree, are_closed, feed_at, feed_waited, intakes, open, rest, take_at, whole,
};
use crate::settings::Content::Rows;
use crate::settings::{DOUBLE, LINK, MIXED, NARROW, ONE, SINGLE, SLOW, Setting, THREE, TWO};
use crate::texts::Frame::{Large, Small};
use crate::texts::Text::{Frames, Parts};
use crate::texts::{EMPTY, Text, captures};
use afdx_samples::{FRAME, Link, Port, Sample, capture, frame};
use afdx_session::Session;
use rand::RngExt;
use rand::rngs::SmallRng;
use rand_core::SeedableRng;
use std::alloc::{AllocError, Global};
use std::test::*;

/// How the pieces of captures come.
#[derive(Clone, Copy)]
enum Pieces {
    /// Of at most this size, of captures at random, with takes at random: the seed determines all three.
    Random(usize, u64),
    /// Of this size, each of the capture that holds back the output, while all that goes out goes to files.
    Waited(usize),
}

/// Feeds a session the pieces, and returns whether none was refused and it says rightly what it waits for.
fn come(session: &mut Session<Global>, intakes: &mut [Intake<'_>], pieces: Pieces) -> bool {
    match pieces {
        Pieces::Random(most, seed) => come_at_random(session, intakes, most, seed),
        Pieces::Waited(size) => feed_waited(session, intakes, size) == Ok(true),
    }
}

/// Returns whether these captures in such pieces lead to the same as the whole run.
fn lead(
    alloc: Global,
    setting: Setting,
    captures: &[(u8, Vec<u8>)],
    pieces: Pieces,
    whole: &Reported,
) -> Result<bool, Fail> {
    let mut intakes = intakes(alloc, captures)?;
    let mut session = open(alloc, setting)?;
    let fed = come(&mut session, &mut intakes, pieces);
    Ok(match rest(alloc, session) {
        Some(rest) => fed && agree(&intakes, &rest, whole),
        None => false,
    })
}

/// Returns whether these captures lead to the same as the whole run, in pieces of each of these kinds.
fn all_lead(
    alloc: Global,
    setting: Setting,
    captures: &[(u8, Vec<u8>)],
    kinds: &[Pieces],
) -> Result<bool, Fail> {
    let whole = whole(alloc, setting, captures)?;
    let mut right = true;
    for pieces in kinds {
        right = right && lead(alloc, setting, captures, *pieces, &whole)?;
    }
    Ok(right)
}

/// Captures of the ports from 1 on.
#[derive(Clone, Copy)]
struct Row {
    name: &'static str,
    setting: Setting,
    came: &'static [Text],
}

/// Pieces of up to 7 and 64 bytes at random, and of 1, 7 and 64 bytes of the port that is waited for.
const KINDS: &[Pieces] = &[
    Pieces::Random(7, 1),
    Pieces::Random(64, 2),
    Pieces::Waited(1),
    Pieces::Waited(7),
    Pieces::Waited(64),
];

/// Headers of little-endian microseconds and of big-endian nanoseconds.
const LITTLE_MICROS: [u8; 24] = [
    0xd4, 0xc3, 0xb2, 0xa1, 2, 0, 4, 0, 0, 0, 0, 0, 0, 0, 0, 0, 0, 0, 4, 0, 1, 0, 0, 0,
];

const BIG_NANOS: [u8; 24] = [
    0xa1, 0xb2, 0x3c, 0x4d, 0, 2, 0, 4, 0, 0, 0, 0, 0, 0, 0, 0, 0, 0, 0xff, 0xff, 0, 0, 0, 1,
];

/// A record at 1 s and 5 us, in each of them.
const AT_LITTLE_MICROS: [u8; 16] = [1, 0, 0, 0, 5, 0, 0, 0, 60, 0, 0, 0, 60, 0, 0, 0];

const AT_BIG_NANOS: [u8; 16] = [0, 0, 0, 1, 0, 0, 0x13, 0x88, 0, 0, 0, 60, 0, 0, 0, 60];

const ROWS: &[Row] = &[
    Row {
        name: "one frame",
        setting: SINGLE,
        came: &[Frames(&[Small(10, 0)]), EMPTY],
    },
    Row {
        name: "a high frame overtakes",
        setting: MIXED,
        came: &[Frames(&[Large(10, 0), Small(11, 1), Small(12, 1)]), EMPTY],
    },
    Row {
        name: "one port is full",
        setting: SLOW,
        came: &[Frames(&[Small(10, 0), Small(10, 0)]), EMPTY, EMPTY],
    },
    Row {
        name: "every verdict",
        setting: NARROW,
        came: &[Text::OneOfEach, Frames(&[Small(10, 0)]), EMPTY],
    },
    Row {
        name: "two formats",
        setting: DOUBLE,
        came: &[
            Parts(&[&LITTLE_MICROS, &AT_LITTLE_MICROS, &FRAME]),
            Parts(&[&BIG_NANOS, &AT_BIG_NANOS, &FRAME]),
            EMPTY,
        ],
    },
];

/// Returns whether the captures of a row lead to the same as the whole run.
fn row_leads(alloc: Global, row: &Row) -> Result<bool, Fail> {
    let captures = captures(alloc, row.came)?;
    all_lead(alloc, row.setting, &captures, KINDS)
}

#[test]
fn any_pieces(rt: HostRuntime) -> Result<(), Fail> {
    for row in ROWS {
        assert!(rt; row_leads(rt.alloc(), row)?, "{}", row.name);
    }
    Ok(())
}

// ---- random pieces

/// A high link for small frames.
const QUICK: Link = Link {
    max_size: 300,
    jitter_us: 100,
    priority: "high",
    ..LINK
};

/// The ports of the example network, and links as it has them: of both priorities, from each port to several.
const NETWORK: Setting = Setting {
    content: Rows(
        &[
            ONE,
            TWO,
            THREE,
            Port {
                id: 4,
                mbit: 10,
                buffer: 8192,
                max_delay_us: 10_000,
            },
        ],
        &[
            Link {
                id: 100,
                to: "[2, 3]",
                ..QUICK
            },
            Link {
                id: 104,
                to: "[4]",
                ..LINK
            },
            Link {
                id: 200,
                from: 2,
                to: "[1, 3]",
                ..QUICK
            },
            Link {
                id: 202,
                from: 2,
                to: "[1, 3]",
                ..LINK
            },
            Link {
                id: 30,
                from: 3,
                to: "[1, 4]",
                ..QUICK
            },
            Link {
                id: 31,
                from: 3,
                to: "[1, 2]",
                ..LINK
            },
            Link {
                id: 40,
                from: 4,
                to: "[1, 2, 3]",
                ..LINK
            },
        ],
    ),
    checked: false,
    ..SINGLE
};

/// The links of the network.
const LINKS: [u8; 7] = [100, 104, 200, 202, 30, 31, 40];

/// Returns a random frame of one of the links, some time after the instant.
fn any_frame(random: &mut SmallRng, nanos: u32) -> Sample {
    let place = random.random_range(0usize..7);
    let link = LINKS.get(place).copied().unwrap_or(100);
    let size = random.random_range(50u32..310);
    let gap = random.random_range(0u32..400_000);
    frame(link, size, nanos.saturating_add(gap))
}

/// Returns a capture of so many frames of these links, also of links from other ports.
fn traffic(alloc: Global, random: &mut SmallRng, count: usize) -> Result<Vec<u8>, AllocError> {
    let mut frames: Vec<Sample> = Vec::new(alloc);
    let mut nanos = 0u32;
    for _ in 0..count {
        let next = any_frame(random, nanos);
        nanos = next.nanos;
        frames.push(next)?;
    }
    capture(alloc, &frames)
}

/// Returns random captures of the four ports; nothing comes in at port 3.
fn random_captures(alloc: Global, random: &mut SmallRng) -> Result<Vec<(u8, Vec<u8>)>, AllocError> {
    let mut captures = Vec::new(alloc);
    for (port, count) in [(1u8, 40usize), (2, 25), (3, 0), (4, 60)] {
        captures.push((port, traffic(alloc, random, count)?))?;
    }
    Ok(captures)
}

/// Feeds a piece of one capture, and takes what has gone out of one port. Returns whether neither was refused.
fn step_at_random(
    session: &mut Session<Global>,
    intakes: &mut [Intake<'_>],
    most: usize,
    random: &mut SmallRng,
) -> bool {
    let size = random.random_range(0usize..=most);
    let fed = feed_at(session, intakes, random.random_range(0usize..4), size).is_ok();
    take_at(session, intakes, random.random_range(0usize..4)).is_ok() && fed
}

/// Goes on so until all captures have ended, but no more than 100,000 times. Returns whether they have, and none was refused.
fn come_at_random(
    session: &mut Session<Global>,
    intakes: &mut [Intake<'_>],
    most: usize,
    seed: u64,
) -> bool {
    let mut random = SmallRng::seed_from_u64(seed);
    let mut right = true;
    for _ in 0..100_000 {
        if are_closed(intakes) {
            break;
        }
        right = step_at_random(session, intakes, most, &mut random) && right;
    }
    right && are_closed(intakes)
}

/// Returns whether random pieces of random ports lead to the same as the whole captures. The seed makes the captures too.
fn random_captures_lead(alloc: Global, seed: u64) -> Result<bool, Fail> {
    let mut random = SmallRng::seed_from_u64(seed);
    let captures = random_captures(alloc, &mut random)?;
    all_lead(
        alloc,
        NETWORK,
        &captures,
        &[Pieces::Random(120, seed), Pieces::Waited(100)],
    )
}

#[test]
fn random_pieces(rt: HostRuntime) -> Result<(), Fail> {
    for seed in 1..=8u64 {
        assert!(rt; random_captures_lead(rt.alloc(), seed)?, "{seed}");
    }
    Ok(())
}
