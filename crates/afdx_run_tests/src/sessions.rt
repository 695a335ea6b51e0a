//! Sessions by their calls: what goes out after each, and what is refused.

use crate::feeding::{close, feed, finish, open, take};
use crate::settings::Content::Rows;
use crate::settings::{DOUBLE, SINGLE, Setting};
use crate::texts::Frame::Small;
use crate::texts::Text::{Frames, Parts, Records};
use crate::texts::{EMPTY, NOTHING, Text, are_same, bytes, captures};
use afdx_pcap::PcapFault;
use afdx_session::{Outcome, RunFault, Session};
use std::alloc::{AllocError, Global};
use std::test::*;

/// A call, and what it is to answer.
#[derive(Clone, Copy)]
enum Call {
    Feed(u8, Text, Result<(), RunFault>),
    /// So many times the same call of `feed`.
    FeedTimes(usize, u8, Text, Result<(), RunFault>),
    Close(u8, Result<(), RunFault>),
    Take(u8, Text),
}

/// How a session is to end: what is left of each port from 1 on, or the fault and what a call answers then.
#[derive(Clone, Copy)]
enum End {
    Left(&'static [Text]),
    Refused(RunFault, Call),
}

/// Calls of a session over a table, and its end.
#[derive(Clone, Copy)]
struct Row {
    name: &'static str,
    setting: Setting,
    calls: &'static [Call],
    end: End,
}

/// Returns whether a session answers so to a piece of a port's capture, each of so many times.
fn feeds(
    session: &mut Session<Global>,
    times: usize,
    port: u8,
    piece: &[u8],
    wanted: Result<(), RunFault>,
) -> bool {
    let mut right = true;
    for _ in 0..times {
        right = feed(session, port, piece) == wanted && right;
    }
    right
}

/// Takes what has gone out of a port, and returns whether it is this text.
fn takes(
    alloc: Global,
    session: &mut Session<Global>,
    port: u8,
    wanted: Text,
) -> Result<bool, AllocError> {
    let wanted = bytes(alloc, wanted)?;
    Ok(take(session, port).as_slice() == wanted.as_slice())
}

/// Returns whether a session answers a call as it should.
fn answers(alloc: Global, session: &mut Session<Global>, call: Call) -> Result<bool, AllocError> {
    Ok(match call {
        Call::Feed(port, text, wanted) => feeds(session, 1, port, &bytes(alloc, text)?, wanted),
        Call::FeedTimes(times, port, text, wanted) => {
            feeds(session, times, port, &bytes(alloc, text)?, wanted)
        }
        Call::Close(port, wanted) => close(session, port) == wanted,
        Call::Take(port, text) => takes(alloc, session, port, text)?,
    })
}

/// Counts the calls that a session answers as it should, up to the first that it does not, or for which memory runs out.
fn answered(alloc: Global, session: &mut Session<Global>, calls: &[Call]) -> usize {
    calls
        .iter()
        .take_while(|call| answers(alloc, session, **call) == Ok(true))
        .count()
}

/// Returns whether exactly these texts are left of the ports from 1 on.
fn are_left(alloc: Global, outcome: &Outcome<Global>, texts: &[Text]) -> Result<bool, AllocError> {
    let wanted = captures(alloc, texts)?;
    Ok(are_same(&outcome.captures, &wanted))
}

/// Returns whether a session that has failed was to fail so, and answers the call of its end as it should.
fn has_failed(
    alloc: Global,
    found: RunFault,
    session: &mut Session<Global>,
    end: End,
) -> Result<bool, AllocError> {
    match end {
        End::Refused(fault, call) => Ok(found == fault && answers(alloc, session, call)?),
        End::Left(_) => Ok(false),
    }
}

/// Returns whether a session ends so.
fn ends(alloc: Global, session: Session<Global>, end: End) -> Result<bool, AllocError> {
    match finish(session) {
        Ok(outcome) => match end {
            End::Left(texts) => are_left(alloc, &outcome, texts),
            End::Refused(_, _) => Ok(false),
        },
        Err((found, mut session)) => has_failed(alloc, found, &mut session, end),
    }
}

/// Returns how many of a row's calls a session answers as it should, and whether it then ends as it should.
fn plays(alloc: Global, row: &Row) -> Result<(usize, bool), Fail> {
    let mut session = open(alloc, row.setting)?;
    let count = answered(alloc, &mut session, row.calls);
    let is_right = ends(alloc, session, row.end);
    Ok((count, is_right?))
}

const FAILED: Result<(), RunFault> = Err(RunFault::Failed);

/// The first bytes of a header.
const BEGINNING: Text = Parts(&[&[0x4d, 0x3c, 0xb2, 0xa1, 2]]);

const ROWS: &[Row] = &[
    Row {
        name: "session on D: three frames at two ports",
        setting: DOUBLE,
        calls: &[
            Call::Take(3, NOTHING),
            Call::Feed(1, Frames(&[Small(10, 0), Small(10, 1_000_000)]), Ok(())),
            Call::Take(3, EMPTY),
            Call::Feed(3, EMPTY, Ok(())),
            Call::Close(3, Ok(())),
            Call::Feed(2, Frames(&[Small(20, 500_000)]), Ok(())),
            Call::Take(3, Records(&[Small(10, 6_720)])),
            Call::Close(1, Ok(())),
            Call::Take(3, NOTHING),
            Call::Close(2, Ok(())),
            Call::Take(3, Records(&[Small(20, 506_720), Small(10, 1_006_720)])),
            Call::Take(4, NOTHING),
            Call::Feed(2, Frames(&[Small(20, 500_000)]), Err(RunFault::Closed)),
            Call::Close(1, Err(RunFault::Closed)),
            Call::Feed(9, Frames(&[Small(20, 500_000)]), Err(RunFault::WrongPorts)),
        ],
        end: End::Left(&[EMPTY, EMPTY, NOTHING]),
    },
    Row {
        name: "a failed session stays failed",
        setting: DOUBLE,
        calls: &[
            Call::Feed(3, EMPTY, Ok(())),
            Call::Feed(
                1,
                Parts(&[&[0; 24]]),
                Err(RunFault::Capture(1, PcapFault::Magic)),
            ),
            Call::FeedTimes(1000, 2, EMPTY, FAILED),
            Call::Close(9, FAILED),
            Call::Take(3, EMPTY),
            Call::Take(3, NOTHING),
        ],
        end: End::Refused(RunFault::Failed, Call::Take(3, NOTHING)),
    },
    Row {
        name: "a capture that is closed too soon",
        setting: DOUBLE,
        calls: &[Call::Close(3, Err(RunFault::Capture(3, PcapFault::NoHeader)))],
        end: End::Refused(RunFault::Failed, Call::Feed(1, NOTHING, FAILED)),
    },
    // The end names the lowest port whose capture it closes too soon.
    Row {
        name: "two captures that the end closes",
        setting: DOUBLE,
        calls: &[
            Call::Feed(1, EMPTY, Ok(())),
            Call::Feed(3, BEGINNING, Ok(())),
        ],
        end: End::Refused(
            RunFault::Capture(2, PcapFault::NoHeader),
            Call::Feed(1, NOTHING, FAILED),
        ),
    },
    Row {
        name: "three captures that the end closes",
        setting: DOUBLE,
        calls: &[],
        end: End::Refused(
            RunFault::Capture(1, PcapFault::NoHeader),
            Call::Feed(1, NOTHING, FAILED),
        ),
    },
    Row {
        name: "a session without ports",
        setting: Setting {
            content: Rows(&[], &[]),
            checked: false,
            ..SINGLE
        },
        calls: &[
            Call::Feed(1, EMPTY, Err(RunFault::WrongPorts)),
            Call::Take(1, NOTHING),
        ],
        end: End::Left(&[]),
    },
    // The first frame of link 10 starts at 50,000 ns, so it is given once port 2 has come to 30,000 ns.
    Row {
        name: "latency in a session: 50 µs",
        setting: BEHIND,
        calls: &[
            Call::Feed(3, EMPTY, Ok(())),
            Call::Close(3, Ok(())),
            Call::Feed(1, Frames(&[Small(10, 0), Small(10, 1_000_000)]), Ok(())),
            Call::Feed(2, Frames(&[Small(20, 30_000)]), Ok(())),
            Call::Take(3, Frames(&[Small(10, 56_720)])),
            Call::Close(1, Ok(())),
            Call::Close(2, Ok(())),
            Call::Take(3, Records(&[Small(20, 86_720), Small(10, 1_056_720)])),
        ],
        end: End::Left(&[EMPTY, EMPTY, NOTHING]),
    },
    // The frame at 30,000 ns is of no link, so nothing is offered to port 3 then: the advance alone carries it on.
    Row {
        name: "latency in a session: 50 µs beside a frame of no link",
        setting: BEHIND,
        calls: &[
            Call::Feed(3, EMPTY, Ok(())),
            Call::Close(3, Ok(())),
            Call::Feed(1, Frames(&[Small(10, 0), Small(10, 1_000_000)]), Ok(())),
            Call::Feed(2, Frames(&[Small(99, 30_000)]), Ok(())),
            Call::Take(3, Frames(&[Small(10, 56_720)])),
            Call::Close(1, Ok(())),
            Call::Close(2, Ok(())),
            Call::Take(3, Records(&[Small(10, 1_056_720)])),
        ],
        end: End::Left(&[EMPTY, EMPTY, NOTHING]),
    },
];

/// Ports 1, 2 and 3, links 10 from 1 and 20 from 2 to 3, and a latency of 50 µs.
const BEHIND: Setting = Setting {
    latency_us: Some(50),
    ..DOUBLE
};

#[test]
fn sessions_by_their_calls(rt: HostRuntime) -> Result<(), Fail> {
    for row in ROWS {
        let (count, ends) = plays(rt.alloc(), row)?;
        let is_right = count == row.calls.len() && ends;
        assert!(rt; is_right, "{}: {count} calls", row.name);
    }
    Ok(())
}

/// The messages of faults.
const MESSAGES: &[(RunFault, &str)] = &[
    (RunFault::Memory, "Memory"),
    (RunFault::Capture(1, PcapFault::Magic), "Capture"),
    (RunFault::WrongPorts, "WrongPorts"),
];

#[test]
fn messages(rt: HostRuntime) -> Result<(), Fail> {
    for (fault, message) in MESSAGES {
        let printed = format!(in rt.alloc(); "{fault}")?;
        assert_eq!(rt; printed.as_str(), *message);
    }
    Ok(())
}
