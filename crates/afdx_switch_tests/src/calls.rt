//! A switch by its calls: refusals, offers and records.

use crate::traffic::Frame::Small;
use crate::traffic::{Answer, Call, answered, arrive, checked, finished, leaves, switch_of};
use afdx_core::{CoreFault, Done, Fate, Switch};
use afdx_port::Offer;
use afdx_samples::{FRAME, joined, record, single, small};
use afdx_table::read;
use std::alloc::Global;
use std::test::*;

/// Calls of a switch over a table of one link.
const CALLS: [Call; 8] = [
    Call::Arrive(
        7,
        Small(10, 5),
        (None, None, Some(CoreFault::NoSuchPort), 5),
    ),
    Call::Arrive(1, Small(10, 5), QUEUED),
    Call::Arrive(1, Small(10, 4), (None, None, Some(CoreFault::Earlier), 4)),
    Call::Arrive(1, Small(10, 5), QUEUED),
    Call::Advance(4, false),
    Call::Next(2, None),
    Call::Advance(6, true),
    Call::Next(2, Some((6_725, 60))),
];

const QUEUED: Answer = (Some(Fate::Passed(10)), Some((2, Offer::Queued)), None, 0);

/// Returns how many of the calls a switch answers as it should, whether it then hands out the rest, and what it gives at the end.
fn answers_calls(
    alloc: Global,
    mut switch: Switch<'static, Global>,
) -> (usize, bool, (usize, usize, usize)) {
    let count = answered(alloc, &mut switch, &CALLS);
    let mut done = finished(switch);
    let is_left = leaves(&mut done, 2, &[(13_445, 60)]);
    (count, is_left, reported_at_the_end(&done))
}

/// Makes a switch over the table of a text, which is checked first or not.
fn made(alloc: Global, text: &str, is_checked: bool) -> Result<Switch<'static, Global>, Fail> {
    if is_checked {
        checked(alloc, text)
    } else {
        switch_of(alloc, text)
    }
}

#[test]
fn switch_by_calls(rt: HostRuntime) -> Result<(), Fail> {
    let text = single(rt.alloc())?;
    for is_checked in [false, true] {
        let switch = made(rt.alloc(), &text, is_checked)?;
        assert_eq!(rt; answers_calls(rt.alloc(), switch), (8, true, (2, 0, 2)));
    }
    Ok(())
}

/// Checks that the frame starts at once, and that the line is free again 6,720 ns later.
#[test]
fn one_frame_through_a_switch(rt: HostRuntime) -> Result<(), Fail> {
    // example of afdx_core
    let table = read(rt.alloc(), single(rt.alloc())?.as_bytes())?;
    let mut switch = Switch::new(rt.alloc(), table)?;
    let frame = record(rt.alloc(), small(10, 0)).ok_or("a record")?;
    let step = switch.arrive(1, frame).ok().ok_or("an arrival")?;
    let mut done = switch.finish();
    let out = done.next_out(2)?.ok_or("a record")?;
    assert_eq!(rt; (step.fate, out.stamp().ns()), (Fate::Passed(10), 6_720));
    // end of example
    Ok(())
}

/// Returns how many frames port 2 of a switch sent and discarded, and how many fates the switch has of all arrivals.
fn reported(switch: &Switch<'static, Global>) -> (usize, usize, usize) {
    let sent = switch.sent(2).len();
    let aged = switch.aged(2).len();
    (sent, aged, switch.fates().len())
}

/// Returns the same of a finished switch.
fn reported_at_the_end(done: &Done<'static, Global>) -> (usize, usize, usize) {
    (done.sent(2).len(), done.aged(2).len(), done.fates().len())
}

/// Returns whether a switch says what it did after the first frame has begun and at the end, and appends each of two frames to a
/// capture once: the first begins at once, the second when the first has left.
fn appends_two(alloc: Global, mut switch: Switch<'static, Global>, capture: &mut Vec<u8>) -> bool {
    let _first = arrive(alloc, &mut switch, 1, small(10, 0));
    let _second = arrive(alloc, &mut switch, 1, small(10, 6_720));
    let begun = reported(&switch);
    let one = switch.next_out_into(2, capture);
    let none = switch.next_out_into(2, capture);
    let mut done = finished(switch);
    let two = done.next_out_into(2, capture);
    let no_more = done.next_out_into(2, capture);
    let nowhere = done.next_out_into(7, capture);
    begun == (1, 0, 2)
        && one == Ok(true)
        && none == Ok(false)
        && reported_at_the_end(&done) == (2, 0, 2)
        && two == Ok(true)
        && no_more == Ok(false)
        && nowhere == Ok(false)
}

/// Checks the bytes of the output capture: stamps 6,720 and 13,440 ns, 60 bytes captured and on the line.
#[test]
fn two_frames_as_a_capture(rt: HostRuntime) -> Result<(), Fail> {
    let first = [0, 0, 0, 0, 0x40, 0x1a, 0, 0, 60, 0, 0, 0, 60, 0, 0, 0];
    let second = [0, 0, 0, 0, 0x80, 0x34, 0, 0, 60, 0, 0, 0, 60, 0, 0, 0];
    let text = joined(rt.alloc(), &[&first, &FRAME, &second, &FRAME])?;
    let switch = switch_of(rt.alloc(), &single(rt.alloc())?)?;
    let mut capture = Vec::new(rt.alloc());
    let is_told = appends_two(rt.alloc(), switch, &mut capture);
    assert!(rt; is_told && capture.as_slice() == text.as_slice());
    Ok(())
}

#[test]
fn messages(rt: HostRuntime) -> Result<(), Fail> {
    for (fault, name) in [
        (CoreFault::Memory, "Memory"),
        (CoreFault::Earlier, "Earlier"),
        (CoreFault::NoSuchPort, "NoSuchPort"),
    ] {
        assert_eq!(rt; format!(in rt.alloc(); "{fault}")?.as_str(), name);
    }
    Ok(())
}
