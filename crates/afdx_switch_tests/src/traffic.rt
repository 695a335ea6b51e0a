//! Switches, and what answers say.

use afdx_core::{CoreFault, Done, Fate, Switch};
use afdx_load::check;
use afdx_pcap::Record;
use afdx_port::Offer;
use afdx_samples::{Sample, large, record, small};
use afdx_table::{Table, read};
use afdx_units::Stamp;
use std::alloc::{AllocError, Global};
use std::test::Fail;

fn table_of(alloc: Global, text: &str) -> Result<Table, Fail> {
    let table = read(alloc, text.as_bytes())?;
    Ok(table)
}

/// Makes a switch over the table of a text, which is not checked.
pub(crate) fn switch_of(alloc: Global, text: &str) -> Result<Switch<'static, Global>, Fail> {
    let switch = Switch::new(alloc, table_of(alloc, text)?)?;
    Ok(switch)
}

/// Makes a switch over the table of a text, which is checked.
pub(crate) fn checked(alloc: Global, text: &str) -> Result<Switch<'static, Global>, Fail> {
    let cleared = check(table_of(alloc, text)?)
        .ok()
        .ok_or("an accepted table")?;
    let switch = Switch::cleared(alloc, cleared)?;
    Ok(switch)
}

/// The fate and the first offer, or the fault and the stamp of the record that came back.
pub(crate) type Answer = (Option<Fate>, Option<(u8, Offer)>, Option<CoreFault>, u64);

/// Has a frame arrive, and returns the answer; nothing if it is no record.
pub(crate) fn arrive(
    alloc: Global,
    switch: &mut Switch<'static, Global>,
    in_port: u8,
    sample: Sample,
) -> Answer {
    let Some(frame) = record(alloc, sample) else {
        return (None, None, None, 0);
    };
    let step = match switch.arrive(in_port, frame) {
        Ok(step) => step,
        Err((fault, back)) => return (None, None, Some(fault), back.stamp().ns()),
    };
    (Some(step.fate), step.offers.get(0), None, 0)
}

/// Has a frame arrive, and returns the first two offers, in the link's order.
fn offers(
    alloc: Global,
    switch: &mut Switch<'static, Global>,
    in_port: u8,
    sample: Sample,
) -> (Option<(u8, Offer)>, Option<(u8, Offer)>) {
    let Some(frame) = record(alloc, sample) else {
        return (None, None);
    };
    let step = match switch.arrive(in_port, frame) {
        Ok(step) => step,
        Err(_) => return (None, None),
    };
    (step.offers.get(0), step.offers.get(1))
}

/// Has a port hand out its next frame, and returns its end and its number of bytes.
pub(crate) fn next(
    switch: &mut Switch<'static, Global>,
    port: u8,
) -> Result<Option<(u64, usize)>, AllocError> {
    let out = switch.next_out(port)?;
    Ok(sent_as(out))
}

/// Does the same with a finished switch.
fn left(done: &mut Done<'static, Global>, port: u8) -> Result<Option<(u64, usize)>, AllocError> {
    let out = done.next_out(port)?;
    Ok(sent_as(out))
}

/// Finishes the switch.
pub(crate) fn finished(switch: Switch<'static, Global>) -> Done<'static, Global> {
    switch.finish()
}

/// Returns the end and the number of bytes of a record that was handed out.
fn sent_as(out: Option<Record<'static, Global>>) -> Option<(u64, usize)> {
    match out {
        Some(record) => Some((record.stamp().ns(), record.bytes().len())),
        None => None,
    }
}

/// Returns whether a port of a finished switch hands out these, by their ends and numbers of bytes, and nothing more.
pub(crate) fn leaves(
    done: &mut Done<'static, Global>,
    port: u8,
    expected: &[(u64, usize)],
) -> bool {
    for one in expected {
        if left(done, port) != Ok(Some(*one)) {
            return false;
        }
    }
    left(done, port) == Ok(None)
}

/// Returns whether the switch advances to this instant.
fn advances(switch: &mut Switch<'static, Global>, ns: u64) -> bool {
    match Stamp::from_ns(ns) {
        Some(to) => switch.advance(to).is_ok(),
        None => false,
    }
}

/// A frame.
#[derive(Clone, Copy)]
pub(crate) enum Frame {
    /// Of size 64: its link and its nanoseconds.
    Small(u8, u32),
    /// Of size 1518: its link and its nanoseconds.
    Large(u8, u32),
}

fn sample(frame: Frame) -> Sample {
    match frame {
        Frame::Small(link, nanos) => small(link, nanos),
        Frame::Large(link, nanos) => large(link, nanos),
    }
}

/// A call of a switch, and what it should answer.
#[derive(Clone, Copy)]
pub(crate) enum Call {
    /// A frame arrives at a port.
    Arrive(u8, Frame, Answer),
    /// A frame arrives at a port, of which the fate is reported alone.
    Fate(u8, Frame, Fate),
    /// A frame arrives at a port, of which the first two offers are reported alone.
    Offers(u8, Frame, (Option<(u8, Offer)>, Option<(u8, Offer)>)),
    /// An advance to so many nanoseconds, and whether it is made.
    Advance(u64, bool),
    /// The next frame of a port, by its end and its number of bytes.
    Next(u8, Option<(u64, usize)>),
    /// How many frames are held.
    Held(usize),
}

/// Returns whether a switch answers this call as it should.
fn answers(alloc: Global, switch: &mut Switch<'static, Global>, call: Call) -> bool {
    match call {
        Call::Arrive(port, frame, expected) => {
            arrive(alloc, switch, port, sample(frame)) == expected
        }
        Call::Fate(port, frame, fate) => arrive(alloc, switch, port, sample(frame)).0 == Some(fate),
        Call::Offers(port, frame, expected) => {
            offers(alloc, switch, port, sample(frame)) == expected
        }
        Call::Advance(ns, expected) => advances(switch, ns) == expected,
        Call::Next(port, expected) => next(switch, port) == Ok(expected),
        Call::Held(expected) => switch.held() == expected,
    }
}

/// Returns how many of these calls a switch answers as it should, up to the first that it does not.
pub(crate) fn answered(
    alloc: Global,
    switch: &mut Switch<'static, Global>,
    calls: &[Call],
) -> usize {
    calls
        .iter()
        .take_while(|call| answers(alloc, switch, **call))
        .count()
}
