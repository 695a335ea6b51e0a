//! A switch by its calls. Each call that is out of memory is made once more.

ghost use Rattle.std.specs.Prelude.{◌<◌};
ghost use Rattle.afdx_units.specs.Time.{last_second};

use crate::allocations::{Calls, Memory, count, made_again, refuse};
use crate::tables::{cleared_of, table_of};
use afdx_core::{CoreFault, Done, Fate, Step, Switch};
use afdx_pcap::Record;
use afdx_port::Offer;
use afdx_refusing::Refusing;
use afdx_samples::{record, single, small};
use afdx_units::Stamp;
use std::alloc::{AllocError, Allocator, Global};
use std::test::*;

/// A switch over a table of one link that is not checked, or that is.
#[derive(Clone, Copy)]
struct Switching<'a> {
    alloc: Global,
    table: &'a str,
    checked: bool,
}

/// Makes a switch over a table, checked first or not, or none if memory runs out.
fn made<'a>(
    calls: &Switching,
    memory: &'a Memory,
) -> Result<Option<Switch<'static, &'a Memory>>, Fail> {
    if calls.checked {
        let cleared = cleared_of(calls.alloc, calls.table)?;
        return Ok(Switch::cleared(memory, cleared).ok());
    }
    let table = table_of(calls.alloc, calls.table)?;
    Ok(Switch::new(memory, table).ok())
}

/// Makes the same switch, once more if memory runs out, or none if it runs out again.
fn made_or_again<'a>(
    calls: &Switching,
    memory: &'a Memory,
    wants: &mut u64,
) -> Result<Option<Switch<'static, &'a Memory>>, Fail> {
    if let Some(switch) = made(calls, memory)? {
        return Ok(Some(switch));
    }
    count(wants);
    made(calls, memory)
}

/// The fate and the first offer, or the fault.
type Answer = (Option<Fate>, Option<(u8, Offer)>, Option<CoreFault>);

/// Returns what a step gives.
fn reported(step: &Step) -> Answer {
    (Some(step.fate), step.offers.get(0), None)
}

/// Returns the answer to a record that comes in once more, if memory ran out before, else the fault.
fn answer_again<A: Allocator + Copy>(
    switch: &mut Switch<'static, A>,
    in_port: u8,
    fault: CoreFault,
    frame: Record<'static, A>,
    wants: &mut u64,
) -> Answer
    requires { frame.stamp < last_second }
{
    if fault != CoreFault::Memory {
        return (None, None, Some(fault));
    }
    count(wants);
    let step = match switch.arrive(in_port, frame) {
        Ok(step) => step,
        Err((fault, _)) => return (None, None, Some(fault)),
    };
    reported(&step)
}

/// Returns the answer to a record that comes in at a port.
fn answer_to<A: Allocator + Copy>(
    switch: &mut Switch<'static, A>,
    in_port: u8,
    frame: Record<'static, A>,
    wants: &mut u64,
) -> Answer
    requires { frame.stamp < last_second }
{
    let step = match switch.arrive(in_port, frame) {
        Ok(step) => step,
        Err((fault, back)) => return answer_again(switch, in_port, fault, back, wants),
    };
    reported(&step)
}

/// Returns the answer to a small frame of link 10, whose record takes other memory, or nothing if it is no record.
pub(crate) fn arrive<'a>(
    switch: &mut Switch<'static, &'a Memory>,
    ample: &'a Memory,
    in_port: u8,
    nanos: u32,
    wants: &mut u64,
) -> Answer {
    match record(ample, small(10, nanos)) {
        Some(frame) => answer_to(switch, in_port, frame, wants),
        None => (None, None, None),
    }
}

/// Returns the end and the number of bytes of a record that was handed out.
fn sent_as<A: Allocator>(out: Option<Record<'static, A>>) -> Option<(u64, usize)> {
    match out {
        Some(frame) => Some((frame.stamp().ns(), frame.bytes().len())),
        None => None,
    }
}

/// Returns the next frame that a port hands out.
fn next<A: Allocator + Copy>(
    switch: &mut Switch<'static, A>,
    port: u8,
    wants: &mut u64,
) -> Result<Option<(u64, usize)>, AllocError> {
    if let Ok(out) = switch.next_out(port) {
        return Ok(sent_as(out));
    }
    count(wants);
    Ok(sent_as(switch.next_out(port)?))
}

/// Does the same for a finished switch.
fn left<A: Allocator + Copy>(
    done: &mut Done<'static, A>,
    port: u8,
    wants: &mut u64,
) -> Result<Option<(u64, usize)>, AllocError> {
    if let Ok(out) = done.next_out(port) {
        return Ok(sent_as(out));
    }
    count(wants);
    Ok(sent_as(done.next_out(port)?))
}

/// Advances the switch to this instant, and returns whether it could.
pub(crate) fn advances<A: Allocator + Copy>(switch: &mut Switch<'static, A>, ns: u64) -> bool {
    match Stamp::from_ns(ns) {
        Some(to) => switch.advance(to).is_ok(),
        None => false,
    }
}

/// Returns whether a switch over a table of one link takes two frames, and refuses one from no port and one that comes too early.
fn takes_two<'a>(
    switch: &mut Switch<'static, &'a Memory>,
    ample: &'a Memory,
    wants: &mut u64,
) -> bool {
    let passed = (Some(Fate::Passed(10)), Some((2, Offer::Queued)), None);
    let unknown = arrive(switch, ample, 7, 5, wants);
    let first = arrive(switch, ample, 1, 5, wants);
    let early = arrive(switch, ample, 1, 4, wants);
    let second = arrive(switch, ample, 1, 5, wants);
    unknown == (None, None, Some(CoreFault::NoSuchPort))
        && first == passed
        && early == (None, None, Some(CoreFault::Earlier))
        && second == passed
}

/// Returns whether the switch hands out the first of them once it has begun, and not before.
fn hands_out_one<A: Allocator + Copy>(switch: &mut Switch<'static, A>, wants: &mut u64) -> bool {
    let goes_back = advances(switch, 4);
    let before = next(switch, 2, wants);
    let goes_on = advances(switch, 6);
    let first = next(switch, 2, wants);
    !goes_back && before == Ok(None) && goes_on && first == Ok(Some((6_725, 60)))
}

/// Returns whether the finished switch hands out the second, and no other.
fn hands_out_the_last<A: Allocator + Copy>(done: &mut Done<'static, A>, wants: &mut u64) -> bool {
    let second = left(done, 2, wants);
    let third = left(done, 2, wants);
    second == Ok(Some((13_445, 60))) && third == Ok(None) && done.fates().len() == 2
}

/// Returns whether there is a switch, and it answers these calls so.
fn answers<'a>(
    made: Option<Switch<'static, &'a Memory>>,
    ample: &'a Memory,
    wants: &mut u64,
) -> bool {
    let Some(mut switch) = made else {
        return false;
    };
    let taken = takes_two(&mut switch, ample, wants);
    let one = hands_out_one(&mut switch, wants);
    let mut done = switch.finish();
    let last = hands_out_the_last(&mut done, wants);
    taken && one && last
}

impl Calls for Switching<'_> {
    fn answer(&self, memory: &Memory) -> Result<Option<bool>, Fail> {
        let mut wants = 0u64;
        let switch = made_or_again(self, memory, &mut wants)?;
        let right = answers(switch, &Refusing::new(self.alloc, 0), &mut wants);
        Ok(made_again(right, wants))
    }
}

/// Checks the calls of a switch, with one allocation at least for the accounts, the ports, each list of each arrival, and each
/// frame that is handed out.
#[test]
fn switch_by_calls(rt: HostRuntime) -> Result<(), Fail> {
    let alloc = rt.alloc();
    let table = single(alloc)?;
    let plain = Switching {
        alloc,
        table: &table,
        checked: false,
    };
    let checked = Switching {
        checked: true,
        ..plain
    };
    refuse(&rt, alloc, "Switch by calls", &plain, 8)?;
    refuse(&rt, alloc, "Switch by calls, checked", &checked, 8)
}
