//! Frames that a switch appends to a capture. Each call that is out of memory is made once more.

use crate::allocations::{Calls, Memory, count, made_again, refuse};
use crate::switches::{advances, arrive};
use crate::tables::table_of;
use afdx_core::{Done, Switch};
use afdx_refusing::Refusing;
use afdx_samples::{FRAME, joined, single};
use std::alloc::{AllocError, Allocator, Global};
use std::test::*;

/// Two frames that are appended to one capture, the first before the end and the second after it.
#[derive(Clone, Copy)]
struct Appending<'a> {
    alloc: Global,
    table: &'a str,
    text: &'a [u8],
}

/// Sends two frames, the first of them from now on.
fn sends_two<'a>(switch: &mut Switch<'static, &'a Memory>, ample: &'a Memory) {
    let mut wants = 0u64;
    let _first = arrive(switch, ample, 1, 0, &mut wants);
    let _second = arrive(switch, ample, 1, 0, &mut wants);
    let _sent = advances(switch, 1);
}

/// Appends the text of the next frame that port 2 hands out, and returns whether there was one.
fn append<A: Allocator + Copy, B: Allocator>(
    switch: &mut Switch<'static, A>,
    capture: &mut Vec<u8, B>,
    wants: &mut u64,
) -> Result<bool, AllocError> {
    if let Ok(found) = switch.next_out_into(2, capture) {
        return Ok(found);
    }
    count(wants);
    switch.next_out_into(2, capture)
}

/// Does the same for a finished switch.
fn append_left<A: Allocator + Copy, B: Allocator>(
    done: &mut Done<'static, A>,
    capture: &mut Vec<u8, B>,
    wants: &mut u64,
) -> Result<bool, AllocError> {
    if let Ok(found) = done.next_out_into(2, capture) {
        return Ok(found);
    }
    count(wants);
    done.next_out_into(2, capture)
}

/// Returns whether a switch appends two frames to a capture, and no third.
fn appends<'a, B: Allocator>(
    mut switch: Switch<'static, &'a Memory>,
    ample: &'a Memory,
    capture: &mut Vec<u8, B>,
    wants: &mut u64,
) -> bool {
    sends_two(&mut switch, ample);
    let first = append(&mut switch, capture, wants);
    let mut done = switch.finish();
    let second = append_left(&mut done, capture, wants);
    let third = append_left(&mut done, capture, wants);
    first == Ok(true) && second == Ok(true) && third == Ok(false)
}

impl Calls for Appending<'_> {
    fn answer(&self, memory: &Memory) -> Result<Option<bool>, Fail> {
        let ample = Refusing::new(self.alloc, 0);
        let table = table_of(self.alloc, self.table)?;
        let mut wants = 0u64;
        let mut capture = Vec::new(memory);
        let right = match Switch::new(&ample, table) {
            Ok(switch) => appends(switch, &ample, &mut capture, &mut wants),
            Err(_) => false,
        };
        let same = capture.as_slice() == self.text;
        Ok(made_again(right && same, wants))
    }
}

/// Returns two frames as a capture has them, which end at 6,720 and 13,440 ns.
fn two_records(alloc: Global) -> Result<Vec<u8>, AllocError> {
    let first = [0, 0, 0, 0, 0x40, 0x1a, 0, 0, 60, 0, 0, 0, 60, 0, 0, 0];
    let second = [0, 0, 0, 0, 0x80, 0x34, 0, 0, 60, 0, 0, 0, 60, 0, 0, 0];
    joined(alloc, &[&first, &FRAME, &second, &FRAME])
}

#[test]
fn frames_appended_to_a_capture(rt: HostRuntime) -> Result<(), Fail> {
    let alloc = rt.alloc();
    let table = single(alloc)?;
    let text = two_records(alloc)?;
    let calls = Appending {
        alloc,
        table: &table,
        text: &text,
    };
    refuse(&rt, alloc, "next_out_into", &calls, 1)
}
