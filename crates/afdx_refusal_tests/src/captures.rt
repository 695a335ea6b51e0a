//! A reader of captures.

use crate::allocations::{Calls, Memory, refuse};
use afdx_pcap::{PcapFault, Reader, Record};
use afdx_samples::{capture, small};
use std::alloc::Allocator;
use std::test::*;

/// A reader that is fed a capture of one frame byte by byte.
#[derive(Clone, Copy)]
struct Feeding<'a> {
    text: &'a [u8],
}

/// Feeds one more byte, and asks for the next record.
fn more<A: Allocator + Copy>(
    reader: &mut Reader<'static, A>,
    byte: u8,
) -> Result<Option<Record<'static, A>>, PcapFault> {
    if !reader.is_closed() {
        reader.feed(&[byte])?;
    }
    reader.next()
}

/// Returns whether each call of a reader is out of memory for good.
fn wants_for_good<A: Allocator + Copy>(reader: &mut Reader<'static, A>) -> bool {
    let want = Some(PcapFault::Memory);
    let fed = more(reader, 0).err();
    let asked = reader.next().err();
    let fed_again = more(reader, 0).err();
    fed == want && asked == want && fed_again == want
}

/// Returns whether the record of one frame comes with its last byte and no other one before the end, or none if memory runs out.
fn gives_one<A: Allocator + Copy>(reader: &mut Reader<'static, A>, text: &[u8]) -> Option<bool> {
    let mut fed = 0usize;
    for byte in text {
        fed = fed.saturating_add(1);
        let found = more(reader, *byte).ok()?.is_some();
        if found != (fed == 100) {
            return Some(false);
        }
    }
    Some(true)
}

/// Closes a reader, and returns whether it has no further record.
fn ends<A: Allocator + Copy>(reader: &mut Reader<'static, A>) -> bool {
    reader.close();
    match reader.next() {
        Ok(rest) => rest.is_none(),
        Err(_) => false,
    }
}

impl Calls for Feeding<'_> {
    fn answer(&self, memory: &Memory) -> Result<Option<bool>, Fail> {
        let mut reader = Reader::new(memory);
        Ok(match gives_one(&mut reader, self.text) {
            Some(right) => Some(right && ends(&mut reader)),
            None if wants_for_good(&mut reader) => None,
            None => Some(false),
        })
    }
}

/// Checks a reader that allocates for the bytes, and once for the record's copy. Out of memory is for good.
#[test]
fn reader_byte_by_byte(rt: HostRuntime) -> Result<(), Fail> {
    let alloc = rt.alloc();
    let text = capture(alloc, &[small(10, 0)])?;
    refuse(&rt, alloc, "Reader", &Feeding { text: &text }, 2)
}
