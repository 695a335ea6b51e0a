//! What a switch keeps for each arrival and for each copy, in bytes: the numbers that `docs/develop/ARCHITECTURE.md` gives.

use afdx_core::{Fate, Row};
use afdx_pcap::Record;
use afdx_port::{Aged, Item, Sent};
use std::alloc::Global;
use std::mem::size_of;
use std::test::*;

#[test]
fn bytes_that_are_kept(rt: HostRuntime) -> Result<(), Fail> {
    let of_arrivals = [size_of::<Row>(), size_of::<Fate>()];
    let of_copies = [size_of::<Item>(), size_of::<Sent>(), size_of::<Aged>()];
    let of_frames = size_of::<Record<'static, Global>>();
    assert_eq!(rt;
        (of_arrivals, of_copies, of_frames),
        ([24, 6], [24, 40, 32], 48)
    );
    Ok(())
}
