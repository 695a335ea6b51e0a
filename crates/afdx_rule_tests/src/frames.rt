//! Addresses as the standard writes them, and every verdict, on frames of two links to port 3.

use afdx_filter::{Verdict, verdict};
use afdx_frame::view;
use afdx_samples::{Sample, narrow, record};
use afdx_table::{Table, read};
use std::alloc::Global;
use std::test::Fail;

#[test]
fn constant_field_and_link(rt: HostRuntime) {
    // example of afdx_frame
    let frame = [0x03, 0x00, 0x00, 0x01, 0x12, 0x34, 0x02, 0x00];
    for (bytes, want) in [
        (&frame[..], Some(([3, 0, 0, 1], 0x1234))),
        (&frame[..6], Some(([3, 0, 0, 1], 0x1234))),
        (&frame[..5], None),
    ] {
        let address = view(bytes).map(|view| (view.constant(), view.link()));
        assert_eq!(rt; address, want, "{} bytes", bytes.len());
    }
    // end of example
}

/// Returns the verdict on a frame with this first byte of its address and this link, of so many captured bytes and so many on the
/// line, or none if it is no record.
fn verdict_on(
    alloc: Global,
    table: &Table,
    in_port: u8,
    (first, link): (u8, u8),
    (captured, original): (u32, u32),
) -> Option<Verdict> {
    // example of afdx_filter
    let sample = Sample {
        seconds: 0,
        nanos: 0,
        captured,
        original,
        first,
        link,
    };
    let frame = record(alloc, sample)?;
    Some(verdict(table, in_port, &frame))
    // end of example
}

#[test]
fn every_verdict(rt: HostRuntime) -> Result<(), Fail> {
    let table = read(rt.alloc(), narrow(rt.alloc())?.as_bytes())?;
    for (in_port, address, lengths, want) in [
        (1, (3, 10), (60, 61), Verdict::Cut),
        (1, (3, 10), (59, 59), Verdict::Short),
        (1, (3, 10), (1515, 1515), Verdict::Long),
        (1, (2, 10), (60, 60), Verdict::Foreign),
        (1, (3, 11), (60, 60), Verdict::NoLink),
        (1, (3, 20), (60, 60), Verdict::WrongPort),
        (1, (3, 10), (497, 497), Verdict::TooBig),
        (1, (2, 10), (59, 59), Verdict::Short),
        (1, (3, 10), (60, 60), Verdict::Clean(10)),
        (2, (3, 10), (60, 60), Verdict::WrongPort),
        // at the edges of the cases above
        (1, (3, 10), (59, 60), Verdict::Cut),
        (1, (3, 10), (496, 400), Verdict::Clean(10)),
        (2, (3, 20), (1514, 1514), Verdict::Clean(20)),
        (1, (2, 10), (1515, 1515), Verdict::Long),
        (3, (3, 10), (497, 497), Verdict::WrongPort),
    ] {
        assert_eq!(rt;
            verdict_on(rt.alloc(), &table, in_port, address, lengths),
            Some(want),
            "{} bytes of link {}",
            lengths.0,
            address.1
        );
    }
    Ok(())
}
