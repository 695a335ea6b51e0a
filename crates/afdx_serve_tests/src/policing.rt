//! The policing of one link, by its call, and of a capture that is cut at each byte.

use afdx_alone::{Alone, AloneFault, alone};
use afdx_arguments::{Request, parse};
use afdx_fixtures::{LINK_10, VERSION, split};
use afdx_pcap::PcapFault;
use afdx_samples::{capture, large, small};
use std::alloc::{AllocError, Global};
use std::test::*;

/// Makes link 10, which may send a large frame each millisecond.
fn link() -> Option<Alone> {
    Alone::of_numbers(10, 1, 0, 1518)
}

/// Returns what these arguments ask for, if it is the policing of one link.
fn link_in(alloc: Global, line: &str) -> Result<Option<Alone>, AllocError> {
    // example of afdx_arguments
    let arguments = split(alloc, line)?;
    match parse(alloc, VERSION, &arguments) {
        Ok(Request::Alone(link)) => Ok(Some(link)),
        _ => Ok(None),
    }
    // end of example
}

/// Returns whether the frame that comes a nanosecond early is policed, and no other.
fn polices(alloc: Global, link: &Alone) -> Result<bool, AllocError> {
    // example of afdx_alone
    let early = large(10, 999_999);
    let input = capture(alloc, &[large(10, 0), early, large(10, 1_000_000)])?;
    let want = capture(alloc, &[large(10, 0), large(10, 1_000_000)])?;
    match alone(alloc, link, &input) {
        Ok(passed) => Ok(passed.as_slice() == want.as_slice()),
        Err(_) => Ok(false),
    }
    // end of example
}

#[test]
fn polices_one_link(rt: HostRuntime) -> Result<(), Fail> {
    let link = link().ok_or("a link")?;
    let is_asked = link_in(rt.alloc(), LINK_10)? == Some(link);
    assert!(rt; is_asked && polices(rt.alloc(), &link)?);
    Ok(())
}

/// Returns the fault of the first bytes of a capture of two small frames, by the format, if there is one.
fn fault_in(length: usize) -> Option<PcapFault> {
    match length {
        0..=23 => Some(PcapFault::NoHeader),
        25..=39 => Some(PcapFault::CutHeader(1)),
        40..=99 => Some(PcapFault::CutData(1)),
        101..=115 => Some(PcapFault::CutHeader(2)),
        116..=175 => Some(PcapFault::CutData(2)),
        _ => None,
    }
}

/// Returns whether all of these bytes come out if they are whole, and are refused with the format's fault if not.
fn is_right(alloc: Global, link: &Alone, cut: &[u8]) -> bool {
    let fault = fault_in(cut.len());
    match alone(alloc, link, cut) {
        Ok(answer) => fault.is_none() && answer.as_slice() == cut,
        Err(AloneFault::Capture(found)) => fault == Some(found),
        Err(AloneFault::Memory) => false,
    }
}

/// Counts the places at which a capture may be cut so that what is left of it is answered right.
fn right_cuts(alloc: Global, link: &Alone, input: &[u8]) -> usize {
    let mut cuts = 0usize;
    for length in 0..=input.len() {
        let is_right = match input.get(..length) {
            Some(cut) => is_right(alloc, link, cut),
            None => false,
        };
        if is_right {
            cuts = cuts.saturating_add(1);
        }
    }
    cuts
}

#[test]
fn each_cut(rt: HostRuntime) -> Result<(), Fail> {
    let alloc = rt.alloc();
    let link = link().ok_or("a link")?;
    let input = capture(alloc, &[small(10, 0), small(10, 1_000_000)])?;
    let cuts = right_cuts(alloc, &link, &input);
    assert_eq!(rt; cuts, 177);
    println!(rt; "alone: {cuts} cuts")?;
    Ok(())
}
