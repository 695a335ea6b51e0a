//! Counters by their calls: what their readers give after a run, and numbers that the table lacks.

use crate::traffic::switch_of;
use afdx_core::{Fate, Offers, Step};
use afdx_count::{Counts, PortTally};
use afdx_port::Offer;
use afdx_samples::{Link, Port, Sample, large, link, port, record, single, small, table};
use afdx_table::read;
use std::alloc::Global;
use std::test::*;

/// Makes more frames at one instant than port 2 of the table `hasty` takes, and than link 10 may send.
fn crowded() -> [(u8, Sample); 4] {
    [
        (1, small(10, 0)),
        (1, small(30, 0)),
        (1, small(10, 0)),
        (1, large(10, 0)),
    ]
}

/// Writes a table with ports 1 and 2, and from 1 to 2 the high link 30 and then the low link 10. Port 2 has room for two small
/// frames, none of which may wait for another.
fn hasty(alloc: Global) -> Result<String, Fail> {
    let second = Port {
        buffer: 128,
        max_delay_us: 5,
        ..port(2)
    };
    let high = Link {
        priority: "high",
        ..link(30, 1, "[2]")
    };
    let text = table(alloc, &[port(1), second], &[high, link(10, 1, "[2]")])?;
    Ok(text)
}

/// Makes the counters of a table's ports and links, before any frame.
fn fresh(alloc: Global, text: &str) -> Result<Counts<Global>, Fail> {
    let counts = Counts::new(alloc, &read(alloc, text.as_bytes())?)?;
    Ok(counts)
}

/// Returns the counters of a switch over a table that took these frames, each with its port, and then was finished.
fn counts_of(alloc: Global, text: &str, arrivals: &[(u8, Sample)]) -> Result<Counts<Global>, Fail> {
    // example of afdx_count
    let mut counts = fresh(alloc, text)?;
    let mut switch = switch_of(alloc, text)?;
    for (in_port, sample) in arrivals {
        let arrived = record(alloc, *sample).ok_or("a record")?;
        if let Ok(step) = switch.arrive(*in_port, arrived) {
            counts.note(&step);
        }
    }
    counts.note_end(&switch.finish());
    // end of example
    Ok(counts)
}

/// Returns the counters of a port, if there are some.
fn port_of(counts: &Counts<Global>, port: u8) -> Option<&PortTally> {
    counts.ports().iter().find(|tally| tally.id == port)
}

/// Returns what the readers give of these counters.
fn numbers_of(counts: &Counts<Global>) -> [Option<u64>; 9] {
    [
        port_of(counts, 1).map(|tally| tally.input.clean),
        port_of(counts, 3).map(|tally| tally.input.clean),
        counts.link(10).map(|count| count.policed),
        counts.link(11).map(|count| count.policed),
        port_of(counts, 2).map(|tally| tally.low.offered),
        port_of(counts, 2).map(|tally| tally.low.full),
        port_of(counts, 2).map(|tally| tally.low.aged),
        port_of(counts, 2).map(|tally| tally.high.sent),
        port_of(counts, 3).map(|tally| tally.high.sent),
    ]
}

#[test]
fn readers(rt: HostRuntime) -> Result<(), Fail> {
    let alloc = rt.alloc();
    let counts = counts_of(alloc, &hasty(alloc)?, &crowded())?;
    let expected = [
        Some(4),
        None,
        Some(1),
        None,
        Some(2),
        Some(1),
        Some(1),
        Some(1),
        None,
    ];
    assert_eq!(rt; numbers_of(&counts), expected);
    Ok(())
}

const NO_FRAMES: &str =
    "in 1 seen 0 cut 0 short 0 long 0 foreign 0 no-link 0 wrong-port 0 too-big 0 clean 0
in 2 seen 0 cut 0 short 0 long 0 foreign 0 no-link 0 wrong-port 0 too-big 0 clean 0
link 10 passed 0 policed 0
out 1 high offered 0 full 0 aged 0 sent 0
out 1 low offered 0 full 0 aged 0 sent 0
out 2 high offered 0 full 0 aged 0 sent 0
out 2 low offered 0 full 0 aged 0 sent 0
";

/// Writes the report of a switch's table after this step was noted.
fn report_of_step(alloc: Global, step: &Step) -> Result<String, Fail> {
    let mut counts = fresh(alloc, &single(alloc)?)?;
    counts.note(step);
    let report = counts.report(alloc)?;
    Ok(report)
}

#[test]
fn numbers_that_the_table_lacks(rt: HostRuntime) -> Result<(), Fail> {
    let alloc = rt.alloc();
    let mut offers = Offers::new();
    offers.push(2, Offer::Full);
    let step = Step {
        number: 0,
        in_port: 7,
        fate: Fate::Passed(11),
        offers,
        place: Some(0),
    };
    let report = report_of_step(alloc, &step)?;
    assert_eq!(rt; report.as_str(), NO_FRAMES);
    Ok(())
}
