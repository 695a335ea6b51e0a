//! Runs of a network by its calls: what leaves each switch, to the nanosecond, and how long frames took from end to end.

ghost use Rattle.std.specs.Prelude.{◌≡◌, length, IfOk};
ghost use Rattle.afdx_network.specs.Given.{open_ends, all_ends};

use crate::networks::cleared;
use afdx_count::Counts;
use afdx_measure::{Range, Wanted};
use afdx_network::{all_ends, open_ends, run, run_watched};
use afdx_network_check::Network;
use afdx_samples::{MemoryFile, capture, small};
use afdx_wiring::End;
use std::alloc::{AllocError, Global};
use std::io::Cursor;
use std::test::Fail;

/// A frame of size 64 at a port of a switch: the switch, the port, the frame's link and its nanoseconds.
type At = (usize, u8, u8, u32);

/// Returns the capture of those of these frames that are at a port of a switch.
fn capture_at(
    alloc: Global,
    frames: &[At],
    switch: usize,
    port: u8,
) -> Result<Vec<u8>, AllocError> {
    let mut samples = Vec::new(alloc);
    for frame in frames {
        if frame.0 == switch && frame.1 == port {
            samples.push(small(frame.2, frame.3))?;
        }
    }
    capture(alloc, &samples)
}

/// Makes a reader for each port of a network without a wire, over the capture of those of these frames that come in there.
fn readers_of(
    alloc: Global,
    network: &Network,
    came: &[At],
) -> Result<Vec<Cursor<Vec<u8>>>, AllocError>
    ensures { IfOk result (λ readers. length readers.items ≡ length (open_ends network.now)) }
{
    let ends = open_ends(alloc, network)?;
    let mut readers = Vec::with_capacity(alloc, ends.len())?;
    for end in &ends {
        let text = capture_at(alloc, came, end.switch, end.port)?;
        readers.push(Cursor::new(text))?;
    }
    Ok(readers)
}

/// Makes a new file for each port of a network.
fn files_of(alloc: Global, network: &Network) -> Result<Vec<MemoryFile<Global>>, AllocError>
    ensures { IfOk result (λ files. length files.items ≡ length (all_ends network.now)) }
{
    let ends = all_ends(alloc, network)?;
    let mut files = Vec::with_capacity(alloc, ends.len())?;
    for _ in &ends {
        files.push(MemoryFile {
            bytes: Vec::new(alloc),
        })?;
    }
    Ok(files)
}

/// What leaves both switches, and what they count.
#[derive(Drop)]
struct Led {
    ends: Vec<End>,
    files: Vec<MemoryFile<Global>>,
    counts: Vec<Counts<Global>>,
}

/// Returns whether exactly these frames leave all ports.
fn all_leave(alloc: Global, led: &Led, left: &[At]) -> Result<bool, AllocError> {
    for (end, file) in led.ends.iter().zip(led.files.iter()) {
        let expected = capture_at(alloc, left, end.switch, end.port)?;
        if file.bytes.as_slice() != expected.as_slice() {
            return Ok(false);
        }
    }
    Ok(true)
}

/// Runs the two switches with this jitter over these frames that come in, and returns what leaves them and what they count.
fn lead(alloc: Global, jitter_us: u32, came: &[At]) -> Result<Led, Fail> {
    // example of afdx_network
    let network = cleared(alloc, jitter_us)?;
    let ends = all_ends(alloc, network.network())?;
    let mut readers = readers_of(alloc, network.network(), came)?;
    let mut files = files_of(alloc, network.network())?;
    match run(alloc, &network, &mut readers, &mut files) {
        Ok(counts) => Ok(Led {
            ends,
            files,
            counts,
        }),
        Err(_) => Err("a run".into()),
    }
    // end of example
}

/// A frame of each link at once, and another one of the third a gap later, which comes to the second switch 13,440 ns too early for
/// that gap: the jitter of 14 us there lets it pass.
const CAME: &[At] = &[
    (0, 1, 1, 0),
    (0, 2, 2, 0),
    (0, 3, 3, 0),
    (0, 3, 3, 1_000_000),
];

/// What leaves port 4 of the first switch and port 2 of the second one.
const LEFT: &[At] = &[
    (0, 4, 1, 6_720),
    (0, 4, 2, 13_440),
    (0, 4, 3, 20_160),
    (0, 4, 3, 1_006_720),
    (1, 2, 1, 13_440),
    (1, 2, 2, 20_160),
    (1, 2, 3, 26_880),
    (1, 2, 3, 1_013_440),
];

#[test]
fn four_frames_over_two_switches(rt: HostRuntime) -> Result<(), Fail> {
    let led = lead(rt.alloc(), 14, CAME)?;
    assert!(rt; led.counts.len() == 2 && all_leave(rt.alloc(), &led, LEFT)?);
    Ok(())
}

/// Checks the delays of link 3, whose first frame leaves each switch after those of the others, and the second one alone.
#[test]
fn delays_from_end_to_end(rt: HostRuntime) -> Result<(), Fail> {
    let network = cleared(rt.alloc(), 14)?;
    let mut readers = readers_of(rt.alloc(), network.network(), CAME)?;
    // example of afdx_origins
    let watched = run_watched(rt.alloc(), network.network(), &mut readers, Wanted::Nothing)
        .ok()
        .ok_or("a run")?;
    let delays = watched
        .origins
        .delays_at(3, End { switch: 1, port: 2 })
        .ok_or("a link")?;
    let range = Range {
        least: 13_440,
        greatest: 26_880,
    };
    assert_eq!(rt; (delays.count, delays.range), (2, Some(range)));
    // end of example
    Ok(())
}
