//! `afdx network run` over a folder in memory, one of whose calls fails. Values from outside: tables, captures and printed lines.

use afdx_fixtures::{MemoryFolder, answers};
use afdx_folder::FolderFault;
use afdx_samples::{HEADER, capture, network_file, port, small, small_link, table};
use std::alloc::{AllocError, Global};

/// Adds the files of two switches of one table: a link goes from port 1 to port 2 of A, and over a wire from port 1 to port 2 of B.
fn add_network(alloc: Global, folder: &mut MemoryFolder<Global>) -> Result<(), AllocError> {
    let network = network_file(alloc, &["A", "B"], &[("A.2", "B.1", 25)])?;
    let text = table(alloc, &[port(1), port(2)], &[small_link(1, 1, "[2]", 0)])?;
    folder.add("n", network.as_bytes())?;
    folder.add("A.toml", text.as_bytes())?;
    folder.add("B.toml", text.as_bytes())
}

/// Adds the captures of their ports without a wire: a frame comes in at port 1 of A.
fn add_captures(alloc: Global, folder: &mut MemoryFolder<Global>) -> Result<(), AllocError> {
    let came = capture(alloc, &[small(1, 0)])?;
    folder.add("in/A/port-1.pcap", &came)?;
    folder.add("in/A/port-2.pcap", &HEADER)?;
    folder.add("in/B/port-2.pcap", &HEADER)
}

/// Returns whether the run fails with this line at the call of this number, after which none comes, and has put the captures of A
/// or has put none, as it should.
fn fails_at(alloc: Global, call: u64, line: &str, is_put: bool) -> Result<bool, AllocError> {
    let mut folder = MemoryFolder::new(alloc);
    add_network(alloc, &mut folder)?;
    add_captures(alloc, &mut folder)?;
    folder.fail_at(call, FolderFault::Device);
    let is_said = answers(
        alloc,
        "afdx network run n in out",
        &mut folder,
        (5, "", line),
    )?;
    let is_left = folder.bytes("out/A/port-2.pcap").is_some() == is_put;
    Ok(is_said && is_left && folder.calls() == call)
}

/// The call that fails, the line, and whether the captures of A are put by then: six files are got, and the seventh call puts the
/// first one.
const FAILING: &[(u64, &str, bool)] = &[
    (2, "afdx: device get A.toml\n", false),
    (6, "afdx: device get in/B/port-2.pcap\n", false),
    (7, "afdx: device put out/A/port-1.pcap\n", false),
    (9, "afdx: device put out/B/port-1.pcap\n", true),
];

/// Returns whether the run fails with this line if the device does not take the new file of this number, and has put none.
fn fails_to_settle(alloc: Global, number: u64, line: &str) -> Result<bool, AllocError> {
    let mut folder = MemoryFolder::new(alloc);
    add_network(alloc, &mut folder)?;
    add_captures(alloc, &mut folder)?;
    let files = folder.count();
    folder.fail_to_settle(number, FolderFault::Device);
    let is_said = answers(
        alloc,
        "afdx network run n in out",
        &mut folder,
        (5, "", line),
    )?;
    Ok(is_said && folder.calls() == 6 && folder.count() == files)
}

/// The new file that the device does not take, and the line.
const SETTLING: &[(u64, &str)] = &[
    (1, "afdx: device put out/A/port-1.pcap\n"),
    (3, "afdx: device put out/B/port-1.pcap\n"),
    (4, "afdx: device put out/B/port-2.pcap\n"),
];

#[test]
fn failing_to_settle_in_a_network(rt: HostRuntime) {
    for (number, line) in SETTLING {
        assert!(rt;
            fails_to_settle(rt.alloc(), *number, line) == Ok(true),
            "{line}"
        );
    }
}

#[test]
fn failing_folder_of_a_network(rt: HostRuntime) {
    for (call, line, is_put) in FAILING {
        assert!(rt;
            fails_at(rt.alloc(), *call, line, *is_put) == Ok(true),
            "{line}"
        );
    }
}
