//! Commands over a folder in memory, one of whose calls fails, and over one that opens its files. Values from outside: tables,
//! captures and printed lines.

use afdx_fixtures::{
    Broken, CHECKED, MemoryFolder, OneFrame, REPORT, RUN, answers, captured, folder_of,
};
use afdx_folder::FolderFault;
use afdx_samples::{capture, single};
use std::alloc::{AllocError, Global};

/// Returns whether the run of one frame is done over a folder whose sixth call would fail, which is never made.
fn is_done(alloc: Global, arguments: &str) -> Result<bool, AllocError> {
    let run = OneFrame::new(alloc)?;
    let mut folder = run.folder(6, FolderFault::Device)?;
    let is_said = answers(alloc, arguments, &mut folder, (0, REPORT, ""))?;
    let is_left = folder.holds(&run.files(), 5);
    Ok(is_said && is_left)
}

#[test]
fn serve_in_memory(rt: HostRuntime) {
    for arguments in [CHECKED, RUN] {
        assert!(rt; is_done(rt.alloc(), arguments) == Ok(true), "{arguments}");
    }
}

const MEASURE: &str = "afdx measure t in";

const SURVEY: &str = "afdx survey t in";

const TRACE: &str = "afdx trace t in out";

/// The arrival of one frame, which `trace` puts first.
const ONE_ARRIVAL: &str = "frame,port,record,stamp,link,size,fate,early,full
0,1,1,0,10,64,passed,,
";

/// The arguments, the number of a call over the run of one frame, the name that it is for, the line if it fails, and how many
/// files are there then.
type Failing = (&'static str, u64, &'static str, &'static str, usize);

const FAILING: &[Failing] = &[
    (CHECKED, 1, "t", "afdx: device get t\n", 3),
    (
        CHECKED,
        2,
        "in/port-1.pcap",
        "afdx: device get in/port-1.pcap\n",
        3,
    ),
    (
        CHECKED,
        3,
        "in/port-2.pcap",
        "afdx: device get in/port-2.pcap\n",
        3,
    ),
    (
        CHECKED,
        4,
        "out/port-1.pcap",
        "afdx: device put out/port-1.pcap\n",
        3,
    ),
    (
        CHECKED,
        5,
        "out/port-2.pcap",
        "afdx: device put out/port-2.pcap\n",
        4,
    ),
    (RUN, 1, "t", "afdx: device get t\n", 3),
    (
        RUN,
        2,
        "in/port-1.pcap",
        "afdx: device get in/port-1.pcap\n",
        3,
    ),
    (
        RUN,
        3,
        "in/port-2.pcap",
        "afdx: device get in/port-2.pcap\n",
        3,
    ),
    (
        RUN,
        4,
        "out/port-1.pcap",
        "afdx: device put out/port-1.pcap\n",
        3,
    ),
    (
        RUN,
        5,
        "out/port-2.pcap",
        "afdx: device put out/port-2.pcap\n",
        4,
    ),
    (MEASURE, 1, "t", "afdx: device get t\n", 3),
    (
        MEASURE,
        2,
        "in/port-1.pcap",
        "afdx: device get in/port-1.pcap\n",
        3,
    ),
    (
        MEASURE,
        3,
        "in/port-2.pcap",
        "afdx: device get in/port-2.pcap\n",
        3,
    ),
    (SURVEY, 1, "t", "afdx: device get t\n", 3),
    (
        SURVEY,
        2,
        "in/port-1.pcap",
        "afdx: device get in/port-1.pcap\n",
        3,
    ),
    (
        SURVEY,
        3,
        "in/port-2.pcap",
        "afdx: device get in/port-2.pcap\n",
        3,
    ),
    (TRACE, 1, "t", "afdx: device get t\n", 3),
    (
        TRACE,
        2,
        "in/port-1.pcap",
        "afdx: device get in/port-1.pcap\n",
        3,
    ),
    (
        TRACE,
        3,
        "in/port-2.pcap",
        "afdx: device get in/port-2.pcap\n",
        3,
    ),
    (
        TRACE,
        4,
        "out/arrivals.csv",
        "afdx: device put out/arrivals.csv\n",
        3,
    ),
    (
        TRACE,
        5,
        "out/departures.csv",
        "afdx: device put out/departures.csv\n",
        4,
    ),
    ("afdx size t", 1, "t", "afdx: device get t\n", 3),
];

/// Returns whether a command stops if a call fails so, and leaves the first so many files.
fn stops(
    alloc: Global,
    arguments: &str,
    broken: &Broken,
    count: usize,
) -> Result<bool, AllocError> {
    let run = OneFrame::new(alloc)?;
    let [table, first, second, third, fourth] = run.files();
    let put = if arguments == TRACE {
        ("out/arrivals.csv", ONE_ARRIVAL.as_bytes())
    } else {
        third
    };
    run.stops(
        arguments,
        broken,
        &[table, first, second, put, fourth],
        count,
    )
}

/// Returns whether a command stops if the call fails by its device, and if it is out of memory.
fn stops_at(alloc: Global, failing: &Failing) -> Result<bool, AllocError> {
    let (arguments, call, name, line, count) = *failing;
    let by_device = Broken {
        call,
        fault: FolderFault::Device,
        name: Some(name),
        line,
    };
    let by_memory = Broken {
        call,
        fault: FolderFault::Memory,
        name: None,
        line: "afdx: memory\n",
    };
    let is_device = stops(alloc, arguments, &by_device, count)?;
    let is_memory = stops(alloc, arguments, &by_memory, count)?;
    Ok(is_device && is_memory)
}

#[test]
fn failing_folder(rt: HostRuntime) {
    for failing in FAILING {
        assert!(rt;
            stops_at(rt.alloc(), failing) == Ok(true),
            "{} {}",
            failing.0,
            failing.2
        );
    }
}

/// The arguments, which of the two new files the device does not take, and its name.
const SETTLING: &[(&str, u64, &str)] = &[
    (CHECKED, 1, "out/port-1.pcap"),
    (CHECKED, 2, "out/port-2.pcap"),
    (RUN, 1, "out/port-1.pcap"),
    (RUN, 2, "out/port-2.pcap"),
    (TRACE, 1, "out/arrivals.csv"),
    (TRACE, 2, "out/departures.csv"),
];

/// Returns whether a command then names the new file and leaves all files as they were, and leaves them so if memory runs out there.
fn stops_settling(
    alloc: Global,
    arguments: &str,
    number: u64,
    name: &str,
) -> Result<bool, AllocError> {
    let run = OneFrame::new(alloc)?;
    let line = format!(in alloc; "afdx: device put {name}\n")?;
    let by_device = (Some(name), line.as_str());
    let by_memory = (None, "afdx: memory\n");
    let is_device = run.stops_settling(arguments, number, FolderFault::Device, by_device)?;
    let is_memory = run.stops_settling(arguments, number, FolderFault::Memory, by_memory)?;
    Ok(is_device && is_memory)
}

/// Checks that a failure that is known before the first file is moved moves none.
#[test]
fn failing_to_settle(rt: HostRuntime) {
    for (arguments, number, name) in SETTLING {
        assert!(rt;
            stops_settling(rt.alloc(), arguments, *number, name) == Ok(true),
            "{arguments} {name}"
        );
    }
}

/// Returns whether the run of one frame is done by five calls of the folder: the table is got, two captures are opened, and two are put.
fn is_done_once(alloc: Global, arguments: &str) -> Result<bool, AllocError> {
    let run = OneFrame::new(alloc)?;
    let mut folder = run.sound()?;
    let is_said = answers(alloc, arguments, &mut folder, (0, REPORT, ""))?;
    Ok(is_said && folder.holds(&run.files(), 5) && folder.calls() == 5)
}

#[test]
fn opens_each_capture_once(rt: HostRuntime) {
    for arguments in [CHECKED, RUN] {
        assert!(rt;
            is_done_once(rt.alloc(), arguments) == Ok(true),
            "{arguments}"
        );
    }
}

/// Returns whether a command names the first capture if none that is opened can be read, which the folder counts apart from failures.
fn names_the_first(alloc: Global, arguments: &str) -> Result<bool, AllocError> {
    let run = OneFrame::new(alloc)?;
    let mut folder = run.sound()?;
    folder.fail_to_read();
    let files = folder.count();
    let line = "afdx: device get in/port-1.pcap\n";
    let is_said = answers(alloc, arguments, &mut folder, (5, "", line))?;
    let is_unread = folder.last_unread() == Some("in/port-1.pcap")
        && folder.last_failure().is_none();
    Ok(is_said && is_unread && folder.count() == files)
}

#[test]
fn says_which_capture_cannot_be_read(rt: HostRuntime) {
    for arguments in [CHECKED, RUN, MEASURE, SURVEY] {
        assert!(rt;
            names_the_first(rt.alloc(), arguments) == Ok(true),
            "{arguments}"
        );
    }
}

/// Returns the first so many bytes of the capture of one frame.
fn cut(alloc: Global, left: usize) -> Result<Vec<u8>, AllocError> {
    let mut bytes = capture(alloc, &[captured(60, 0, 0)])?;
    bytes.truncate(left);
    Ok(bytes)
}

/// How many bytes are left of a port's capture, if it is there.
type Left = Option<usize>;

/// Adds what is left of a capture, if it is there.
fn add_left(
    alloc: Global,
    folder: &mut MemoryFolder<Global>,
    name: &str,
    left: Left,
) -> Result<(), AllocError> {
    match left {
        Some(left) => folder.add(name, &cut(alloc, left)?),
        None => Ok(()),
    }
}

/// Makes a folder that opens files, in which so much is left of each port's capture.
fn opened(alloc: Global, first: Left, second: Left) -> Result<MemoryFolder<Global>, AllocError> {
    let table = single(alloc)?;
    let mut folder = folder_of(alloc, &table, &[])?;
    add_left(alloc, &mut folder, "in/port-1.pcap", first)?;
    add_left(alloc, &mut folder, "in/port-2.pcap", second)?;
    Ok(folder)
}

/// Returns whether a command over such a folder has this status and line, puts no capture and leaves no new file.
fn is_refused_opening(
    alloc: Global,
    arguments: &str,
    first: Left,
    second: Left,
    status: u8,
    line: &str,
) -> Result<bool, AllocError> {
    let mut folder = opened(alloc, first, second)?;
    let files = folder.count();
    let is_said = answers(alloc, arguments, &mut folder, (status, "", line))?;
    Ok(is_said && folder.count() == files)
}

/// Returns whether each command that reads captures in pieces does so.
fn are_refused_opening(
    alloc: Global,
    first: Left,
    second: Left,
    status: u8,
    line: &str,
) -> Result<bool, AllocError> {
    let run = is_refused_opening(alloc, RUN, first, second, status, line)?;
    let measure = is_refused_opening(alloc, MEASURE, first, second, status, line)?;
    let survey = is_refused_opening(alloc, SURVEY, first, second, status, line)?;
    Ok(run && measure && survey)
}

/// How many bytes are left of each port's capture, the status and the line.
const CUTS: &[(Left, Left, u8, &str)] = &[
    (
        Some(99),
        Some(23),
        3,
        "afdx: capture P11 CutData, port 1, record 1\n",
    ),
    (
        Some(100),
        Some(23),
        3,
        "afdx: capture P2 NoHeader, port 2\n",
    ),
    (Some(99), None, 5, "afdx: device get in/port-2.pcap\n"),
    (None, Some(23), 5, "afdx: device get in/port-1.pcap\n"),
];

#[test]
fn says_a_ports_fault_in_pieces(rt: HostRuntime) {
    for (first, second, status, line) in CUTS {
        assert!(rt;
            are_refused_opening(rt.alloc(), *first, *second, *status, line) == Ok(true),
            "{line}"
        );
    }
}
