//! The comparison of recordings over a folder in memory, if a call of the folder, a capture or a writer fails. Values from
//! outside: captures, printed lines and rows.

use crate::devices::Sink;
use afdx_fixtures::{
    COMPARE, CONFORMS, MemoryFolder, NO_DIFFERENCES, OneFrame, Said, VERSION, answers, captured,
    split,
};
use afdx_folder::FolderFault;
use afdx_samples::capture;
use afdx_serve::serve;
use std::alloc::{AllocError, Global};
use std::io::ErrorKind;
use std::test::Fail;

/// What came is taken for what left: the frame is recorded at a port to which its link does not lead.
const MISTAKEN: &str = "afdx compare t in in --stamps free --rest --rows found";

const DIFFERS: &str = "span 0 to 0
link 10 out 2 passed 1 seen 0 missing 0 extra 0 early 0 late 0 before 0 after 1 unsure 0 least - greatest - bound 159390
out 1 seen 1 foreign 1
out 2 seen 0 foreign 0
differs
";

/// The file of differences that is put then.
const ONE_FOREIGN: (&str, &[u8]) = (
    "found/differences.csv",
    b"port,link,kind,record_in,stamp_in,record_out,stamp_out,delay,bound
1,,foreign,,,1,0,,
",
);

/// Makes a folder with the recordings of one frame. The call of number `failing` fails so.
fn recorded(
    alloc: Global,
    run: &OneFrame,
    failing: u64,
    fault: FolderFault,
) -> Result<MemoryFolder<Global>, AllocError> {
    let mut folder = MemoryFolder::failing(alloc, failing, fault);
    run.add_recordings_to(&mut folder)?;
    Ok(folder)
}

/// The arguments, the status, the report, and the file of differences.
type Compared = (
    &'static str,
    u8,
    &'static str,
    (&'static str, &'static [u8]),
);

const COMPARED: &[Compared] = &[
    (COMPARE, 0, CONFORMS, NO_DIFFERENCES),
    (MISTAKEN, 1, DIFFERS, ONE_FOREIGN),
];

/// Returns whether a comparison is done by six calls of the folder: the table is got, four captures are opened, and one file is put.
fn is_done(alloc: Global, (arguments, status, report, rows): Compared) -> Result<bool, AllocError> {
    let run = OneFrame::new(alloc)?;
    let mut folder = recorded(alloc, &run, 7, FolderFault::Device)?;
    let is_said = answers(alloc, arguments, &mut folder, (status, report, ""))?;
    Ok(is_said && folder.holds(&run.compared(rows), 6) && folder.calls() == 6)
}

#[test]
fn compared_in_memory(rt: HostRuntime) {
    for compared in COMPARED {
        assert!(rt;
            is_done(rt.alloc(), *compared) == Ok(true),
            "{}",
            compared.0
        );
    }
}

/// The number of a call of the comparison, the name that it is for, and the line if it fails.
const FAILING: &[(u64, &str, &str)] = &[
    (1, "t", "afdx: device get t\n"),
    (2, "in/port-1.pcap", "afdx: device get in/port-1.pcap\n"),
    (3, "in/port-2.pcap", "afdx: device get in/port-2.pcap\n"),
    (4, "out/port-1.pcap", "afdx: device get out/port-1.pcap\n"),
    (5, "out/port-2.pcap", "afdx: device get out/port-2.pcap\n"),
    (
        6,
        "found/differences.csv",
        "afdx: device put found/differences.csv\n",
    ),
];

/// Returns whether the comparison ends so if this call fails, which is its last, and leaves the recordings alone.
fn stops(
    alloc: Global,
    call: u64,
    fault: FolderFault,
    name: Option<&str>,
    line: &str,
) -> Result<bool, AllocError> {
    let run = OneFrame::new(alloc)?;
    let mut folder = recorded(alloc, &run, call, fault)?;
    let is_said = answers(alloc, COMPARE, &mut folder, (5, "", line))?;
    let is_left = folder.holds(&run.files(), 5) && folder.calls() == call;
    Ok(is_said && is_left && folder.last_failure() == name)
}

/// Returns whether the comparison ends so if the call fails by its device, and if it is out of memory.
fn stops_at(alloc: Global, (call, name, line): (u64, &str, &str)) -> Result<bool, AllocError> {
    let is_device = stops(alloc, call, FolderFault::Device, Some(name), line)?;
    let is_memory = stops(alloc, call, FolderFault::Memory, None, "afdx: memory\n")?;
    Ok(is_device && is_memory)
}

#[test]
fn failing_folder_of_recordings(rt: HostRuntime) {
    for failing in FAILING {
        assert!(rt; stops_at(rt.alloc(), *failing) == Ok(true), "{}", failing.1);
    }
}

/// Returns whether the comparison ends so if the file of differences is not settled, and leaves the recordings alone.
fn stops_settling(
    alloc: Global,
    fault: FolderFault,
    name: Option<&str>,
    line: &str,
) -> Result<bool, AllocError> {
    let run = OneFrame::new(alloc)?;
    let mut folder = recorded(alloc, &run, 0, fault)?;
    folder.fail_to_settle(1, fault);
    let is_said = answers(alloc, COMPARE, &mut folder, (5, "", line))?;
    let is_left = folder.holds(&run.files(), 5) && folder.calls() == 5;
    Ok(is_said && is_left && folder.last_failure() == name)
}

#[test]
fn differences_that_are_not_settled(rt: HostRuntime) {
    let name = Some("found/differences.csv");
    let line = "afdx: device put found/differences.csv\n";
    let by_device = stops_settling(rt.alloc(), FolderFault::Device, name, line);
    assert!(rt; by_device == Ok(true));
    let by_memory = stops_settling(rt.alloc(), FolderFault::Memory, None, "afdx: memory\n");
    assert!(rt; by_memory == Ok(true));
}

/// Returns whether the comparison names the first capture if none that is opened can be read.
fn names_the_first(alloc: Global) -> Result<bool, AllocError> {
    let run = OneFrame::new(alloc)?;
    let mut folder = recorded(alloc, &run, 0, FolderFault::Device)?;
    folder.fail_to_read();
    let line = "afdx: device get in/port-1.pcap\n";
    let is_said = answers(alloc, COMPARE, &mut folder, (5, "", line))?;
    let is_unread = folder.last_unread() == Some("in/port-1.pcap")
        && folder.last_failure().is_none();
    Ok(is_said && is_unread && folder.holds(&run.files(), 5))
}

#[test]
fn recordings_that_cannot_be_read(rt: HostRuntime) {
    assert!(rt; names_the_first(rt.alloc()) == Ok(true));
}

/// So many bytes of a capture of one frame are under a name.
type Cut = (&'static str, usize);

/// The arguments, what is cut, the status and the line.
type Refused = (&'static str, &'static [Cut], u8, &'static str);

const REFUSED: &[Refused] = &[
    (
        COMPARE,
        &[("in/port-1.pcap", 99), ("out/port-1.pcap", 23)],
        3,
        "afdx: capture P11 CutData, port 1, record 1\n",
    ),
    (
        COMPARE,
        &[("in/port-2.pcap", 23), ("out/port-1.pcap", 99)],
        3,
        "afdx: capture P2 NoHeader, port 2\n",
    ),
    (
        COMPARE,
        &[("out/port-1.pcap", 23), ("out/port-2.pcap", 99)],
        3,
        "afdx: capture P2 NoHeader, output 1\n",
    ),
    (
        COMPARE,
        &[("out/port-2.pcap", 99)],
        3,
        "afdx: capture P11 CutData, output 2, record 1\n",
    ),
    (
        "afdx compare t in none --rows found",
        &[("in/port-1.pcap", 99)],
        5,
        "afdx: device get none/port-1.pcap\n",
    ),
];

/// Returns whether a comparison ends so, and puts nothing.
fn is_refused(
    alloc: Global,
    arguments: &str,
    cuts: &[Cut],
    said: Said<'_>,
) -> Result<bool, AllocError> {
    let run = OneFrame::new(alloc)?;
    let mut folder = recorded(alloc, &run, 0, FolderFault::Device)?;
    for (name, left) in cuts {
        let mut bytes = capture(alloc, &[captured(60, 0, 0)])?;
        bytes.truncate(*left);
        folder.add(name, &bytes)?;
    }
    let files = folder.count();
    let is_said = answers(alloc, arguments, &mut folder, said)?;
    Ok(is_said && folder.count() == files)
}

/// Checks that all captures are opened before one is read, and what came is named before what left.
#[test]
fn says_which_recording_is_at_fault(rt: HostRuntime) {
    for (arguments, cuts, status, line) in REFUSED {
        assert!(rt;
            is_refused(rt.alloc(), arguments, cuts, (*status, "", line)) == Ok(true),
            "{line}"
        );
    }
}

/// How many bytes a writer takes at once, the write that fails, and how many bytes are written then.
const WRITERS: &[(usize, u64, usize)] = &[(50, 1, 0), (50, 2, 50), (1, 8, 7)];

/// Returns whether a comparison over such a writer names it, and has put its differences.
fn is_cut(
    alloc: Global,
    (line, _, report, rows): Compared,
    (most, failing, written): (usize, u64, usize),
) -> Result<bool, AllocError> {
    let run = OneFrame::new(alloc)?;
    let mut folder = recorded(alloc, &run, 0, FolderFault::Device)?;
    let arguments = split(alloc, line)?;
    let mut input: &[u8] = b"";
    let mut out = Sink::new(alloc, most, failing, Some(ErrorKind::BrokenPipe));
    let mut err = Sink::new(alloc, 50, 0, None);
    let ending = serve(
        alloc,
        VERSION,
        &arguments,
        &mut input,
        &mut out,
        &mut err,
        &mut folder,
    );
    let is_told = ending.status == 5 && err.bytes.as_slice() == b"afdx: device write\n".as_slice();
    let is_written = Some(out.bytes.as_slice()) == report.as_bytes().get(..written);
    Ok(is_told && is_written && folder.holds(&run.compared(rows), 6))
}

/// Returns the write that fails of the first writer over which a comparison does not do so; none if it does over each.
fn first_uncut(alloc: Global, compared: Compared) -> Result<Option<u64>, AllocError> {
    for writer in WRITERS {
        if !is_cut(alloc, compared, *writer)? {
            return Ok(Some(writer.1));
        }
    }
    Ok(None)
}

#[test]
fn failing_writers_of_reports(rt: HostRuntime) -> Result<(), Fail> {
    for compared in COMPARED {
        let uncut = first_uncut(rt.alloc(), *compared)?;
        assert_eq!(rt; (compared.0, uncut), (compared.0, None));
    }
    Ok(())
}
