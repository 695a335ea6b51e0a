//! Readers and writers that fail, under each command. Values from outside: bytes of pcap 2.4 captures, printed lines, how much
//! a writer takes.

use crate::devices::{Interrupted, Sink, Source};
use afdx_fixtures::{CHECKED, LINK_10, MemoryFolder, OneFrame, RUN, VERSION, answer_over, split};
use afdx_messages::Ending;
use afdx_samples::{capture, large};
use afdx_serve::serve;
use std::alloc::{AllocError, Global};
use std::io::{ErrorKind, Read};
use std::test::Fail;

/// Each command, and how many files of the run of one frame are there once it is done.
const COMMANDS: &[(&str, usize)] = &[
    ("afdx --help", 3),
    (LINK_10, 3),
    ("afdx check t", 3),
    ("afdx size t", 3),
    (CHECKED, 5),
    (RUN, 5),
];

/// Those that read no input.
const WITHOUT_INPUT: &[(&str, usize)] = &[
    ("afdx --help", 3),
    ("afdx check t", 3),
    ("afdx size t", 3),
    (CHECKED, 5),
    (RUN, 5),
];

/// A writer for the line: how many bytes it takes at once, the call that fails, and whether it takes the line.
type LineWriter = (usize, u64, bool);

/// One that takes the line: reading up to the greatest number of turns takes its time.
const SOUND_WRITER: LineWriter = (50, 0, true);

const LINE_WRITERS: &[LineWriter] = &[(50, 0, true), (1, 0, true), (0, 0, false), (50, 1, false)];

/// A writer for standard output: how many bytes it takes at once, the call that fails and how, and how many bytes are written if not all are.
type OutWriter = (usize, u64, Option<ErrorKind>, Option<usize>);

const BROKEN: Option<ErrorKind> = Some(ErrorKind::BrokenPipe);

const AGAIN: Option<ErrorKind> = Some(ErrorKind::Interrupted);

const OUT_WRITERS: &[OutWriter] = &[
    (50, 0, None, None),
    (1, 0, None, None),
    (50, 100, BROKEN, None),
    (0, 0, None, Some(0)),
    (50, 1, BROKEN, Some(0)),
    (50, 1, AGAIN, Some(0)),
    (50, 1, None, Some(0)),
    (50, 2, BROKEN, Some(50)),
    (50, 2, AGAIN, Some(50)),
    (50, 2, None, Some(50)),
    (1, 8, BROKEN, Some(7)),
    (1, 24, None, Some(23)),
];

/// Serves a command, and returns how it ended and what is on standard error.
fn served<R: Read>(
    alloc: Global,
    line: &str,
    input: &mut R,
    out: &mut Sink,
    folder: &mut MemoryFolder<Global>,
    writer: LineWriter,
) -> Result<(Ending, Vec<u8>), AllocError> {
    let arguments = split(alloc, line)?;
    let mut err = Sink::new(alloc, writer.0, writer.1, BROKEN);
    let ending = serve(alloc, VERSION, &arguments, input, out, &mut err, folder);
    Ok((ending, err.bytes))
}

/// Returns what a writer for the line holds then.
fn reported(line: &'static str, writer: LineWriter) -> &'static [u8] {
    if writer.2 { line.as_bytes() } else { b"" }
}

/// Returns how a command ends over a writer for the line: with this status, and whether the line, if there is one, was taken.
fn ending(status: u8, writer: LineWriter) -> Ending {
    Ending {
        status,
        is_told: status == 0 || writer.2,
    }
}

/// What is to be seen of a command: how it ends, what standard output took, what a writer for the line took, and how many files of
/// the run of one frame are there.
#[derive(Clone, Copy)]
struct Wanted<'a> {
    ending: Ending,
    out: Option<&'a [u8]>,
    err: &'a [u8],
    files: usize,
}

impl Wanted<'_> {
    /// Returns whether a command ended as wanted, and standard output and the writer for the line took what is wanted.
    fn is_seen(&self, got: &(Ending, Vec<u8>), out: &Sink) -> bool {
        got.0 == self.ending
            && Some(out.bytes.as_slice()) == self.out
            && got.1.as_slice() == self.err
    }
}

/// Returns whether what is wanted is seen of a command over the run of one frame.
fn shows<R: Read>(
    run: &OneFrame,
    alloc: Global,
    line: &str,
    input: &mut R,
    mut out: Sink,
    writer: LineWriter,
    wanted: &Wanted,
) -> Result<bool, AllocError> {
    let mut folder = run.sound()?;
    let got = served(alloc, line, input, &mut out, &mut folder, writer)?;
    let is_seen = wanted.is_seen(&got, &out);
    let is_left = folder.holds(&run.files(), wanted.files);
    Ok(is_seen && is_left)
}

/// Returns what a command writes if nothing fails.
fn written(run: &OneFrame, alloc: Global, line: &str) -> Result<Vec<u8>, AllocError> {
    let mut folder = run.sound()?;
    Ok(answer_over(alloc, line, run.came(), &mut folder)?.out)
}

/// Returns whether a command over the run of one frame writes so much to this writer, and the line to that one.
fn is_written(
    alloc: Global,
    (line, files): (&str, usize),
    (most, failing, kind, written_before): OutWriter,
    writer: LineWriter,
) -> Result<bool, AllocError> {
    let run = OneFrame::new(alloc)?;
    let whole = written(&run, alloc, line)?;
    let (status, count, said) = match written_before {
        None => (0, whole.len(), ""),
        Some(count) => (5, count, "afdx: device write\n"),
    };
    let wanted = Wanted {
        ending: ending(status, writer),
        out: whole.get(..count),
        err: reported(said, writer),
        files,
    };
    let mut reader = run.came();
    let out = Sink::new(alloc, most, failing, kind);
    shows(&run, alloc, line, &mut reader, out, writer, &wanted)
}

/// Returns whether it does so beside each writer for the line.
fn is_written_beside_each(
    alloc: Global,
    command: (&str, usize),
    out: OutWriter,
) -> Result<bool, AllocError> {
    let mut all = true;
    for writer in LINE_WRITERS {
        all = is_written(alloc, command, out, *writer)? && all;
    }
    Ok(all)
}

/// Returns how many bytes the first writer takes at once over which a command does not do so, and its write that fails; none if it does over
/// each.
fn first_unwritten(
    alloc: Global,
    command: (&str, usize),
) -> Result<Option<(usize, u64)>, AllocError> {
    for out in OUT_WRITERS {
        if !is_written_beside_each(alloc, command, *out)? {
            return Ok(Some((out.0, out.1)));
        }
    }
    Ok(None)
}

#[test]
fn failing_streams_at_a_writer(rt: HostRuntime) -> Result<(), Fail> {
    for command in COMMANDS {
        let unwritten = first_unwritten(rt.alloc(), *command)?;
        assert_eq!(rt; (command.0, unwritten), (command.0, None));
    }
    Ok(())
}

/// The read that fails and how, and whether the capture of 100 bytes is answered for: the 16th finds its end.
const READERS: &[(u64, ErrorKind, bool)] = &[
    (0, ErrorKind::BrokenPipe, true),
    (1, ErrorKind::Interrupted, true),
    (2, ErrorKind::Interrupted, true),
    (16, ErrorKind::Interrupted, true),
    (17, ErrorKind::BrokenPipe, true),
    (1, ErrorKind::BrokenPipe, false),
    (2, ErrorKind::BrokenPipe, false),
    (15, ErrorKind::BrokenPipe, false),
    (16, ErrorKind::BrokenPipe, false),
];

/// Returns whether the policing of a link is answered for as it should be if this read fails so, and this writer takes the line if it should.
fn is_read(
    alloc: Global,
    failing: u64,
    kind: ErrorKind,
    done: bool,
    writer: LineWriter,
) -> Result<bool, AllocError> {
    let run = OneFrame::new(alloc)?;
    let (status, count, said) = if done {
        (0, run.came().len(), "")
    } else {
        (5, 0, "afdx: device read\n")
    };
    let wanted = Wanted {
        ending: ending(status, writer),
        out: run.came().get(..count),
        err: reported(said, writer),
        files: 3,
    };
    let mut reader = Source::new(run.came(), failing, kind);
    let out = Sink::new(alloc, 50, 0, None);
    shows(&run, alloc, LINK_10, &mut reader, out, writer, &wanted)
}

/// Returns whether it is so with each writer for the line.
fn is_read_beside_each(
    alloc: Global,
    failing: u64,
    kind: ErrorKind,
    done: bool,
) -> Result<bool, AllocError> {
    let mut all = true;
    for writer in LINE_WRITERS {
        all = is_read(alloc, failing, kind, done, *writer)? && all;
    }
    Ok(all)
}

#[test]
fn failing_streams_at_a_reader(rt: HostRuntime) -> Result<(), Fail> {
    for (failing, kind, done) in READERS {
        assert!(rt;
            is_read_beside_each(rt.alloc(), *failing, *kind, *done)?,
            "read {failing}"
        );
    }
    Ok(())
}

/// Returns whether a command that reads nothing is done over a reader whose first read fails.
fn reads_nothing(alloc: Global, line: &str, files: usize) -> Result<bool, AllocError> {
    let run = OneFrame::new(alloc)?;
    let whole = written(&run, alloc, line)?;
    let wanted = Wanted {
        ending: ending(0, SOUND_WRITER),
        out: Some(&whole),
        err: b"",
        files,
    };
    let mut reader = Source::new(b"", 1, ErrorKind::BrokenPipe);
    let out = Sink::new(alloc, 50, 0, None);
    let is_shown = shows(&run, alloc, line, &mut reader, out, SOUND_WRITER, &wanted)?;
    Ok(is_shown && reader.calls == 0)
}

#[test]
fn reads_for_alone_only(rt: HostRuntime) -> Result<(), Fail> {
    for (line, files) in WITHOUT_INPUT {
        assert!(rt; reads_nothing(rt.alloc(), line, *files)?, "{line}");
    }
    Ok(())
}

/// Returns whether the policing of a link gives up over a reader of which every read is interrupted.
fn gives_up(alloc: Global) -> Result<bool, AllocError> {
    let run = OneFrame::new(alloc)?;
    let wanted = Wanted {
        ending: ending(5, SOUND_WRITER),
        out: Some(b""),
        err: b"afdx: device read\n",
        files: 3,
    };
    let out = Sink::new(alloc, 50, 0, None);
    let mut reader = Interrupted;
    shows(
        &run,
        alloc,
        LINK_10,
        &mut reader,
        out,
        SOUND_WRITER,
        &wanted,
    )
}

#[test]
fn failing_streams_where_every_read_is_interrupted(rt: HostRuntime) -> Result<(), Fail> {
    assert!(rt; gives_up(rt.alloc())?);
    Ok(())
}

/// Returns a capture of sixty records of 1530 bytes, a gap apart.
fn sixty_frames(alloc: Global) -> Result<Vec<u8>, AllocError> {
    let mut came = Vec::new(alloc);
    for number in 0..60u32 {
        came.push(large(10, number.saturating_mul(1_000_000)))?;
    }
    capture(alloc, &came)
}

/// The write that fails, the status, how many writes there are and how many bytes are written.
const TURNS: &[(u64, u8, u64, usize)] = &[(0, 0, 2, 91_824), (1, 5, 1, 0), (2, 5, 2, 65_536)];

/// Returns whether the policing of a capture, if the write of this number fails, has this status and so many writes, and exactly
/// the first so many of its bytes are written.
fn is_in_turns(
    alloc: Global,
    failing: u64,
    status: u8,
    calls: u64,
    written: usize,
) -> Result<bool, AllocError> {
    let input = sixty_frames(alloc)?;
    let mut reader = input.as_slice();
    let mut out = Sink::new(alloc, 65_536, failing, BROKEN);
    let mut folder = MemoryFolder::new(alloc);
    let writer = SOUND_WRITER;
    let got = served(alloc, LINK_10, &mut reader, &mut out, &mut folder, writer)?;
    let is_written = Some(out.bytes.as_slice()) == input.get(..written);
    Ok(is_written && got.0.status == status && out.calls == calls)
}

/// Checks an answer that is written in turns: the writer takes 65,536 bytes at a time, and the answer has more.
#[test]
fn writes_a_long_answer_in_turns(rt: HostRuntime) -> Result<(), Fail> {
    for (failing, status, calls, written) in TURNS {
        assert!(rt;
            is_in_turns(rt.alloc(), *failing, *status, *calls, *written)?,
            "write {failing}"
        );
    }
    Ok(())
}

/// Returns whether no words at all, not even the program's name, are wrong arguments.
fn refuses_no_words(alloc: Global) -> Result<bool, AllocError> {
    let mut folder = MemoryFolder::new(alloc);
    let got = answer_over(alloc, "", b"", &mut folder)?;
    Ok(got.is(2, b"", b"afdx: usage\n"))
}

#[test]
fn no_words(rt: HostRuntime) {
    assert!(rt; refuses_no_words(rt.alloc()) == Ok(true));
}
