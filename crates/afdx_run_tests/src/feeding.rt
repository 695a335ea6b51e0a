//! Captures that are fed to a session piece by piece, while what goes out is taken.

use crate::settings::{Setting, plan};
use afdx_samples::MemoryFile;
use afdx_session::{Outcome, RunFault, Session, run};
use std::alloc::{AllocError, Global};
use std::test::*;

/// Opens a session over the table of a setting.
pub(crate) fn open(alloc: Global, setting: Setting) -> Result<Session<Global>, Fail> {
    let session = Session::new(alloc, plan(alloc, setting)?)?;
    Ok(session)
}

/// What goes out of each port, by rising number, and the report.
#[derive(Drop)]
pub(crate) struct Reported {
    pub(crate) captures: Vec<(u8, Vec<u8>)>,
    pub(crate) report: String,
}

fn into_reported(alloc: Global, outcome: Outcome<Global>) -> Result<Reported, AllocError> {
    let report = outcome.counts.report(alloc)?;
    let Outcome { captures, .. } = outcome;
    Ok(Reported { captures, report })
}

/// Returns what a run over these whole captures gives.
pub(crate) fn whole(
    alloc: Global,
    setting: Setting,
    captures: &[(u8, Vec<u8>)],
) -> Result<Reported, Fail> {
    let outcome = run(alloc, plan(alloc, setting)?, captures)?;
    let reported = into_reported(alloc, outcome)?;
    Ok(reported)
}

/// Feeds a session the next bytes of a port's capture.
pub(crate) fn feed(session: &mut Session<Global>, port: u8, piece: &[u8]) -> Result<(), RunFault> {
    session.feed(port, piece)
}

/// Closes a port's capture.
pub(crate) fn close(session: &mut Session<Global>, port: u8) -> Result<(), RunFault> {
    session.close(port)
}

/// Takes what has gone out of a port.
pub(crate) fn take(session: &mut Session<Global>, port: u8) -> Vec<u8> {
    session.take(port)
}

/// Finishes a session.
pub(crate) fn finish(
    session: Session<Global>,
) -> Result<Outcome<Global>, (RunFault, Session<Global>)> {
    session.finish()
}

/// Finishes a session, and returns what that gives if it has an outcome.
pub(crate) fn rest(alloc: Global, session: Session<Global>) -> Option<Reported> {
    match finish(session) {
        Ok(outcome) => into_reported(alloc, outcome).ok(),
        Err(_) => None,
    }
}

/// What is left of a port's capture, and what was taken of its output.
#[derive(Drop)]
pub(crate) struct Intake<'a> {
    port: u8,
    left: &'a [u8],
    closed: bool,
    taken: MemoryFile<Global>,
}

/// Makes the intakes of these captures, of which nothing has come yet.
pub(crate) fn intakes<'a>(
    alloc: Global,
    captures: &'a [(u8, Vec<u8>)],
) -> Result<Vec<Intake<'a>>, AllocError> {
    let mut intakes = Vec::new(alloc);
    for (port, text) in captures {
        let taken = MemoryFile {
            bytes: Vec::new(alloc),
        };
        intakes.push(Intake {
            port: *port,
            left: text,
            closed: false,
            taken,
        })?;
    }
    Ok(intakes)
}

/// Feeds a piece of a port's capture, and ends the capture if it is the last one.
fn bring(
    session: &mut Session<Global>,
    port: u8,
    piece: &[u8],
    last: bool,
) -> Result<(), RunFault> {
    feed(session, port, piece)?;
    if last { close(session, port) } else { Ok(()) }
}

/// Feeds the next bytes of a capture that has not ended, so many at most, and ends it with the last of them.
fn feed_more(
    session: &mut Session<Global>,
    intake: &mut Intake<'_>,
    size: usize,
) -> Result<(), RunFault> {
    if intake.closed {
        return Ok(());
    }
    let (piece, left) = intake.left.split_at(size.min(intake.left.len()));
    intake.left = left;
    intake.closed = left.is_empty();
    bring(session, intake.port, piece, intake.closed)
}

/// Feeds the capture at a place in the same way, if there is one; that of port 1 is the first.
pub(crate) fn feed_at(
    session: &mut Session<Global>,
    intakes: &mut [Intake<'_>],
    place: usize,
    size: usize,
) -> Result<(), RunFault> {
    match intakes.get_mut(place) {
        Some(intake) => feed_more(session, intake, size),
        None => Ok(()),
    }
}

/// Takes what has gone out of a port.
fn take_more(session: &mut Session<Global>, intake: &mut Intake<'_>) -> Result<(), AllocError> {
    let bytes = take(session, intake.port);
    intake.taken.bytes.extend_from_slice(&bytes)
}

/// Takes what has gone out of the port at a place, if there is one.
pub(crate) fn take_at(
    session: &mut Session<Global>,
    intakes: &mut [Intake<'_>],
    place: usize,
) -> Result<(), AllocError> {
    match intakes.get_mut(place) {
        Some(intake) => take_more(session, intake),
        None => Ok(()),
    }
}

pub(crate) fn are_closed(intakes: &[Intake<'_>]) -> bool {
    intakes.iter().all(|intake| intake.closed)
}

/// Appends what has gone out of each port to its file, and returns whether nothing is left to be taken then.
fn write_all(
    session: &mut Session<Global>,
    intakes: &mut [Intake<'_>],
) -> Result<bool, AllocError> {
    let mut right = true;
    for intake in intakes.iter_mut() {
        session.take_into(intake.port, &mut intake.taken)?;
        right = session.take(intake.port).is_empty() && right;
    }
    Ok(right)
}

fn are_others_closed(intakes: &[Intake<'_>], port: u8) -> bool {
    intakes
        .iter()
        .all(|intake| intake.port == port || intake.closed)
}

/// Feeds pieces of the capture that holds back the output, until all have ended, but no more than 100,000. After each, what has
/// gone out goes to the files. Returns whether nothing is left of it, and the session says rightly when the capture is the last
/// one.
pub(crate) fn feed_waited(
    session: &mut Session<Global>,
    intakes: &mut [Intake<'_>],
    size: usize,
) -> Result<bool, RunFault> {
    let mut right = true;
    for _ in 0..100_000 {
        let Some(port) = session.waits_for() else {
            break;
        };
        right = session.is_last(port) == are_others_closed(intakes, port) && right;
        feed_at(session, intakes, usize::from(port).saturating_sub(1), size)?;
        right = write_all(session, intakes)? && right;
    }
    Ok(right && are_closed(intakes))
}

/// Returns whether what was taken of a port and then this rest is this text.
fn is_joined(taken: &[u8], rest: &[u8], text: &[u8]) -> bool {
    text.len() == taken.len() + rest.len() && text.starts_with(taken) && text.ends_with(rest)
}

/// Returns whether what was taken of each port and then left at the end is what the whole run gives, and the reports are the same.
pub(crate) fn agree(intakes: &[Intake<'_>], rest: &Reported, whole: &Reported) -> bool {
    if rest.captures.len() != intakes.len() || whole.captures.len() != intakes.len() {
        return false;
    }
    let mut place = 0usize;
    for intake in intakes {
        let (left, text) = (rest.captures.get(place), whole.captures.get(place));
        let same = match (left, text) {
            (Some(left), Some(text)) => is_joined(&intake.taken.bytes, &left.1, &text.1),
            _ => false,
        };
        if !same {
            return false;
        }
        place = place.saturating_add(1);
    }
    rest.report.as_str() == whole.report.as_str()
}
