//! A session that is fed in pieces, while what goes out is taken.

use crate::allocations::{Calls, Memory, refuse};
use crate::tables::plan_of;
use afdx_samples::{HEADER, Sample, capture, double, port, small};
use afdx_session::{Outcome, RunFault, Session};
use std::alloc::{AllocError, Global};
use std::test::*;

/// A call that brings something.
#[derive(Clone, Copy)]
enum Call {
    /// A piece of a port's capture, which is the text at this place.
    Feed(u8, usize),
    /// The end of a port's capture.
    Close(u8),
}

/// Places of texts.
const EMPTY: usize = 0;

const ONE: usize = 1;

const TWO: usize = 2;

const LEFT: usize = 3;

/// The texts are captures of these frames of size 64: those that come, and what port 3 puts out in the end. Each has its link and
/// its nanoseconds.
const TEXTS: &[&[(u8, u32)]] = &[
    &[],
    &[(10, 0), (10, 1_000_000)],
    &[(20, 500_000)],
    &[(10, 6_720), (20, 506_720), (10, 1_006_720)],
];

/// Calls over a table of three ports, each with its answer and the number of bytes that port 3 has put out in all after it.
const SESSION_ON_D: &[(Call, Result<(), RunFault>, usize)] = &[
    (Call::Feed(1, ONE), Ok(()), 24),
    (Call::Feed(3, EMPTY), Ok(()), 24),
    (Call::Close(3), Ok(()), 24),
    (Call::Feed(2, TWO), Ok(()), 100),
    (Call::Close(1), Ok(()), 100),
    (Call::Close(2), Ok(()), 252),
    (Call::Feed(2, TWO), Err(RunFault::Closed), 252),
    (Call::Feed(9, TWO), Err(RunFault::WrongPorts), 252),
];

/// These calls with these texts.
#[derive(Clone, Copy)]
struct Feeding<'a> {
    alloc: Global,
    table: &'a str,
    texts: &'a [Vec<u8>],
}

/// Returns the text at a place, or no bytes if there is none.
fn text(texts: &[Vec<u8>], place: usize) -> &[u8] {
    match texts.get(place) {
        Some(text) => text,
        None => &[],
    }
}

/// Opens a session over a table that is checked, or none if it is out of memory.
fn open<'a>(
    alloc: Global,
    memory: &'a Memory,
    table: &str,
) -> Result<Option<Session<&'a Memory>>, Fail> {
    let plan = plan_of(alloc, table)?;
    Ok(Session::new(memory, plan).ok())
}

/// Makes a call.
fn bring<'a>(
    session: &mut Session<&'a Memory>,
    texts: &[Vec<u8>],
    call: Call,
) -> Result<(), RunFault> {
    match call {
        Call::Feed(port, place) => session.feed(port, text(texts, place)),
        Call::Close(port) => session.close(port),
    }
}

/// Appends what has gone out of port 3, and returns whether it could.
fn take<'a>(session: &mut Session<&'a Memory>, taken: &mut Vec<u8>) -> bool {
    let bytes = session.take(3);
    taken.extend_from_slice(&bytes).is_ok()
}

/// Makes all the calls, and takes what has gone out after each. Returns whether each answer was right, and so many bytes were
/// taken in all after it, or none if the session is out of memory.
fn bring_all<'a>(
    session: &mut Session<&'a Memory>,
    texts: &[Vec<u8>],
    taken: &mut Vec<u8>,
) -> Option<bool> {
    let mut right = true;
    for (call, wanted, count) in SESSION_ON_D {
        let answer = bring(session, texts, *call);
        if answer == Err(RunFault::Memory) {
            return None;
        }
        right = take(session, taken) && taken.len() == *count && answer == *wanted && right;
    }
    Some(right)
}

/// Returns whether each call but `take` answers that the session has failed.
fn stays_failed<'a>(session: &mut Session<&'a Memory>) -> bool {
    let fed = session.feed(1, &HEADER);
    let closed = session.close(1);
    let failed = Err(RunFault::Failed);
    fed == failed && closed == failed
}

/// Finishes a session.
fn finish<'a>(
    session: Session<&'a Memory>,
) -> Result<Outcome<&'a Memory>, (RunFault, Session<&'a Memory>)> {
    session.finish()
}

/// Returns whether a session that ended with this fault has failed, and the text begins with what was taken in all.
fn fails_so<'a>(
    fault: RunFault,
    session: &mut Session<&'a Memory>,
    taken: &mut Vec<u8>,
    text: &[u8],
) -> bool {
    take(session, taken) && fault == RunFault::Failed && text.starts_with(taken)
}

/// Returns whether a session has failed at its end too, and the text begins with what was taken in all.
fn ends_failed<'a>(session: Session<&'a Memory>, taken: &mut Vec<u8>, text: &[u8]) -> bool {
    match finish(session) {
        Ok(_) => false,
        Err((fault, mut session)) => fails_so(fault, &mut session, taken, text),
    }
}

/// Returns what comes once a session is out of memory: none if it stays failed, and the text begins with what was taken in all.
fn after_failure<'a>(
    mut session: Session<&'a Memory>,
    taken: &mut Vec<u8>,
    text: &[u8],
) -> Option<bool> {
    let failed = stays_failed(&mut session);
    let ended = ends_failed(session, taken, text);
    if failed && ended { None } else { Some(false) }
}

/// Returns whether what was taken, and then what is left of port 3, is this text.
fn completes<'a>(outcome: &Outcome<&'a Memory>, taken: &[u8], text: &[u8]) -> bool {
    match outcome.captures.get(2) {
        Some((_, rest)) => {
            text.starts_with(taken)
                && text.ends_with(rest)
                && text.len() == taken.len() + rest.len()
        }
        None => false,
    }
}

/// Returns what comes after an end that was refused with this fault. If the session is not out of memory, that is wrong.
fn after_end<'a>(
    fault: RunFault,
    session: Session<&'a Memory>,
    taken: &mut Vec<u8>,
    text: &[u8],
) -> Option<bool> {
    if fault == RunFault::Memory {
        after_failure(session, taken, text)
    } else {
        Some(false)
    }
}

/// Returns whether a session ends with this text in all, or none if it is out of memory, after which it stays failed.
fn ends<'a>(session: Session<&'a Memory>, taken: &mut Vec<u8>, text: &[u8]) -> Option<bool> {
    match finish(session) {
        Ok(outcome) => Some(completes(&outcome, taken, text)),
        Err((fault, session)) => after_end(fault, session, taken, text),
    }
}

/// Returns what a session answers at its end, after its calls have answered so.
fn after_calls<'a>(
    answered: Option<bool>,
    session: Session<&'a Memory>,
    taken: &mut Vec<u8>,
    text: &[u8],
) -> Option<bool> {
    match answered {
        Some(_) => ends(session, taken, text),
        None => after_failure(session, taken, text),
    }
}

/// Returns what a session answers to these calls and its end.
fn answers<'a>(
    mut session: Session<&'a Memory>,
    feeding: &Feeding<'_>,
    taken: &mut Vec<u8>,
) -> Option<bool> {
    let answered = bring_all(&mut session, feeding.texts, taken);
    let ended = after_calls(answered, session, taken, text(feeding.texts, LEFT));
    if answered == Some(false) {
        return Some(false);
    }
    ended
}

impl Calls for Feeding<'_> {
    fn answer(&self, memory: &Memory) -> Result<Option<bool>, Fail> {
        let mut taken = Vec::new(self.alloc);
        Ok(match open(self.alloc, memory, self.table)? {
            Some(session) => answers(session, self, &mut taken),
            None => None,
        })
    }
}

/// Returns the capture of these frames of size 64.
fn of_small(alloc: Global, rows: &[(u8, u32)]) -> Result<Vec<u8>, AllocError> {
    let mut frames: Vec<Sample> = Vec::new(alloc);
    for (link, nanos) in rows {
        frames.push(small(*link, *nanos))?;
    }
    capture(alloc, &frames)
}

/// Returns the texts of all calls.
fn all_texts(alloc: Global) -> Result<Vec<Vec<u8>>, AllocError> {
    let mut texts = Vec::new(alloc);
    for rows in TEXTS {
        texts.push(of_small(alloc, rows)?)?;
    }
    Ok(texts)
}

/// Checks a session that allocates for the switch and the counters, for what came, for the records that wait, and for what goes out.
#[test]
fn session_on_d(rt: HostRuntime) -> Result<(), Fail> {
    let alloc = rt.alloc();
    let table = double(alloc, port(3))?;
    let texts = all_texts(alloc)?;
    let calls = Feeding {
        alloc,
        table: &table,
        texts: &texts,
    };
    refuse(&rt, alloc, "Session", &calls, 20)
}
