//! The line, while it is on the terminal.

use crate::line::line;
use std::cell::Cell;
use std::io::Eprint;
use std::time::{Clock, Duration, Instant};

/// After how many milliseconds the line is shown first (profile).
const FIRST_MS: u64 = 1_000;

/// How many milliseconds it stands at least before it is rewritten (profile).
const PAUSE_MS: u64 = 200;

/// What erases the line that the cursor is on, and leaves it at the line's beginning (EL of ECMA-48).
const ERASE: &str = "\r\x1b[K";

/// What a command has read so far, of how much, and the line on standard error that says so.
///
/// The line is `afdx: 1.2 of 2.0 GB, 11 s`, without `of` if one of what is read has no length that is known. It is shown after a
/// second and rewritten in place at most five times a second, whenever something was read. If standard error is no terminal, nothing
/// is ever shown and the clock is not asked. Memory or a clock that is refused, and a terminal that takes nothing, leave a line out and
/// change nothing else.
#[derive(Drop)]
pub struct Progress<'a, R: Clock + Eprint> {
    rt: &'a R,
    /// Since when; none if nothing is to be shown (any more).
    start: Cell<Option<Instant>>,
    read: Cell<u64>,
    whole: Cell<Option<u64>>,
    /// How long after the start the line is to be written next.
    due: Cell<Duration>,
    /// Whether a line is on the terminal.
    is_shown: Cell<bool>,
}

impl<'a, R: Clock + Eprint> Progress<'a, R> {
    /// Makes the progress of a command that begins now and has read nothing so far. O(1).
    pub fn new(rt: &'a R, is_terminal: bool) -> Progress<'a, R> {
        let start = if is_terminal {
            Instant::now(rt).ok()
        } else {
            None
        };
        Progress {
            rt,
            start: Cell::new(start),
            read: Cell::new(0),
            whole: Cell::new(Some(0)),
            due: Cell::new(Duration::from_millis(FIRST_MS)),
            is_shown: Cell::new(false),
        }
    }

    /// Erases the line, and shows none from now on. O(1).
    pub fn end(&self) {
        self.start.set(None);
        if self.is_shown.replace(false) {
            let _ = eprint!(self.rt; "{ERASE}");
        }
    }

    /// Notes that so many bytes more are to be read.
    pub(crate) fn expect(&self, more: u64) {
        if let Some(whole) = self.whole.get() {
            self.whole.set(Some(whole.saturating_add(more)));
        }
    }

    /// Notes that it is not known any more how many bytes are to be read.
    pub(crate) fn expect_unknown(&self) {
        self.whole.set(None);
    }

    /// Returns how much there is to read, as long as that is known and more than what was read.
    fn whole(&self) -> Option<u64> {
        match self.whole.get() {
            Some(whole) if self.read.get() < whole => Some(whole),
            _ => None,
        }
    }

    /// Writes a line over the one that is shown.
    fn show(&self, line: &str) {
        self.is_shown.set(true);
        let _ = eprint!(self.rt; "{ERASE}{line}");
    }
}

impl<R: Clock + Eprint + AllocGlobal> Progress<'_, R> {
    /// Notes that so many bytes more were read, and shows that if it is time.
    pub(crate) fn note(&self, count: usize) {
        let Some(start) = self.start.get() else {
            return;
        };
        self.read.set(self.read.get().saturating_add(count as u64));
        let Ok(elapsed) = start.elapsed(self.rt) else {
            return;
        };
        if elapsed < self.due.get() {
            return;
        }
        self.due
            .set(elapsed.saturating_add(Duration::from_millis(PAUSE_MS)));
        if let Ok(line) = line(
            self.rt.alloc(),
            self.read.get(),
            self.whole(),
            elapsed.as_secs(),
        ) {
            self.show(&line);
        }
    }
}
