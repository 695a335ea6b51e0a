//! The numbers of a link at an output port.

ghost use Rattle.std.specs.Prelude.{◌≡◌, ◌+◌, min, max};
ghost use Rattle.afdx_following.specs.Tally.{up, widened, no_events, with_event, passed_in, seen_in, conforms_in};

use afdx_pairing::Event;

/// The least and the greatest of some delays, in nanoseconds.
#[derive(Clone, Copy, Debug, PartialEq, Eq)]
pub struct Range {
    pub least: u128,
    pub greatest: u128,
}

/// How many frames and records of a link at an output port are what, and the delays of all pairs. Every call is O(1).
#[derive(Clone, Copy, Debug, PartialEq, Eq)]
pub struct Tally {
    /// Frames that left within their bounds.
    pub kept: u64,
    pub early: u64,
    pub late: u64,
    pub missing: u64,
    pub after: u64,
    pub extra: u64,
    pub before: u64,
    /// None if there is no pair.
    pub delays: Option<Range>,
}

/// Returns a count with one more, and no more than the greatest value.
pub(crate) fn up(count: u64) -> u64
    ensures { result ≡ up count }
{
    count.saturating_add(1)
}

impl Range {
    /// Makes the range of one delay.
    fn of(delay: u128) -> Range
        ensures { result ≡ record { least = delay; greatest = delay } }
    {
        Range {
            least: delay,
            greatest: delay,
        }
    }

    /// Returns the range with one delay more.
    fn with(self, delay: u128) -> Range
        ensures { result ≡ record { least = min self.least delay; greatest = max self.greatest delay } }
    {
        Range {
            least: self.least.min(delay),
            greatest: self.greatest.max(delay),
        }
    }
}

impl Tally {
    /// Makes the tally of no frames and no records.
    pub(crate) fn none() -> Tally
        ensures { result ≡ no_events }
    {
        Tally {
            kept: 0,
            early: 0,
            late: 0,
            missing: 0,
            after: 0,
            extra: 0,
            before: 0,
            delays: None,
        }
    }

    /// Counts an event. A counter stops at its greatest value.
    pub(crate) fn note(&mut self, event: &Event)
        ensures { self.new ≡ with_event event.now self.old }
    {
        match *event {
            Event::Kept(pair) => {
                self.kept = up(self.kept);
                self.widen(pair.delay);
            }
            Event::Early(pair) => {
                self.early = up(self.early);
                self.widen(pair.delay);
            }
            Event::Late(pair) => {
                self.late = up(self.late);
                self.widen(pair.delay);
            }
            Event::Missing(_) => self.missing = up(self.missing),
            Event::After(_) => self.after = up(self.after),
            Event::Extra(_, _) => self.extra = up(self.extra),
            Event::Before(_) => self.before = up(self.before),
        }
    }

    /// Takes the delay of one more pair.
    fn widen(&mut self, delay: u128)
        ensures { self.new ≡ record self.old { delays = widened self.old.delays delay } }
    {
        self.delays = Some(match self.delays {
            Some(range) => range.with(delay),
            None => Range::of(delay),
        });
    }

    /// Returns how many frames the account passed.
    pub fn passed(&self) -> u128
        ensures { result ≡ passed_in self.now }
    {
        self.pairs() + u128::from(self.missing) + u128::from(self.after)
    }

    /// Returns how many records left.
    pub fn seen(&self) -> u128
        ensures { result ≡ seen_in self.now }
    {
        self.pairs() + u128::from(self.extra) + u128::from(self.before)
    }

    /// Returns how many frames were paired.
    fn pairs(&self) -> u128
        ensures { result ≡ self.now.kept + self.now.early + self.now.late }
    {
        u128::from(self.kept) + u128::from(self.early) + u128::from(self.late)
    }

    /// Returns whether nothing speaks against the switch.
    pub fn conforms(&self) -> bool
        ensures { result ≡ conforms_in self.now }
    {
        self.missing == 0 && self.extra == 0 && self.early == 0 && self.late == 0
    }
}
