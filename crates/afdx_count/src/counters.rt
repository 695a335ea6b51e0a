//! Counters, each of which stays at its greatest value.

ghost use Rattle.std.specs.Prelude.{◌≡◌, [], ◌∷◌};
ghost use Rattle.afdx_count.specs.Counting.{up, greatest_count, with_verdict, with_fate, with_answers, more_sent, more_aged};
ghost use Rattle.afdx_units.specs.declared.line.Priority.TheVariants.{High, Low};

use afdx_core::Fate;
use afdx_filter::Verdict;
use afdx_port::{Aged, Offer, Sent};
use afdx_units::Priority;

/// The arrivals at a port: all, those with each refusal of the filter, and the clean ones.
#[derive(Clone, Copy, Debug, Default, PartialEq, Eq)]
pub struct InCount {
    /// All arrivals.
    pub seen: u64,
    pub cut: u64,
    pub short: u64,
    pub long: u64,
    pub foreign: u64,
    pub no_link: u64,
    pub wrong_port: u64,
    pub too_big: u64,
    /// Those that are frames of a link, whether its account passed them or not.
    pub clean: u64,
}

/// The clean frames of a link.
#[derive(Clone, Copy, Debug, Default, PartialEq, Eq)]
pub struct LinkCount {
    /// Those that the link's account passed.
    pub passed: u64,
    /// Those that it did not pass.
    pub policed: u64,
}

/// The copies of a priority at an output port.
#[derive(Clone, Copy, Debug, Default, PartialEq, Eq)]
pub struct OutCount {
    /// All that were offered to the port.
    pub offered: u64,
    /// Those that the buffer had no room for.
    pub full: u64,
    /// Those that were discarded for their age.
    pub aged: u64,
    /// Those that were sent.
    pub sent: u64,
}

/// Adds one to a counter, unless it is at its greatest value.
fn up(count: u64) -> u64
    ensures { result ≡ up count }
{
    count.saturating_add(1)
}

/// Gives a counter its greatest value.
///
/// It is apart and cold, so that [`count_one`] is one addition in memory and one test: what a processor would choose from
/// two values takes three instructions more, for each counter of each frame and copy.
#[cold]
#[inline(never)]
fn stay(counter: &mut u64)
    ensures { counter.new ≡ greatest_count }
{
    *counter = u64::MAX;
}

/// Adds one to a counter where it lies, unless it is at its greatest value.
#[inline(always)]
pub(crate) fn count_one(counter: &mut u64)
    ensures { counter.new ≡ up counter.old }
{
    let next = counter.wrapping_add(1);
    *counter = next;
    if next == 0 {
        stay(counter);
    }
}

impl InCount {
    /// Counts what the filter says of an arrival.
    fn note_verdict(&mut self, verdict: Verdict)
        ensures { self.new ≡ with_verdict verdict self.old }
    {
        match verdict {
            Verdict::Cut => count_one(&mut self.cut),
            Verdict::Short => count_one(&mut self.short),
            Verdict::Long => count_one(&mut self.long),
            Verdict::Foreign => count_one(&mut self.foreign),
            Verdict::NoLink => count_one(&mut self.no_link),
            Verdict::WrongPort => count_one(&mut self.wrong_port),
            Verdict::TooBig => count_one(&mut self.too_big),
            Verdict::Clean(_) => count_one(&mut self.clean),
        }
    }

    /// Counts an arrival.
    pub(crate) fn note(&mut self, fate: Fate)
        ensures { self.new ≡ with_fate fate self.old }
    {
        count_one(&mut self.seen);
        match fate {
            Fate::Filtered(verdict) => self.note_verdict(verdict),
            Fate::Policed(link) => self.note_verdict(Verdict::Clean(link)),
            Fate::Passed(link) => self.note_verdict(Verdict::Clean(link)),
        }
    }
}

impl OutCount {
    /// Counts a copy that was offered.
    pub(crate) fn note(&mut self, offer: Offer)
        ensures { self.new ≡ with_answers (offer ∷ []) self.old }
    {
        // Read at either answer: that a number behind a reference is in its range is known once it is read.
        let _full = self.full;
        count_one(&mut self.offered);
        match offer {
            Offer::Full => count_one(&mut self.full),
            Offer::Queued => {}
        }
    }
}

/// Adds sent copies to the counters of the high ones and of the low ones. It is one pass over the list, which is long.
pub(crate) fn more_sent(high: u64, low: u64, sent: &[Sent]) -> (u64, u64)
    ensures high { result.0 ≡ more_sent high High sent.now }
    ensures low { result.1 ≡ more_sent low Low sent.now }
{
    let mut of_high = high;
    let mut of_low = low;
    for one in sent {
        match one.item.priority {
            Priority::High => of_high = up(of_high),
            Priority::Low => of_low = up(of_low),
        }
    }
    (of_high, of_low)
}

/// Adds discarded copies to the counters of the high ones and of the low ones.
pub(crate) fn more_aged(high: u64, low: u64, aged: &[Aged]) -> (u64, u64)
    ensures high { result.0 ≡ more_aged high High aged.now }
    ensures low { result.1 ≡ more_aged low Low aged.now }
{
    let mut of_high = high;
    let mut of_low = low;
    for one in aged {
        match one.item.priority {
            Priority::High => of_high = up(of_high),
            Priority::Low => of_low = up(of_low),
        }
    }
    (of_high, of_low)
}
