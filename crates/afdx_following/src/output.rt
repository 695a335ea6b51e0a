//! What left for a link at one output port.

ghost use Rattle.std.specs.Prelude.{◌≡◌, ◌≤◌, [], length, slice_get, OnOk};
ghost use Rattle.std.specs.List.{AllByRecursion};
ghost use Rattle.afdx_pairing.specs.Kept.{Left};
ghost use Rattle.afdx_following.specs.Output.{output_at, has, is_over, left_by, stamped_by, HasComeBy, with_came, with_waiting, with_sight, settled, paired_up_to, earliest};
ghost use Rattle.afdx_following.specs.Output.{gone_on, last_at, with_end};

use crate::found::Found;
use crate::tally::Tally;
use afdx_pairing::{Event, Limits, Numbered, Pairing, Queue};
use std::alloc::{AllocError, Allocator};
use std::marker::Model;

/// One output port of a link: the records that left there and are not paired yet, and what was found out.
#[derive(Drop)]
pub struct Output<'a, A: Allocator> {
    port: u8,
    limits: Limits,
    pairing: Pairing<'a, A>,
    waiting: Queue<'a, A>,
    found: Found<A>,
    /// What the last call told, before it is counted; between calls nothing.
    told: Vec<Event, A>,
}

impl<'a, A: Allocator> Model for Output<'a, A> {
    ghost use Rattle.std.specs.Prelude.{◌≡◌, []};
    ghost use Rattle.afdx_following.specs.Output.{Output as Seen};

    ghost Value = { Seen };

    ghost view = { λ o. record { port = o.port; limits = o.limits; pairing = o.pairing; waiting = o.waiting; found = o.found } };

    ghost invariant = { λ o. o.told.items ≡ [] };
}

impl<'a, A: Allocator + Copy> Output<'a, A> {
    /// Makes the port of this number, at which nothing has left. If it `keeps`, each event that speaks against the switch is listed. It takes no
    /// memory. O(1).
    pub fn new(alloc: A, port: u8, limits: Limits, keeps: bool) -> Output<'a, A>
        ensures { result ≡ output_at port limits keeps }
    {
        Output {
            port,
            limits,
            pairing: Pairing::new(alloc, limits),
            waiting: Queue::new(alloc),
            found: Found::new(alloc, keeps),
            told: Vec::new(alloc),
        }
    }

    /// Returns its number. O(1).
    pub fn port(&self) -> u8
        ensures { result ≡ self.now.port }
    {
        self.port
    }

    /// Returns the limits of the link at the port. O(1).
    pub fn limits(&self) -> Limits
        ensures { result ≡ self.now.limits }
    {
        self.limits
    }

    /// Returns what was found out so far, in numbers. O(1).
    pub fn tally(&self) -> &Tally
        ensures { result.now ≡ self.now.found.tally }
    {
        self.found.tally()
    }

    /// Returns what speaks against the switch so far, in the order in which it was found; nothing if that is not kept. O(1).
    pub fn differences(&self) -> &[Event]
        ensures { result.now ≡ self.now.found.differences }
    {
        self.found.differences()
    }

    /// Returns whether a record that waits may be of a frame. O(bytes * log of the records).
    pub(crate) fn has(&self, frame: &Numbered<'a, A>) -> bool
        ensures { result ≡ has frame.now self.now }
    {
        let gap = self.limits.gap_time();
        let first = self.limits.soonest(frame).saturating_sub(gap);
        match (u128::from(frame.stamp().ns()) + self.limits.most()).checked_sub(gap) {
            Some(last) => self.waiting.has_within(frame.bytes(), first, last),
            None => false,
        }
    }

    /// Returns whether all records that may be of a frame were taken, if all were that left before an instant. Each counts as left at the latest
    /// instant that its stamp allows.
    pub(crate) fn is_over(&self, frame: &Numbered<'a, A>, at: u128) -> bool
        ensures { result ≡ is_over at frame.now self.now }
    {
        u128::from(frame.stamp().ns()) + self.limits.most() + u128::from(self.limits.tolerance) < at
    }

    /// Returns the latest instant, in nanoseconds, at which by the stamps the line was free again after a record.
    pub(crate) fn left_by(&self, left: &Numbered<'a, A>) -> u128
        ensures { result ≡ left_by left.now self.now }
    {
        self.limits.left_at(left) + u128::from(self.limits.tolerance)
    }

    /// Returns the latest instant, in nanoseconds, at which by the stamps a record was recorded.
    pub(crate) fn stamped_by(&self, left: &Numbered<'a, A>) -> u128
        ensures { result ≡ stamped_by left.now self.now }
    {
        u128::from(left.stamp().ns()) + u128::from(self.limits.tolerance)
    }

    /// Takes a frame that came no sooner than those that are held, and its fate.
    pub(crate) fn came(&mut self, frame: Numbered<'a, A>, passes: bool) -> Result<(), AllocError>
        requires { HasComeBy frame.frame.stamp self.old }
        ensures { OnOk result (self.new ≡ with_came frame.entry passes self.old) }
    {
        self.pairing.came(frame, passes)
    }

    /// Takes a record that left no sooner than those that wait.
    pub(crate) fn left(&mut self, left: Numbered<'a, A>) -> Result<(), AllocError>
        requires { AllByRecursion (λ n. n.frame.stamp ≤ left.frame.stamp) self.old.waiting }
        ensures { OnOk result (self.new ≡ with_waiting left.entry self.old) }
    {
        self.waiting.push(left)
    }

    /// Returns how many of the records that wait left before any frame whose fate is not known. Such a frame comes no sooner than the instant that
    /// is given; if none is, there is no such frame.
    fn settled(&self, unknown: Option<u128>) -> usize
        ensures count { result ≡ settled unknown self.now }
        ensures some { result ≤ length self.now.waiting }
    {
        match unknown {
            Some(stamp) => {
                let late = self.limits.gap_time() + u128::from(self.limits.tolerance);
                self.waiting.sooner_than(stamp.saturating_sub(late))
            }
            None => self.waiting.len(),
        }
    }

    /// Pairs a record.
    fn pair_one(&mut self, left: Numbered<'a, A>) -> Result<(), AllocError>
        ensures { OnOk result (self.new ≡ with_sight (Left left.entry) self.old) }
    {
        self.pairing.left(left, &mut self.told)?;
        self.found.take(&mut self.told)
    }

    /// Pairs the records that left before any frame whose fate is not known; all if there is none.
    pub(crate) fn pair(&mut self, unknown: Option<u128>) -> Result<(), AllocError>
        ensures { OnOk result (self.new ≡ paired_up_to unknown self.old) }
    {
        let count = self.settled(unknown);
        for _ in 0..count {
            if let Some(left) = self.waiting.pop() {
                self.pair_one(left)?;
            }
        }
        Ok(())
    }

    /// Returns the lesser of an instant, in nanoseconds, and that at which the first record that waits left. No record that waits left before it,
    /// nor does any that leaves at the instant or later.
    fn earliest(&self, at: u128) -> u128
        ensures earliest { result ≡ earliest at self.now.limits (slice_get self.now.waiting 0) }
        ensures some { result ≤ at }
    {
        match self.waiting.front() {
            Some(left) => at.min(self.limits.left_at(left)),
            None => at,
        }
    }

    /// Lets go of the frames of which no record can be that waits, or that leaves at an instant or later.
    pub(crate) fn go_on(&mut self, at: u128) -> Result<(), AllocError>
        ensures { OnOk result (self.new ≡ gone_on at self.old) }
    {
        let first = self.earliest(at);
        self.pairing.go_on(
            first.saturating_sub(u128::from(self.limits.tolerance)),
            &mut self.told,
        )?;
        self.found.take(&mut self.told)
    }

    /// Ends the port. Records were recorded up to an instant or, if there is none, all had left.
    pub(crate) fn end(&mut self, last: Option<u64>) -> Result<(), AllocError>
        ensures { OnOk result (self.new ≡ with_end last self.old) }
    {
        let last = self.last_at(last);
        self.pairing.end(last, &mut self.told)?;
        self.found.take(&mut self.told)
    }

    /// Returns the instant, in nanoseconds, up to which the line was free again after records that were recorded up to an instant; none if all had
    /// left.
    fn last_at(&self, last: Option<u64>) -> Option<u128>
        ensures { result ≡ last_at self.now.limits last }
    {
        match last {
            Some(last) => Some(u128::from(last) + self.limits.gap_time()),
            None => None,
        }
    }
}
