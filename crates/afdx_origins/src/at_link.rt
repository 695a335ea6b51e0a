//! What is known of one link at one switch.

ghost use Rattle.std.specs.Prelude.{◌≡◌, ◌↔◌, ◌+◌, ◌<◌, false, List, [], ◌∷◌, ◌++◌, length, slice_index_or, IfNone, IfOk, IfSome, IsTrue, OnErr, OnOk, Contains};
ghost use Rattle.afdx_measure.specs.declared.delays.Delays.{Delays as Summary};
ghost use Rattle.afdx_measure.specs.Delays.{summary_of};
ghost use Rattle.afdx_origins.specs.Origins.{kept_for};
ghost use Rattle.afdx_origins.specs.declared.at_link.Coming.{Coming as Seen};
ghost use Rattle.afdx_origins.specs.Inner.Known.{ArePast, NoneCame, IsFreshLink, HasJoined, HasMore};

use afdx_measure::Delays;
use afdx_units::Stamp;
use std::alloc::{AllocError, Global};
use std::collections::VecDeque;

/// Nanoseconds after which no copy of a frame can leave a switch any more: one that is older than half a second is discarded, and the rest
/// is longer than any latency, line time, wire and window.
const KEPT: u64 = 600_000_000;

/// A frame that came over a wire: when it came, and when it had come to its first switch.
#[derive(Clone, Copy, Debug, PartialEq, Eq)]
pub(crate) struct Coming {
    pub(crate) at: Stamp,
    pub(crate) first: Stamp,
}

/// What is known of a link at a switch: the frames that came for it over a wire and may still be there, the first one first, and the
/// delays at each of its output ports, by their places in its row.
#[derive(Drop)]
pub(crate) struct AtLink {
    coming: VecDeque<Coming>,
    delays: Vec<Delays>,
}

/// Returns whether so much time has gone from an instant to another one that no copy of a frame that came at the former can leave any more.
fn is_past(at: Stamp, now: Stamp) -> bool
    ensures { IsTrue result ↔ (at + kept_for < now) }
{
    at.ns().saturating_add(KEPT) < now.ns()
}

/// Returns when the one of these frames that came at an instant had come to its first switch, if there is one. They are looked through from
/// the last one back, since copies do not wait for long. O(frames that came later).
fn first_in(frames: &[Coming], at: Stamp) -> Option<Stamp>
    ensures came { IfSome result (λ first. Contains frames.now (record { at = at; first = first })) }
    ensures none { IfNone result (NoneCame frames.now at) }
{
    let mut place = frames.len();
    while place > 0 {
        place -= 1;
        let coming = frames[place];
        if coming.at == at {
            return Some(coming.first);
        }
    }
    None
}

impl AtLink {
    /// Makes a link of which nothing is known, with so many output ports.
    ///
    /// An error says that memory ran out. O(ports), 32 bytes for each.
    pub(crate) fn new(alloc: Global, ports: usize) -> Result<AtLink, AllocError>
        ensures { IfOk result (IsFreshLink ports) }
    {
        Ok(AtLink {
            coming: VecDeque::new(alloc),
            delays: vec![in alloc; Delays::none(); ports]?,
        })
    }

    /// Returns when the frame that came at an instant had come to its first switch; none if no such frame is known. O(frames that came
    /// later).
    pub(crate) fn first_of(&self, at: Stamp) -> Option<Stamp>
        ensures came { IfSome result (λ first. Contains self.now.coming.items (record { at = at; first = first })) }
        ensures none { IfNone result (NoneCame self.now.coming.items at) }
    {
        let (front, back) = self.coming.as_slices();
        match first_in(back, at) {
            Some(first) => Some(first),
            None => first_in(front, at),
        }
    }

    /// Forgets the first frame, if no copy of it can leave after an instant. Returns whether it did.
    fn forget_one(&mut self, now: Stamp) -> bool
        ensures delays { self.new.delays ≡ self.old.delays }
        ensures some { IsTrue result → (gone : Seen) × (self.old.coming.items ≡ gone ∷ self.new.coming.items) × (gone.at + kept_for < now) }
        ensures none { result ≡ false → self.new.coming.items ≡ self.old.coming.items }
    {
        let Some(first) = self.coming.front() else {
            return false;
        };
        if !is_past(first.at, now) {
            return false;
        }
        let _gone = self.coming.pop_front();
        true
    }

    /// Forgets the frames of which no copy can leave after an instant.
    fn forget(&mut self, now: Stamp)
        ensures delays { self.new.delays ≡ self.old.delays }
        ensures coming { (gone : List Seen) × (self.old.coming.items ≡ gone ++ self.new.coming.items) × ArePast now gone }
    {
        while self.forget_one(now) {}
    }

    /// Adds one frame that came over a wire.
    ///
    /// An error says that memory ran out. O(1), over all calls.
    pub(crate) fn add(&mut self, coming: Coming) -> Result<(), AllocError>
        ensures delays { self.new.delays ≡ self.old.delays }
        ensures coming { OnOk result (HasJoined coming self.old.coming.items self.new.coming.items) }
    {
        self.forget(coming.at);
        self.coming.reserve(1)?;
        self.coming.push_back_reserved(coming);
        Ok(())
    }

    /// Notes the delay of a copy that the port at a place sent.
    ///
    /// An error says that a count would pass 2^64 - 1, or that there is no such port. O(1).
    pub(crate) fn note(&mut self, place: usize, delay: u64) -> Result<(), AllocError>
        ensures coming { self.new.coming ≡ self.old.coming }
        ensures delays { OnOk result (HasMore place delay self.old.delays.items self.new.delays.items) }
        ensures full { OnErr result ((d : Summary) → place < length self.old.delays.items → (slice_index_or self.old.delays.items place d).count ≡ 18446744073709551615) }
    {
        if place >= self.delays.len() {
            return Err(AllocError);
        }
        self.delays[place] = self.delays[place].with(delay)?;
        Ok(())
    }

    /// Returns the delays at the port at a place; those of no copies if there is no such port. O(1).
    pub(crate) fn delays_at(&self, place: usize) -> Delays
        ensures { result ≡ slice_index_or self.now.delays.items place (summary_of []) }
    {
        match self.delays.get(place) {
            Some(delays) => *delays,
            None => Delays::none(),
        }
    }
}
