//! The pairing of one link at one output port.

ghost use Rattle.std.specs.Prelude.{◌≡◌, ◌+◌, ◌<◌, ◌≤◌, ◌++◌, true, take, drop, length, slice_get, vec_len, vec_capacity, IfSome, OnOk, OnErr};
ghost use Rattle.std.specs.List.{position, list_any, find, AllByRecursion};
ghost use Rattle.std.specs.Option.{option_map};
ghost use Rattle.afdx_pairing.specs.Events.{mark_of};
ghost use Rattle.afdx_pairing.specs.Limits.{left_at, in_bound, came_within};
ghost use Rattle.afdx_pairing.specs.Pairing.{at_first, with_frame, gone_by, gone_told, kept_at, partner, taken_for, taken_alone};
ghost use Rattle.afdx_pairing.specs.Pairing.{missing, paired, taken_with, pairing_told, with_left, left_told, ended, end_told};

use crate::event::{Event, Mark, Pair};
use crate::limits::Limits;
use crate::numbered::Numbered;
use crate::queue::Queue;
use std::alloc::{AllocError, Allocator};
use std::marker::Model;

/// One link at one output port: it is told of the link's frames as they came, with what its account did with each, and of the records
/// that left for the link, and tells what each record is and what became of the frames (profile).
///
/// Frames and records come in the order of stamps, each record after all frames that came up to the instant at which it left. It
/// holds only frames that came within twice the bound before the last record or the instant that it was last told of. A frame is
/// found, taken and let go in O(bytes * log of the frames that are held), whatever these are.
#[derive(Drop)]
pub struct Pairing<'a, A: Allocator> {
    limits: Limits,
    waiting: Queue<'a, A>,
    policed: Queue<'a, A>,
    begun: bool,
}

impl<'a, A: Allocator> Model for Pairing<'a, A> {
    ghost use Rattle.afdx_pairing.specs.Pairing.{Pairing as Seen};

    ghost Value = { Seen };

    ghost view = { λ p. record { limits = p.limits; waiting = p.waiting; policed = p.policed; begun = p.begun } };
}

impl<'a, A: Allocator + Copy> Pairing<'a, A> {
    /// Makes a port at which nothing has come or left. It takes no memory. O(1).
    pub fn new(alloc: A, limits: Limits) -> Pairing<'a, A>
        ensures { result ≡ at_first limits }
    {
        Pairing {
            limits,
            waiting: Queue::new(alloc),
            policed: Queue::new(alloc),
            begun: false,
        }
    }

    /// Takes a frame and whether the account passed it. Fails if memory runs out, and then has not taken it. O(bytes * log of the frames that
    /// are held).
    ///
    /// It came no sooner than those that are held, since these are found by their instants. A link's frames are taken as its capture has them, in
    /// the order of stamps: an account's credit is told in no other order.
    pub fn came(&mut self, frame: Numbered<'a, A>, passes: bool) -> Result<(), AllocError>
        requires waiting { AllByRecursion (λ n. n.frame.stamp ≤ frame.frame.stamp) self.old.waiting }
        requires policed { AllByRecursion (λ n. n.frame.stamp ≤ frame.frame.stamp) self.old.policed }
        ensures ok { OnOk result (self.new ≡ with_frame self.old frame.entry passes) }
        ensures err { OnErr result (self.new ≡ self.old) }
    {
        if passes {
            self.waiting.push(frame)?;
        } else {
            self.policed.push(frame)?;
        }
        Ok(())
    }

    /// Takes a record that left, and adds what it tells: which frames are missing before it, and what it is.
    ///
    /// Fails if memory runs out, and then has not taken it. O(bytes * log of the frames that are held) for the record and for each frame that is
    /// let go, beside what the list takes to grow: it gets room for all frames that wait.
    pub fn left(
        &mut self,
        left: Numbered<'a, A>,
        events: &mut Vec<Event, A>,
    ) -> Result<(), AllocError>
        ensures ok { OnOk result (self.new ≡ with_left self.old left.entry) }
        ensures told { OnOk result (events.new.items ≡ events.old.items ++ left_told self.old left.entry) }
        ensures err { OnErr result (self.new ≡ self.old) }
        ensures untold { OnErr result (events.new.items ≡ events.old.items) }
    {
        events.reserve(self.waiting.len() + 1)?;
        let at = self.limits.left_at(&left);
        self.keep(at, events);
        self.take(&left, events);
        Ok(())
    }

    /// Notes that nothing leaves before an instant in nanoseconds any more, and adds which frames are missing by that.
    ///
    /// Fails if memory runs out, and then has changed nothing. O(log of the frames that are held), and O(bytes * log of the frames that are
    /// held) for each frame that is let go, beside what the list takes to grow: it gets room for all frames that wait.
    pub fn go_on(&mut self, at: u128, events: &mut Vec<Event, A>) -> Result<(), AllocError>
        ensures ok { OnOk result (self.new ≡ kept_at at self.old) }
        ensures told { OnOk result (events.new.items ≡ events.old.items ++ gone_told at self.old) }
        ensures err { OnErr result (self.new ≡ self.old) }
        ensures untold { OnErr result (events.new.items ≡ events.old.items) }
    {
        events.reserve(self.waiting.len())?;
        self.keep(at, events);
        Ok(())
    }

    /// Adds what became of the frames that still wait. Records were recorded up to an instant in nanoseconds or, if there is none, all had left.
    ///
    /// Fails if memory runs out. O(frames that are held).
    pub fn end(&self, last: Option<u128>, events: &mut Vec<Event, A>) -> Result<(), AllocError>
        ensures told { OnOk result (events.new.items ≡ events.old.items ++ end_told self.now last) }
        ensures untold { OnErr result (events.new.items ≡ events.old.items) }
    {
        events.reserve(self.waiting.len())?;
        for place in 0..self.waiting.len() {
            if let Some(frame) = self.waiting.get(place) {
                events.push_reserved(self.ended(last, frame));
            }
        }
        Ok(())
    }

    /// Returns what becomes of a frame that still waits at the end.
    fn ended(&self, last: Option<u128>, frame: &Numbered<'a, A>) -> Event
        ensures { result ≡ ended self.now.limits last frame.now }
    {
        match last {
            Some(last) if last < u128::from(frame.stamp().ns()) + self.limits.most() =>
                Event::After(frame.mark()),
            _ => Event::Missing(frame.mark()),
        }
    }

    /// Lets go of all frames of which no record can be that leaves at an instant; those of them that wait are missing.
    fn keep(&mut self, at: u128, events: &mut Vec<Event, A>)
        requires { vec_len events.old + length self.old.waiting ≤ vec_capacity events.old }
        ensures kept { self.new ≡ kept_at at self.old }
        ensures told { events.new.items ≡ events.old.items ++ gone_told at self.old }
        ensures room { vec_capacity events.new ≡ vec_capacity events.old }
    {
        let gone = self.gone_by(&self.waiting, at);
        self.skip(gone, events);
        self.forget(at);
    }

    /// Returns how many of these frames, from the first on, came more than twice the bound before an instant.
    fn gone_by(&self, frames: &Queue<'a, A>, at: u128) -> usize
        ensures gone { result ≡ gone_by self.now.limits at frames.now }
        ensures some { result ≤ length frames.now }
    {
        frames.sooner_than(at.saturating_sub(2 * self.limits.most()))
    }

    /// Takes a record, given that no frame is held of which it cannot be.
    fn take(&mut self, left: &Numbered<'a, A>, events: &mut Vec<Event, A>)
        requires { vec_len events.old + length self.old.waiting + 1 ≤ vec_capacity events.old }
        ensures paired { self.new ≡ paired (partner self.old left.now.frame) self.old }
        ensures told { events.new.items ≡ events.old.items ++ pairing_told (partner self.old left.now.frame) self.old left.now }
    {
        match self.partner(left) {
            Some(place) => self.pair(place, left, events),
            None => events.push_reserved(self.alone(left)),
        }
    }

    /// Takes away so many of the first frames that wait, and adds that they are missing.
    fn skip(&mut self, count: usize, events: &mut Vec<Event, A>)
        requires some { count ≤ length self.old.waiting }
        requires room { vec_len events.old + count ≤ vec_capacity events.old }
        ensures rest { self.new ≡ record self.old { waiting = drop count self.old.waiting } }
        ensures told { events.new.items ≡ events.old.items ++ missing (take count self.old.waiting) }
        ensures room { vec_capacity events.new ≡ vec_capacity events.old }
    {
        for _ in 0..count {
            if let Some(frame) = self.waiting.pop() {
                events.push_reserved(Event::Missing(frame.mark()));
            }
        }
    }

    /// Lets go of policed frames of which no record can be that leaves at an instant.
    fn forget(&mut self, at: u128)
        ensures { self.new ≡ record self.old { policed = drop (gone_by self.old.limits at self.old.policed) self.old.policed } }
    {
        let gone = self.gone_by(&self.policed, at);
        for _ in 0..gone {
            self.policed.pop();
        }
    }

    /// Returns the place of the frame that a record is taken for; none if it is taken for no frame.
    fn partner(&self, left: &Numbered<'a, A>) -> Option<usize>
        ensures place { result ≡ partner self.now left.now.frame }
        ensures some { IfSome result (λ place. place < length self.now.waiting) }
    {
        match self.first_in_bound(left) {
            Some(place) => Some(place),
            None => self.first_near(left),
        }
    }

    /// Returns the place of the first frame that waits, has a record's bytes, and within whose bounds that record left.
    fn first_in_bound(&self, left: &Numbered<'a, A>) -> Option<usize>
        ensures place { result ≡ position (λ n. in_bound self.now.limits n.frame left.now.frame) self.now.waiting }
        ensures some { IfSome result (λ place. place < length self.now.waiting) }
    {
        let at = self.limits.left_at(left);
        let from = at.saturating_sub(self.limits.most());
        let place = self.waiting.first_from(left.bytes(), from)?;
        if self.limits.is_early(self.waiting.get(place)?, left) {
            return None;
        }
        Some(place)
    }

    /// Returns the place of the first frame that waits, has a record's bytes, and came before it left, by at most twice the bound.
    fn first_near(&self, left: &Numbered<'a, A>) -> Option<usize>
        ensures place { result ≡ position (λ n. came_within self.now.limits 2 n.frame left.now.frame) self.now.waiting }
        ensures some { IfSome result (λ place. place < length self.now.waiting) }
    {
        self.first_within(&self.waiting, 2, left)
    }

    /// Returns the place of the first of these frames that has a record's bytes and came before it left, by at most so many times the bound.
    fn first_within(
        &self,
        frames: &Queue<'a, A>,
        times: u8,
        left: &Numbered<'a, A>,
    ) -> Option<usize>
        ensures place { result ≡ position (λ n. came_within self.now.limits times n.frame left.now.frame) frames.now }
        ensures some { IfSome result (λ place. place < length frames.now) }
    {
        let at = self.limits.left_at(left);
        let from = at.saturating_sub(u128::from(times) * self.limits.most());
        let place = frames.first_from(left.bytes(), from)?;
        if at <= u128::from(frames.get(place)?.stamp().ns()) {
            return None;
        }
        Some(place)
    }

    /// Pairs a record with the frame at a place; those before it are missing.
    fn pair(&mut self, place: usize, left: &Numbered<'a, A>, events: &mut Vec<Event, A>)
        requires place { place < length self.old.waiting }
        requires room { vec_len events.old + place + 1 ≤ vec_capacity events.old }
        ensures rest { self.new ≡ record self.old { waiting = drop (place + 1) self.old.waiting; begun = true } }
        ensures told { events.new.items ≡ events.old.items ++ pairing_told (Some place) self.old left.now }
    {
        self.skip(place, events);
        self.pair_first(left, events);
    }

    /// Pairs a record with the first frame that waits.
    fn pair_first(&mut self, left: &Numbered<'a, A>, events: &mut Vec<Event, A>)
        requires { vec_len events.old + 1 ≤ vec_capacity events.old }
        ensures rest { self.new ≡ record self.old { waiting = drop 1 self.old.waiting; begun = true } }
        ensures told { events.new.items ≡ events.old.items ++ taken_with self.old.limits (slice_get self.old.waiting 0) left.now }
    {
        if let Some(frame) = self.waiting.pop() {
            events.push_reserved(self.taken_for(&frame, left));
        }
        self.begun = true;
    }

    /// Returns what a record is that is taken for a frame.
    fn taken_for(&self, frame: &Numbered<'a, A>, left: &Numbered<'a, A>) -> Event
        ensures { result ≡ taken_for self.now.limits frame.now left.now }
    {
        let delay = self
            .limits
            .left_at(left)
            .saturating_sub(u128::from(frame.stamp().ns()));
        let pair = Pair {
            came: frame.mark(),
            left: left.mark(),
            delay,
        };
        if self.limits.is_early(frame, left) {
            Event::Early(pair)
        } else if self.limits.is_late(frame, left) {
            Event::Late(pair)
        } else {
            Event::Kept(pair)
        }
    }

    /// Returns what a record is that is taken for no frame.
    fn alone(&self, left: &Numbered<'a, A>) -> Event
        ensures { result ≡ taken_alone self.now left.now }
    {
        let soon = !self.begun && self.limits.left_at(left) < self.limits.before;
        if soon && !self.is_policed(left) {
            Event::Before(left.mark())
        } else {
            Event::Extra(left.mark(), self.policed_one(left))
        }
    }

    /// Returns whether a record has the bytes of a policed frame that came before it left, by at most twice the bound.
    fn is_policed(&self, left: &Numbered<'a, A>) -> bool
        ensures { result ≡ list_any (λ n. came_within self.now.limits 2 n.frame left.now.frame) self.now.policed }
    {
        self.first_within(&self.policed, 2, left).is_some()
    }

    /// Returns the first policed frame that came within the bound before a record left and has its bytes, if there is one.
    fn policed_one(&self, left: &Numbered<'a, A>) -> Option<Mark>
        ensures { result ≡ option_map mark_of (find (λ n. came_within self.now.limits 1 n.frame left.now.frame) self.now.policed) }
    {
        let place = self.first_within(&self.policed, 1, left)?;
        Some(self.policed.get(place)?.mark())
    }
}
