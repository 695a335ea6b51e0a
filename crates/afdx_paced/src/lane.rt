//! What there is of one port.

ghost use Rattle.std.specs.Prelude.{◌≡◌, [], MatchOption, OnOk, OnErr};
ghost use Rattle.afdx_paced.specs.Inner.Parts.{fresh_parts, head_of, joined, departed, Takes};

use afdx_past::Gone;
use afdx_pcap::Record;
use afdx_units::Stamp;
use std::alloc::{AllocError, Allocator};
use std::collections::VecDeque;
use std::marker::Model;

/// What came in at a port: the records that went to the switch, of which nothing is kept, and those that wait; and what left it, of
/// which nothing is kept either.
#[derive(Drop)]
pub(crate) struct Lane<'a, A: Allocator> {
    port: u8,
    gone: Gone<Record<'a, A>>,
    waiting: VecDeque<Record<'a, A>, A>,
    /// The stamp of the last record that came in, 0 if there is none.
    last: Stamp,
    left: Gone<Record<'a, A>>,
}

impl<'a, A: Allocator> Model for Lane<'a, A> {
    ghost use Rattle.afdx_paced.specs.Inner.Parts.{Parts};

    ghost Value = { Parts };

    ghost view = { λ l. record { port = l.port; gone = l.gone.items; waiting = l.waiting.items; last = l.last; left = l.left.items } };
}

impl<'a, A: Allocator + Copy> Lane<'a, A> {
    /// Makes the lane of a port at which nothing came in. It takes no memory. O(1).
    pub(crate) fn new(alloc: A, port: u8) -> Lane<'a, A>
        ensures { result ≡ fresh_parts port }
    {
        Lane {
            port,
            gone: Gone::new(),
            waiting: VecDeque::new(alloc),
            last: Stamp::ZERO,
            left: Gone::new(),
        }
    }

    /// Returns the number of the port. O(1).
    pub(crate) fn port(&self) -> u8
        ensures { result ≡ self.now.port }
    {
        self.port
    }

    /// Returns the stamp of the last record that came in, 0 if there is none. O(1).
    pub(crate) fn last(&self) -> Stamp
        ensures { result ≡ self.now.last }
    {
        self.last
    }

    /// Returns the stamp of the first record that waits, if there is one. O(1).
    pub(crate) fn head(&self) -> Option<Stamp>
        ensures { result ≡ head_of self.now.waiting }
    {
        match self.waiting.front() {
            Some(frame) => Some(frame.stamp()),
            None => None,
        }
    }

    /// Takes a record in, which waits then. O(1).
    pub(crate) fn join(&mut self, frame: Record<'a, A>) -> Result<(), AllocError>
        ensures ok { OnOk result (self.new ≡ joined frame.entry self.old) }
        ensures err { OnErr result (self.new ≡ self.old) }
    {
        let stamp = frame.stamp();
        self.waiting.reserve(1)?;
        self.waiting.push_back_reserved(frame);
        self.last = stamp;
        Ok(())
    }

    /// Takes out the first record that waits, if there is one, to be given to the switch. O(1).
    pub(crate) fn take(&mut self) -> Option<Record<'a, A>>
        ensures { MatchOption result ((self.old.waiting ≡ []) × (self.new ≡ self.old)) (λ frame. Takes frame self.old self.new) }
    {
        let frame = self.waiting.pop_front()?;
        self.gone = self.gone.and(&frame);
        Some(frame)
    }

    /// Notes that a record left. O(1).
    pub(crate) fn depart(&mut self, frame: &Record<'a, A>)
        ensures { self.new ≡ departed frame.now self.old }
    {
        self.left = self.left.and(frame);
    }
}
