//! What was found out of a link at an output port.

ghost use Rattle.std.specs.Prelude.{◌≡◌, [], ◌∷◌, OnOk};
ghost use Rattle.afdx_following.specs.Output.{nothing_found, with_told};

use crate::tally::Tally;
use afdx_pairing::Event;
use std::alloc::{AllocError, Allocator};
use std::marker::Model;

/// What was found out of a link at an output port: its numbers, and what speaks against the switch, if that is kept.
#[derive(Drop)]
pub(crate) struct Found<A: Allocator> {
    tally: Tally,
    keeps: bool,
    differences: Vec<Event, A>,
}

impl<A: Allocator> Model for Found<A> {
    ghost use Rattle.afdx_following.specs.Output.{Found as Seen};

    ghost Value = { Seen };

    ghost view = { λ f. record { tally = f.tally; keeps = f.keeps; differences = f.differences.items } };
}

impl<A: Allocator + Copy> Found<A> {
    /// Makes the state in which nothing was found. If it `keeps`, each event that speaks against the switch is listed. It takes no memory.
    pub(crate) fn new(alloc: A, keeps: bool) -> Found<A>
        ensures { result ≡ nothing_found keeps }
    {
        Found {
            tally: Tally::none(),
            keeps,
            differences: Vec::new(alloc),
        }
    }

    /// Returns the numbers. O(1).
    pub(crate) fn tally(&self) -> &Tally
        ensures { result.now ≡ self.now.tally }
    {
        &self.tally
    }

    /// Returns what speaks against the switch, in the order in which it was found. O(1).
    pub(crate) fn differences(&self) -> &[Event]
        ensures { result.now ≡ self.now.differences }
    {
        &self.differences
    }

    /// Takes all that was told and leaves the list empty. An error is out of memory. O(events).
    pub(crate) fn take(&mut self, told: &mut Vec<Event, A>) -> Result<(), AllocError>
        ensures ok { OnOk result (self.new ≡ with_told told.old.items self.old) }
        ensures empty { told.new.items ≡ [] }
    {
        let result = self.note_all(told.as_slice());
        told.clear();
        result
    }

    /// Counts each of these events, and keeps those that are to be kept.
    fn note_all(&mut self, events: &[Event]) -> Result<(), AllocError>
        ensures { OnOk result (self.new ≡ with_told events.now self.old) }
    {
        for event in events {
            self.note(event)?;
        }
        Ok(())
    }

    /// Counts an event, and keeps it if it is to be kept.
    fn note(&mut self, event: &Event) -> Result<(), AllocError>
        ensures { OnOk result (self.new ≡ with_told (event.now ∷ []) self.old) }
    {
        self.tally.note(event);
        if self.keeps && event.differs() {
            self.differences.push(*event)?;
        }
        Ok(())
    }
}
