//! One capture, of which the next record is at hand.

ghost use Rattle.std.specs.Prelude.{◌≡◌, ◌<◌, false, None, Some, List, length, option_map, IfOk, IfErr, OnOk};
ghost use Rattle.afdx_pairing.specs.Events.{Numbered as Seen};
ghost use Rattle.afdx_merging.specs.Merge.{due_at};
ghost use Rattle.afdx_merging.specs.Inner.Lanes.{fresh_lane, Draws, IsLaneFault, IsAtHand, IsReadBy, IsOfReader, IsStopped};

use crate::clock::Clock;
use crate::head::Head;
use afdx_pcap::laws::taken_records_are_the_first;
use afdx_pcap::{PcapFault, Reader};
use afdx_units::Stamp;
use std::alloc::Allocator;
use std::io::{ErrorKind, Read};

/// Why a capture is not read on.
#[derive(Clone, Copy, Debug, PartialEq, Eq)]
pub(crate) enum LaneFault {
    Memory,
    /// The reader failed.
    Read,
    /// The bytes are no capture.
    Capture(PcapFault),
}

/// One capture that is read in pieces, and its next record.
#[derive(Drop)]
pub(crate) struct Lane<A: Allocator> {
    pub(crate) clock: Clock,
    pub(crate) reader: Reader<'static, A>,
    pub(crate) head: Option<Head<A>>,
    /// How many records were read.
    pub(crate) count: u64,
}

impl<A: Allocator + Copy> Lane<A> {
    /// Makes a capture of which nothing was read. It takes no memory.
    pub(crate) fn new(alloc: A, clock: Clock) -> Lane<A>
        ensures { result ≡ fresh_lane clock }
    {
        Lane {
            clock,
            reader: Reader::new(alloc),
            head: None,
            count: 0,
        }
    }

    /// Returns the instant of the next record; none at the end. O(1).
    pub(crate) fn stamp(&self) -> Option<Stamp>
        ensures { result ≡ option_map (λ n. n.frame.stamp) self.now.head }
    {
        match &self.head {
            Some(head) => Some(head.stamp()),
            None => None,
        }
    }

    /// Returns the instant by which the next record is in order with those of other captures; none at the end. O(1).
    pub(crate) fn due(&self) -> Option<u128>
        ensures { result ≡ option_map (λ n. due_at self.now.clock n.frame.stamp) self.now.head }
    {
        match &self.head {
            Some(head) => Some(self.clock.due_at(head.stamp())),
            None => None,
        }
    }

    /// Takes the next whole record of what was read. Returns whether there is one, or none to come.
    pub(crate) fn draw(&mut self) -> Result<bool, LaneFault>
        requires no_fault { self.old.reader.fault ≡ None }
        requires none { self.old.head ≡ None }
        ensures clock { self.new.clock ≡ self.old.clock }
        ensures ok { IfOk result (λ done. Draws done self.old self.new) }
        ensures err { IfErr result (λ fault. IsLaneFault self.old.reader.bytes self.old.reader.closed fault) }
    {
        taken_records_are_the_first();
        match self.reader.next() {
            Ok(Some(frame)) => {
                let Some(number) = self.count.checked_add(1) else {
                    return Err(LaneFault::Memory);
                };
                self.count = number;
                let stamp = self.clock.moved(frame.stamp());
                self.head = Some(Head {
                    number,
                    stamp,
                    frame,
                });
                Ok(true)
            }
            Ok(None) => Ok(self.reader.is_closed()),
            Err(PcapFault::Memory) => Err(LaneFault::Memory),
            Err(fault) => Err(LaneFault::Capture(fault)),
        }
    }

    /// Reads once more.
    fn read<R: Read>(&mut self, reader: &mut R, piece: &mut [u8]) -> Result<(), LaneFault>
        requires room { 0 < length piece.old }
        requires no_fault { self.old.reader.fault ≡ None }
        requires still_open { self.old.reader.closed ≡ false }
        ensures room { length piece.new ≡ length piece.old }
        ensures clock { self.new.clock ≡ self.old.clock }
        ensures head { self.new.head ≡ self.old.head }
        ensures no_fault { OnOk result (self.new.reader.fault ≡ None) }
        ensures ok { OnOk result ((first : R) (given : List Seen) → IsReadBy R.remaining first reader.old self.old given
            → IsReadBy R.remaining first reader.new self.new given) }
        ensures err { IfErr result (λ fault. IsOfReader fault) }
    {
        taken_records_are_the_first();
        match reader.read(piece) {
            Ok(0) => self.reader.close(),
            Ok(count) => {
                if self.reader.feed(&piece[..count]).is_err() {
                    return Err(LaneFault::Memory);
                }
            }
            Err(e) => {
                if e.kind() != ErrorKind::Interrupted {
                    return Err(LaneFault::Read);
                }
            }
        }
        Ok(())
    }

    /// Reads on until the next record is there, or the end.
    pub(crate) fn advance<R: Read>(
        &mut self,
        reader: &mut R,
        piece: &mut [u8],
    ) -> Result<(), LaneFault>
        requires room { 0 < length piece.old }
        requires no_fault { self.old.reader.fault ≡ None }
        requires none { self.old.head ≡ None }
        ensures room { length piece.new ≡ length piece.old }
        ensures clock { self.new.clock ≡ self.old.clock }
        ensures no_fault { OnOk result (self.new.reader.fault ≡ None) }
        ensures at_hand { OnOk result (IsAtHand self.new) }
        ensures ok { OnOk result ((first : R) (given : List Seen) → IsReadBy R.remaining first reader.old self.old given
            → IsReadBy R.remaining first reader.new self.new given) }
        ensures err { IfErr result (λ fault. (first : R) (given : List Seen) → IsReadBy R.remaining first reader.old self.old given
            → IsStopped R.remaining first reader.new fault) }
    {
        for _turn in 0..u64::MAX {
            match self.draw() {
                Ok(done) => {
                    if done {
                        return Ok(());
                    }
                }
                Err(fault) => return Err(fault),
            }
            self.read(reader, piece)?;
        }
        Err(LaneFault::Read)
    }
}
