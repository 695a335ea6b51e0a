//! A capture that comes in pieces.

ghost use Rattle.std.specs.Prelude.{◌≡◌, ◌≢◌, ◌+◌, ◌<◌, ◌++◌, [], length, true, false, Err, Some, None, IfOk, IfErr, OnOk, OnSome, IfSome, IfNone, is_some, if◌then◌else◌};
ghost use Rattle.afdx_pcap.specs.declared.fault.PcapFault.TheVariants.{Memory};
ghost use Rattle.afdx_pcap.specs.Reading.{Answers, HasNext, NoNext, answer_without, whole_reading};

use crate::bytes::Bytes;
use crate::fault::PcapFault;
use crate::gone::Gone;
use crate::progress::{Progress, fault_after, next_record};
use crate::record::Record;
use std::alloc::Allocator;
use std::marker::Model;

/// The bytes that a processor gets from memory at once.
const CACHE_LINE: usize = 64;

/// A reader of the records of a capture: of one that comes in pieces, each record as soon as its last byte is there; or of a whole
/// one, which stays where it is.
///
/// A reader that is fed lets go of what it has read: after each piece it keeps this and at most twice the bytes before it that were
/// not read. Its records share these bytes, which stay as long as one of those records does, or have copies of theirs. However the
/// bytes were cut, feeding them and taking the records is O(bytes). A reader over a whole capture copies nothing: its records are
/// lent.
#[derive(Drop)]
pub struct Reader<'a, A: Allocator> {
    alloc: A,
    /// What was read and let go: contracts see it before what is kept.
    gone: Gone,
    kept: Bytes<'a, A>,
    /// How long the last piece was.
    piece: usize,
    given: usize,
    progress: Option<Progress>,
    closed: bool,
    fault: Option<PcapFault>,
    /// Before this place the bytes that are kept were looked at.
    looked: usize,
    /// What was seen there, kept so that no compiler leaves the look out.
    glance: u8,
}

impl<'a, A: Allocator> Model for Reader<'a, A> {
    ghost use Rattle.std.specs.Prelude.{◌≡◌, ◌++◌, true};
    ghost use Rattle.afdx_pcap.specs.Bytes.{plain_bytes, is_lent};
    ghost use Rattle.afdx_pcap.specs.Inner.Place.{IsAtPlace, IsPlaced};
    ghost use Rattle.afdx_pcap.specs.Reading.{Reading};

    ghost Value = { Reading };

    ghost view = { λ r. record {
      bytes = r.gone.bytes ++ plain_bytes r.kept;
      given = r.given;
      closed = r.closed;
      fault = r.fault;
      lent = is_lent r.kept;
    } };

    // What is lent is whole, so that nothing is fed behind it.
    ghost invariant = { λ r. IsAtPlace r.gone.bytes (plain_bytes r.kept) r.given r.progress
        × IsPlaced (plain_bytes r.kept) r.given r.progress
        × (is_lent r.kept ≡ true → r.closed ≡ true) };
}

impl<'a, A: Allocator + Copy> Reader<'a, A> {
    /// Makes an open reader of no bytes so far, which takes its memory from `alloc`. O(1), no memory.
    pub fn new(alloc: A) -> Reader<'a, A>
        ensures { result ≡ record { bytes = []; given = 0; closed = false; fault = None; lent = false } }
    {
        Reader {
            alloc,
            gone: Gone::new(),
            kept: Bytes::Owned(Vec::new(alloc)),
            piece: 0,
            given: 0,
            progress: None,
            closed: false,
            fault: None,
            looked: 0,
            glance: 0,
        }
    }

    /// Makes a closed reader of these bytes, which are the whole input. O(1), no memory, nor is any taken later.
    pub fn over(alloc: A, bytes: &'a [u8]) -> Reader<'a, A>
        ensures { result ≡ whole_reading bytes.now 0 }
    {
        Reader {
            alloc,
            gone: Gone::new(),
            kept: Bytes::Lent(bytes),
            piece: 0,
            given: 0,
            progress: None,
            closed: true,
            fault: None,
            looked: 0,
            glance: 0,
        }
    }

    /// Takes the next piece of the input, at the end of the bytes so far.
    ///
    /// Only an open reader is fed; [`Reader::is_closed`] says whether it is closed.
    ///
    /// # Errors
    ///
    /// The fault that this or `next` answered before, and for good; else `Memory` alone, and the piece is
    /// not kept: memory for it was refused, or with it there might be more records than a `usize` counts.
    ///
    /// Amortized O(piece).
    pub fn feed(&mut self, piece: &[u8]) -> Result<(), PcapFault>
        requires { self.old.closed ≡ false }
        ensures ok { OnOk result (self.new ≡ record self.old { bytes = self.old.bytes ++ piece.now }) }
        ensures err { IfErr result (λ fault. self.new ≡ record self.old { fault = Some fault }) }

        // A fault that was answered stays the answer; else memory ran out.
        ensures failed { IfSome self.old.fault (λ fault. result ≡ Err fault) }
        ensures memory { IfNone self.old.fault (IfErr result (λ fault. fault ≡ Memory)) }
    {
        if let Some(fault) = self.fault {
            return Err(fault);
        }
        self.forget();
        self.piece = piece.len();
        let kept = self.kept.as_slice().len();
        // Each record takes some of the bytes, so that there are no more than these; faults count one more.
        let most = self.given.saturating_add(kept).saturating_add(piece.len());
        if most == usize::MAX || self.kept.extend(self.alloc, piece).is_err() {
            self.fault = Some(PcapFault::Memory);
            return Err(PcapFault::Memory);
        }
        Ok(())
    }

    /// Lets go of what was read, if that is no less than what was not, so that no more bytes are moved than were read. O(what was
    /// not read), and O(1) if it is shared.
    fn forget(&mut self)
        requires { self.old.closed ≡ false }
        ensures { self.new ≡ self.old }
    {
        let Some(progress) = self.progress else {
            return;
        };
        let (read, rest) = self.kept.as_slice().split_at(progress.place);
        if read.len() < rest.len() {
            return;
        }
        self.gone = self.gone.and(read);
        self.kept.forget(progress.place);
        self.progress = Some(Progress {
            place: 0,
            ..progress
        });
        self.looked = self.looked.saturating_sub(progress.place);
    }

    /// Returns the next whole record; none if the bytes so far hold neither one nor a fault.
    ///
    /// # Errors
    ///
    /// The fault of the bytes, with the record's number, after all whole records before it; while the reader is open only one that
    /// no further bytes can mend, so not P2, P6 or P11. `Memory` if the memory that the record's bytes need was refused, so never if
    /// they are lent. The same fault is then answered for good.
    ///
    /// O(1), and O(bytes of the record) if it gets a copy, since more bytes than those of the last piece are left after it: no byte
    /// of an earlier record is read again.
    pub fn next(&mut self) -> Result<Option<Record<'a, A>>, PcapFault>
        ensures ok { IfOk result (λ found. self.new ≡ record self.old {
          given = (if is_some found then self.old.given + 1 else self.old.given);
        }) }
        ensures err { IfErr result (λ fault. self.new ≡ record self.old { fault = Some fault }) }

        // A fault that was answered stays the answer; else this is what the bytes say, and memory is taken for
        // a whole record alone.
        ensures failed { IfSome self.old.fault (λ fault. result ≡ Err fault) }
        ensures answer { IfNone self.old.fault (Answers self.old.bytes self.old.given self.old.closed result) }
        ensures memory { IfNone self.old.fault (IfErr result (λ fault. fault ≡ Memory
            → HasNext self.old.bytes self.old.given × (self.old.lent ≡ false))) }

        // Each record takes some of the bytes, so that a loop over them ends.
        ensures fewer { IfOk result (λ found. OnSome found (self.old.given < length self.old.bytes)) }
    {
        if let Some(fault) = self.fault {
            return Err(fault);
        }
        let (alloc, given, progress) = (self.alloc, self.given, self.progress);
        match next_record(self.kept.as_slice(), given, progress) {
            Some(next) => {
                let onward = next.progress;
                let Ok(record) = next.record(alloc, &mut self.kept, self.piece) else {
                    self.fault = Some(PcapFault::Memory);
                    return Err(PcapFault::Memory);
                };
                self.given += 1;
                self.progress = Some(onward);
                Ok(Some(record))
            }
            None => {
                self.find_fault();
                match self.fault {
                    Some(fault) => Err(fault),
                    None => Ok(None),
                }
            }
        }
    }

    /// Finds what is wrong if no whole record comes. It is apart, and hands nothing back through memory, so that the way to a record
    /// that comes is short.
    #[cold]
    #[inline(never)]
    fn find_fault(&mut self)
        requires { NoNext self.old.bytes self.old.given }
        ensures same { self.new ≡ record self.old { fault = self.new.fault } }
        ensures answer { Answers self.old.bytes self.old.given self.old.closed (answer_without self.new.fault) }
        ensures no_memory { IfSome self.new.fault (λ fault. fault ≢ Memory) }
    {
        let (given, closed, progress) = (self.given, self.closed, self.progress);
        self.fault = fault_after(self.kept.as_slice(), given, closed, progress);
    }

    /// Looks at the next `count` bytes, as far as they are there and were not looked at before, so that the processor has
    /// them at hand when their records are read. Contracts see no change.
    ///
    /// Where a record begins is known once the one before it was read, so that each waits for the memory of its own header;
    /// these looks wait for none. O(count / 64).
    pub fn look_ahead(&mut self, count: usize)
        ensures { self.new ≡ self.old }
    {
        let place = self.progress.map_or(0, |progress| progress.place);
        let bytes = self.kept.as_slice();
        let end = bytes.len().min(place.saturating_add(count));
        let start = self.looked.max(place).min(end);
        for byte in bytes[start..end].iter().step_by(CACHE_LINE) {
            self.glance ^= *byte;
        }
        self.looked = end.max(self.looked);
    }

    /// Closes the input: a rest that is no whole record is then a fault of `next`. A second call changes nothing. O(1).
    pub fn close(&mut self)
        ensures { self.new ≡ record self.old { closed = true } }
    {
        self.closed = true;
    }

    /// Returns whether the input was closed. O(1).
    pub fn is_closed(&self) -> bool
        ensures { result ≡ self.now.closed }
    {
        self.closed
    }
}
