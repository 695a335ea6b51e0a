//! The policing of one link, one piece of its capture after the other.

ghost use Rattle.std.specs.Prelude.{◌≡◌, ◌+◌, ◌^◌, ◌<◌, ◌≤◌, ◌||◌, ◌++◌, ℕ, List, length, true, false, not, Some, IsTrue, IfOk, OnOk, MatchResult};
ghost use Rattle.afdx_account.specs.Account.{byte_account_since};
ghost use Rattle.afdx_filter.specs.Frame.{frame_of};
ghost use Rattle.afdx_pcap.specs.Fault.{is_cut};
ghost use Rattle.afdx_alone.specs.Own.{is_own};
ghost use Rattle.afdx_alone.specs.Faults.{fault_of};
ghost use Rattle.afdx_alone.specs.Inner.Ground.{Ground};
ghost use Rattle.afdx_alone.specs.Inner.Offer.{IsOffered};
ghost use Rattle.afdx_alone.specs.Inner.Polices.{Polices, HasOffered, Leaves, IsPieceFault};

use crate::fault::AloneFault;
use crate::link::Alone;
use crate::own::is_own;
use afdx_account::laws::{next_joins_where_it_conforms, passed_by_their_frames};
use afdx_account::{ByteAccount, Meter};
use afdx_pcap::laws::{
    one_more_record_is_appended, rests_are_read_on, taken_records_are_the_first,
};
use afdx_pcap::{
    Format, HEADER_LENGTH, PcapFault, Record, read_header, read_record, write_header, write_record,
};
use afdx_units::Stamp;
use std::alloc::{AllocError, Allocator};

/// The policing of one link as far as its capture was read: the link's account, and the answer so far.
#[derive(Drop)]
pub(crate) struct Policing<A: Allocator> {
    /// The capture's format, once its header was read.
    pub(crate) format: Option<Format>,
    /// The stamp of the last record that was read, 0 if there is none.
    pub(crate) last: Stamp,
    /// How many records were read.
    pub(crate) count: usize,
    pub(crate) account: ByteAccount,
    pub(crate) answer: Vec<u8, A>,
}

/// Offers a frame to the link's account if it is the link's own, and returns whether the account passes it.
fn passes<A: Allocator>(link: &Alone, account: &mut ByteAccount, frame: &Record<'_, A>) -> bool
    requires { byte_account_since account.old ≤ frame.now.stamp }
    ensures own { IsTrue (is_own link.now frame.now) → IsOffered account.old account.new (frame_of frame.now) result }

    // A frame that is not is not passed, and the account is left alone.
    ensures others { is_own link.now frame.now ≡ false → (result ≡ false) × (account.new ≡ account.old) }
{
    is_own(link, frame) && account.offer(frame.stamp(), frame.size())
}

/// Gathers the laws of the crates below on which the policing of a capture rests.
fn ground<A: Allocator>()
    ensures { Ground }
{
    next_joins_where_it_conforms::<Record<'_, A>>();
    passed_by_their_frames::<Record<'_, A>>();
    one_more_record_is_appended();
    taken_records_are_the_first();
    rests_are_read_on();
}

/// Returns these bytes if they wait for more that can mend the fault, and else the fault.
fn unless_they_wait(bytes: &[u8], fault: PcapFault, ended: bool) -> Result<&[u8], AloneFault>
    ensures { MatchResult result (λ rest. (rest.now ≡ bytes.now) × ((ended || not (is_cut fault)) ≡ false))
        (λ e. (e ≡ fault_of fault) × ((ended || not (is_cut fault)) ≡ true)) }
{
    if ended || !fault.is_cut() {
        Err(AloneFault::from(fault))
    } else {
        Ok(bytes)
    }
}

impl<A: Allocator> Policing<A> {
    /// Makes the policing of a link before anything of its capture was read.
    pub(crate) fn new(alloc: A, link: &Alone) -> Result<Policing<A>, AllocError>
        ensures polices { IfOk result (λ p. (bytes : List ℕ) → Polices link.now bytes bytes p) }
        ensures none { IfOk result (λ p. p.count ≡ 0) }
    {
        let mut answer = Vec::new(alloc);
        write_header(&mut answer)?;
        Ok(Policing {
            format: None,
            last: Stamp::ZERO,
            count: 0,
            account: ByteAccount::new(link.max_size, link.bag, link.jitter),
            answer,
        })
    }

    /// Takes the next record. O(its bytes) if it passes, else O(1).
    fn offer<B: Allocator>(&mut self, link: &Alone, frame: &Record<'_, B>) -> Result<(), AllocError>
        requires few { self.old.count + 1 < 2 ^ 64 }
        requires order { byte_account_since self.old.account ≤ frame.now.stamp }
        ensures { OnOk result (HasOffered link.now frame.now self.old self.new) }
    {
        if passes(link, &mut self.account, frame) {
            write_record(&mut self.answer, frame)?;
        }
        self.last = frame.stamp();
        self.count += 1;
        Ok(())
    }

    /// Takes the whole records at the start of the bytes, and returns what comes after them.
    fn take_records<'b>(
        &mut self,
        link: &Alone,
        format: Format,
        bytes: &'b [u8],
        ended: bool,
    ) -> Result<&'b [u8], AloneFault>
        requires format { self.old.format ≡ Some format }
        requires few { self.old.count + length bytes.now < 2 ^ 64 }
        requires polices { (all : List ℕ) × Polices link.now all bytes.now self.old }
        ensures taken { (all : List ℕ) → Polices link.now all bytes.now self.old → MatchResult result
            (λ rest. Polices link.now all rest.now self.new) (IsPieceFault all ended) }
        ensures left { IfOk result (λ rest. Leaves ended self.new.format rest.now) }
        ensures last { IfOk result (λ rest. (before : List ℕ) × (before ++ rest.now ≡ bytes.now)) }
        ensures few { IfOk result (λ rest. self.new.count + length rest.now ≤ self.old.count + length bytes.now) }
    {
        ground::<A>();
        let mut rest = bytes;
        while !rest.is_empty() {
            match read_record::<A>(format, self.last, self.count + 1, rest) {
                Ok((frame, after)) => {
                    self.offer(link, &frame)?;
                    rest = after;
                }
                Err(fault) => return unless_they_wait(rest, fault, ended),
            }
        }
        Ok(rest)
    }

    /// Takes what comes next of the capture, as far as it is whole: the header, if it was not read, and records. Returns what
    /// comes after them, to be taken again with more bytes after it; none if the input has ended. O(bytes).
    pub(crate) fn take<'b>(
        &mut self,
        link: &Alone,
        bytes: &'b [u8],
        ended: bool,
    ) -> Result<&'b [u8], AloneFault>
        requires few { self.old.count + length bytes.now < 2 ^ 64 }
        requires polices { (all : List ℕ) × Polices link.now all bytes.now self.old }
        ensures taken { (all : List ℕ) → Polices link.now all bytes.now self.old → MatchResult result
            (λ rest. Polices link.now all rest.now self.new) (IsPieceFault all ended) }
        ensures left { IfOk result (λ rest. Leaves ended self.new.format rest.now) }
        ensures last { IfOk result (λ rest. (before : List ℕ) × (before ++ rest.now ≡ bytes.now)) }
        ensures few { IfOk result (λ rest. self.new.count + length rest.now ≤ self.old.count + length bytes.now) }
    {
        if let Some(format) = self.format {
            return self.take_records(link, format, bytes, ended);
        }
        match read_header(bytes) {
            Ok(format) => {
                self.format = Some(format);
                self.take_records(link, format, &bytes[HEADER_LENGTH..], ended)
            }
            Err(fault) => unless_they_wait(bytes, fault, ended),
        }
    }

    /// Returns the answer to what was read.
    pub(crate) fn into_answer(self) -> Vec<u8, A>
        ensures { result ≡ self.answer }
    {
        let Policing { answer, .. } = self;
        answer
    }
}
