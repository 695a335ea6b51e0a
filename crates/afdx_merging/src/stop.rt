//! Which failure is answered if captures are not read on.

ghost use Rattle.std.specs.Prelude.{◌≡◌, ◌<◌, ◌≤◌, ℕ, None, List, length, slice_get, IfOk, IfErr, OnOk};
ghost use Rattle.std.specs.Io.KnownBytes.{IsAtEnd};
ghost use Rattle.afdx_pairing.specs.Events.{Numbered as Seen};
ghost use Rattle.afdx_merging.specs.Read.{HasFirstFault, IsMergeFault, WereAllRead};
ghost use Rattle.afdx_merging.specs.Inner.Lanes.{IsReadBy, IsReadOut};
ghost use Rattle.afdx_merging.specs.Inner.Merging.{IsUnread, IsUnreadAt, HaveNoFault, AreReadBy, AreStoppedAt, AreAtEnd, IsFoundBefore, first_found};

use crate::fault::MergeFault;
use crate::lane::{Lane, LaneFault};
use afdx_pcap::PcapFault;
use afdx_pcap::laws::{early_faults_stay, taken_records_are_the_first};
use std::alloc::Allocator;
use std::io::{ErrorKind, Read};

/// Reads the rest of a capture of which nothing more is asked than whether it can be read.
fn read_out<R: Read>(place: usize, reader: &mut R, piece: &mut [u8]) -> Result<(), MergeFault>
    requires { 0 < length piece.old }
    ensures room { length piece.new ≡ length piece.old }
    ensures end { OnOk result (IsAtEnd (R.remaining reader.new)) }
    ensures err { IfErr result (IsUnreadAt place) }
{
    for _turn in 0..u64::MAX {
        match reader.read(piece) {
            Ok(0) => return Ok(()),
            Ok(_) => {}
            Err(e) => {
                if e.kind() != ErrorKind::Interrupted {
                    return Err(MergeFault::Read(place));
                }
            }
        }
    }
    Err(MergeFault::Read(place))
}

/// Reads the rest of the captures from one place to another.
fn read_all_out<R: Read>(
    readers: &mut [R],
    from: usize,
    to: usize,
    piece: &mut [u8],
) -> Result<(), MergeFault>
    requires room { 0 < length piece.old }
    requires readers { to ≤ length readers.old }
    ensures room { length piece.new ≡ length piece.old }
    ensures many { length readers.new ≡ length readers.old }
    ensures others { (k : ℕ) → k < from → slice_get readers.new k ≡ slice_get readers.old k }
    ensures ends { OnOk result (AreAtEnd R.remaining readers.new from to) }
    ensures err { IfErr result (IsUnread R.remaining readers.new from to) }
{
    for place in from..to {
        read_out(place, &mut readers[place], piece)?;
    }
    Ok(())
}

/// Reads a capture on to its end. Returns its first fault, if it has one. O(what is left of it).
fn read_through<A: Allocator + Copy, R: Read>(
    place: usize,
    lane: &mut Lane<A>,
    reader: &mut R,
    piece: &mut [u8],
) -> Result<Option<PcapFault>, MergeFault>
    requires room { 0 < length piece.old }
    requires no_fault { lane.old.reader.fault ≡ None }
    ensures room { length piece.new ≡ length piece.old }
    ensures ok { IfOk result (λ found. (first : R) (given : List Seen) → IsReadBy R.remaining first reader.old lane.old given
        → IsReadOut R.remaining first found × IsAtEnd (R.remaining reader.new)) }
    ensures err { IfErr result (IsUnreadAt place) }
{
    early_faults_stay();
    taken_records_are_the_first();
    for _turn in 0..u64::MAX {
        lane.head = None;
        match lane.advance(reader, piece) {
            Ok(()) => {
                if lane.head.is_none() {
                    return Ok(None);
                }
            }
            Err(LaneFault::Memory) => return Err(MergeFault::Memory),
            Err(LaneFault::Read) => return Err(MergeFault::Read(place)),
            Err(LaneFault::Capture(why)) => {
                read_out(place, reader, piece)?;
                return Ok(Some(why));
            }
        }
    }
    Err(MergeFault::Read(place))
}

/// Returns the fault that was found before, if any; else this one at a place, if any.
fn first_found(
    found: Option<(usize, PcapFault)>,
    place: usize,
    why: Option<PcapFault>,
) -> Option<(usize, PcapFault)>
    ensures { result ≡ first_found found place why }
{
    match (found, why) {
        (None, Some(why)) => Some((place, why)),
        (found, _) => found,
    }
}

/// Reads each capture before a place on to its end. Returns the place and the fault of the first one that has a fault.
fn fault_before<A: Allocator + Copy, R: Read>(
    lanes: &mut [Lane<A>],
    readers: &mut [R],
    place: usize,
    piece: &mut [u8],
) -> Result<Option<(usize, PcapFault)>, MergeFault>
    requires room { 0 < length piece.old }
    requires lanes { place ≤ length lanes.old }
    requires readers { place ≤ length readers.old }
    requires no_fault { HaveNoFault lanes.old place }
    ensures room { length piece.new ≡ length piece.old }
    ensures many { length readers.new ≡ length readers.old }
    ensures ok { IfOk result (λ found. (first : List R) → length first ≡ length readers.old → AreReadBy R.remaining first readers.old lanes.old place
        → IsFoundBefore R.remaining first place found × AreAtEnd R.remaining readers.new 0 place) }
    ensures err { IfErr result (λ fault. (first : List R) → length first ≡ length readers.old → AreReadBy R.remaining first readers.old lanes.old place
        → IsUnread R.remaining readers.new 0 place fault) }
{
    let mut found = None;
    for at in 0..place {
        let why = read_through(at, &mut lanes[at], &mut readers[at], piece)?;
        found = first_found(found, at, why);
    }
    Ok(found)
}

/// Returns the first fault of all captures, given that the one at a place has this fault. Those before it are read on to their ends, and of those
/// after it the rest is read.
fn fault_of_all<A: Allocator + Copy, R: Read>(
    lanes: &mut [Lane<A>],
    readers: &mut [R],
    piece: &mut [u8],
    place: usize,
    why: PcapFault,
) -> Result<(usize, PcapFault), MergeFault>
    requires room { 0 < length piece.old }
    requires place { place < length lanes.old }
    requires readers { length readers.old ≡ length lanes.old }
    requires no_fault { HaveNoFault lanes.old place }
    ensures ok { IfOk result (λ found. (first : List R) → AreStoppedAt R.remaining first readers.old lanes.old place (LaneFault.Capture why)
        → HasFirstFault R.remaining first found.0 found.1 × AreAtEnd R.remaining readers.new 0 (length readers.new)) }
    ensures err { IfErr result (λ fault. (first : List R) → AreStoppedAt R.remaining first readers.old lanes.old place (LaneFault.Capture why)
        → IsUnread R.remaining readers.new 0 (length readers.old) fault) }
{
    early_faults_stay();
    let found = fault_before(lanes, readers, place, piece)?;
    read_all_out(readers, place, readers.len(), piece)?;
    Ok(found.unwrap_or((place, why)))
}

/// Returns the failure that is answered if the capture at a place was not read on: the first one that cannot be read; else the first that has a
/// fault, and its first one.
///
/// So each capture is read on to its end, by rising place, and none is read again. O(what is left of them).
pub(crate) fn first_failure<A: Allocator + Copy, R: Read>(
    lanes: &mut [Lane<A>],
    readers: &mut [R],
    piece: &mut [u8],
    place: usize,
    fault: LaneFault,
) -> MergeFault
    requires room { 0 < length piece.old }
    requires place { place < length lanes.old }
    requires readers { length readers.old ≡ length lanes.old }
    requires no_fault { HaveNoFault lanes.old place }
    ensures room { length piece.new ≡ length piece.old }
    ensures answer { (first : List R) → AreStoppedAt R.remaining first readers.old lanes.old place fault
        → IsMergeFault R.remaining first result × WereAllRead R.remaining readers.new result }
{
    match fault {
        LaneFault::Memory => MergeFault::Memory,
        LaneFault::Read => match read_all_out(readers, 0, place, piece) {
            Ok(()) => MergeFault::Read(place),
            Err(fault) => fault,
        },
        LaneFault::Capture(why) => match fault_of_all(lanes, readers, piece, place, why) {
            Ok((place, why)) => MergeFault::Capture(place, why),
            Err(fault) => fault,
        },
    }
}
