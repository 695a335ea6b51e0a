//! The delays of a network's links from end to end.

ghost use Rattle.std.specs.Prelude.{◌≡◌, ◌<◌, ◌+◌, [], ◌==◌, true, List, slice_get, position, option_copied, IfErr, IfNone, IfOk, IfSome, MatchOption, MatchResult, OnErr, OnOk, Some, None};
ghost use Rattle.afdx_network_check.specs.Net.{row_at, wire_to};
ghost use Rattle.afdx_wiring.specs.File.{is_end};
ghost use Rattle.afdx_origins.specs.declared.departure.Departure.{Departure as Went};
ghost use Rattle.afdx_origins.specs.Origins.{CameFirst, HasNoRow, IsNotNoted, IsSummary, IsUntold, after_sending};
ghost use Rattle.afdx_origins.specs.Inner.Known.{IsRowAt, AreComing, AreKnown, KeepDelays, HaveDelayMore, HasCome, IsCarried, IsFull, IsNotCarried, Leaves, StayHeld};

use crate::at_link::Coming;
use crate::at_switch::AtSwitch;
use crate::departure::Departure;
use crate::fault::OriginsFault;
use afdx_measure::Delays;
use afdx_network_check::Network;
use afdx_past::Gone;
use afdx_port::Sent;
use afdx_table::LinkRow;
use afdx_table::laws::{links_are_at_their_places, links_are_found};
use afdx_units::Stamp;
use afdx_wiring::{End, Wire, is_end};
use std::alloc::{AllocError, Global};
use std::marker::Model;

/// The delays of the copies that the ports of a network's switches have sent so far, each from the stamp of its frame at its first switch.
///
/// Contracts see the network, and each copy with the port that sent it. It keeps of each link the frames that are on their way, and its
/// delays.
#[derive(Drop)]
pub struct Origins<'n> {
    network: &'n Network,
    /// By the places of the switches.
    switches: Vec<AtSwitch>,
    sent: Gone<Departure>,
}

impl<'n> Model for Origins<'n> {
    ghost use Rattle.afdx_origins.specs.Origins.{Origins as Seen};
    ghost use Rattle.afdx_origins.specs.Inner.Known.{AreKnown};

    ghost Value = { Seen };

    ghost view = { λ o. record { net = o.network.now; sent = o.sent.items } };

    ghost invariant = { λ o. AreKnown o.network.now o.sent.items o.switches.items };
}

/// Returns the place of a port among those of a link's row, if it is one of them. O(ports).
fn place_in(link: &LinkRow, port: u8) -> Option<usize>
    ensures { result ≡ position (λ to. to == port) link.now.to }
{
    link.to.as_slice().iter().position(|to| *to == port)
}

/// Returns the row of a link in the table of a switch, and its place there, if there is one. O(1).
fn row_at(network: &Network, switch: usize, link: u16) -> Option<(usize, &LinkRow)>
    ensures { MatchOption result (row_at network.now switch link ≡ None) (λ at. IsRowAt network.now switch link at.0 at.1.now) }
{
    links_are_found();
    links_are_at_their_places();
    let table = network.table(switch)?;
    let place = table.link_place(link)?;
    let row = table.link_at(place)?;
    Some((place, row))
}

/// Returns what is kept of a switch, if there is one. O(1).
fn kept_at(switches: &[AtSwitch], switch: usize) -> Option<&AtSwitch>
    ensures { option_copied result ≡ slice_get switches.now switch }
{
    switches.get(switch)
}

/// Returns when the frame of a copy that a switch sent had come to its first switch: when it came to this one, if no wire goes to the port
/// of the link's row. None if it is not known.
fn first_of(
    network: &Network,
    switches: &[AtSwitch],
    switch: usize,
    place: usize,
    link: &LinkRow,
    sent: &Sent,
) -> Option<Stamp>
    requires { IsRowAt network.now switch link.now.id place link.now }
    ensures came { (all : List Went) → AreComing network.now all switches.now
        → IfSome result (CameFirst network.now all (record { switch = switch; link = link.now }) sent.now) }
    ensures none { (all : List Went) → AreKnown network.now all switches.now → IfNone result (IsUntold network.now all switch link.now.id sent.now) }
{
    let from = End {
        switch,
        port: link.from,
    };
    match network.wire_to(from) {
        None => Some(sent.item.stamp),
        Some(_) => switches.get(switch)?.first_of(place, sent.item.stamp),
    }
}

/// Notes that the frame of a copy that ended at an instant is on its way over a wire, if the switch at the wire's end has a row of the link
/// that the wire feeds. `first` is when the frame had come to its first switch.
fn bring(
    network: &Network,
    switches: &mut [AtSwitch],
    wire: &Wire,
    link: u16,
    end: Stamp,
    first: Stamp,
) -> Result<(), OriginsFault>
    requires { wire_to network.now wire.now.to ≡ Some wire.now }
    ensures coming { (all : List Went) → Leaves network.now all wire.now.from link end first → AreComing network.now all switches.old → OnOk result (AreComing network.now all switches.new) }
    ensures delays { OnOk result (KeepDelays switches.old switches.new) }
    ensures told { (all : List Went) → Leaves network.now all wire.now.from link end first → AreComing network.now all switches.old
        → OnOk result (StayHeld network.now all switches.old switches.new × HasCome network.now all link wire.now (end + wire.now.delay) switches.new) }
    ensures fault { IfErr result (IsNotCarried network.now wire.now.from end) }
{
    let Some((place, row)) = row_at(network, wire.to.switch, link) else {
        return Ok(());
    };
    if row.from != wire.to.port || wire.to.switch >= switches.len() {
        return Ok(());
    }
    let Some(at) = end.plus(u64::from(wire.delay)) else {
        return Err(OriginsFault::Late);
    };
    switches[wire.to.switch].add(place, Coming { at, first })?;
    Ok(())
}

/// Notes as `bring` does that a frame is on its way over a wire, if the wire begins at a port and is the first that goes to its end.
/// O(wires).
fn bring_from(
    network: &Network,
    switches: &mut [AtSwitch],
    wire: &Wire,
    from: End,
    link: u16,
    end: Stamp,
    first: Stamp,
) -> Result<(), OriginsFault>
    ensures coming { (all : List Went) → Leaves network.now all from link end first → AreComing network.now all switches.old → OnOk result (AreComing network.now all switches.new) }
    ensures delays { OnOk result (KeepDelays switches.old switches.new) }
    ensures told { (all : List Went) → Leaves network.now all from link end first → AreComing network.now all switches.old
        → OnOk result (StayHeld network.now all switches.old switches.new × (is_end wire.now.from from ≡ true → wire_to network.now wire.now.to ≡ Some wire.now
        → HasCome network.now all link wire.now (end + wire.now.delay) switches.new)) }
    ensures fault { IfErr result (IsNotCarried network.now from end) }
{
    if !is_end(wire.from, from) {
        return Ok(());
    }
    if !network.is_first(wire) {
        return Ok(());
    }
    bring(network, switches, wire, link, end, first)
}

/// Notes as `bring` does that a frame is on its way over all wires that begin at a port. O(wires) for each of them.
fn carry(
    network: &Network,
    switches: &mut [AtSwitch],
    from: End,
    link: u16,
    end: Stamp,
    first: Stamp,
) -> Result<(), OriginsFault>
    ensures coming { (all : List Went) → Leaves network.now all from link end first → AreComing network.now all switches.old → OnOk result (AreComing network.now all switches.new) }
    ensures delays { OnOk result (KeepDelays switches.old switches.new) }
    ensures told { (all : List Went) → Leaves network.now all from link end first → AreComing network.now all switches.old
        → OnOk result (IsCarried network.now all from link end switches.old switches.new) }
    ensures fault { IfErr result (IsNotCarried network.now from end) }
{
    for wire in network.layout().wires.as_slice() {
        bring_from(network, switches, wire, from, link, end, first)?;
    }
    Ok(())
}

/// Notes the delay of a copy of the link at a place, which the port at a place of its row sent.
fn note_delay(
    switches: &mut [AtSwitch],
    switch: usize,
    place: usize,
    port: usize,
    delay: u64,
) -> Result<(), AllocError>
    ensures delays { OnOk result (HaveDelayMore switch place port delay switches.old switches.new) }
    ensures full { OnErr result (IsFull switch place port switches.old) }
{
    if switch >= switches.len() {
        return Err(AllocError);
    }
    switches[switch].note(place, port, delay)
}

/// Makes a switch at which nothing is known for each switch of a network. O(links) of all tables.
fn nothing_known(alloc: Global, network: &Network) -> Result<Vec<AtSwitch>, AllocError>
    ensures { IfOk result (λ switches. AreKnown network.now [] switches.items) }
{
    let mut switches = Vec::new(alloc);
    for table in network.tables() {
        switches.push(AtSwitch::new(alloc, table)?)?;
    }
    Ok(switches)
}

impl<'n> Origins<'n> {
    /// Makes the delays of a network of which nothing was sent.
    ///
    /// An error says that memory ran out. O(links) of all tables, and 32 bytes for each of their ports.
    pub fn new(alloc: Global, network: &'n Network) -> Result<Origins<'n>, AllocError>
        ensures { IfOk result (λ o. o ≡ record { net = network.now; sent = [] }) }
    {
        let switches = nothing_known(alloc, network)?;
        Ok(Origins {
            network,
            switches,
            sent: Gone::new(),
        })
    }

    /// Notes that a port sent a copy.
    ///
    /// What was noted is of no use after an error. O(wires), and O(frames of the link that are on their way).
    ///
    /// # Errors
    ///
    /// `Unknown` if the switch has no row of the copy's link that leads to the port; or if a wire goes to the row's port, and no copy of the
    /// link came over it at the stamp of this one's frame, or another one came over it more than 600,000,000 ns later. `Late` if the frame
    /// would come at the end of a wire after the last instant; `Count` if the port had sent 2^64 - 1 copies of the link; `Memory` if memory
    /// ran out.
    pub fn note(self, from: End, sent: &Sent) -> Result<Origins<'n>, OriginsFault>
        ensures { MatchResult result (λ o. o ≡ after_sending from sent.now self.entry) (IsNotNoted self.entry from sent.now) }
    {
        let Origins {
            network,
            mut switches,
            sent: all,
        } = self;
        let link = sent.item.link;
        let Some((place, row)) = row_at(network, from.switch, link) else {
            return Err(OriginsFault::Unknown);
        };
        let Some(port) = place_in(row, from.port) else {
            return Err(OriginsFault::Unknown);
        };
        let Some(first) = first_of(network, &switches, from.switch, place, row, sent) else {
            return Err(OriginsFault::Unknown);
        };
        carry(network, &mut switches, from, link, sent.end, first)?;
        let delay = sent.end.ns().saturating_sub(first.ns());
        if note_delay(&mut switches, from.switch, place, port, delay).is_err() {
            return Err(OriginsFault::Count);
        }
        let departure = Departure { from, copy: *sent };
        Ok(Origins {
            network,
            switches,
            sent: all.and(&departure),
        })
    }

    /// Returns the delays of the copies of a link that a port sent; none if the switch has no row of the link that leads there. O(ports).
    pub fn delays_at(&self, link: u16, from: End) -> Option<Delays>
        ensures { MatchOption result (HasNoRow self.now.net link from) (IsSummary self.now.net self.now.sent link from) }
    {
        let (place, row) = row_at(self.network, from.switch, link)?;
        let port = place_in(row, from.port)?;
        let switch = kept_at(&self.switches, from.switch)?;
        Some(switch.delays_at(place, port))
    }
}
