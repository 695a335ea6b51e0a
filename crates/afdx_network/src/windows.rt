//! A run of all switches of a network by time, window by window.

ghost use Rattle.std.specs.Prelude.{◌≡◌, ◌+◌, ◌*◌, ◌<◌, ◌≤◌, ◌↔◌, ◌∷◌, ◌++◌, ℕ, IsTrue, Bool, MatchOption, IfOk, IfErr, IfSome, OnOk, All, Option, None, Some};
ghost use Rattle.std.specs.Prelude.{true, false, is_some, List, [], length, map, max, slice_get, position};
ghost use Rattle.std.specs.List.{AllZip};
ghost use Rattle.afdx_units.specs.Time.{last_instant, last_second, is_before};
ghost use Rattle.afdx_units.specs.Line.{cost_of, least_size};
ghost use Rattle.afdx_pcap.specs.Record.{IsWithinLimit};
ghost use Rattle.afdx_table.specs.declared.rows.PortRow.{PortRow as Row};
ghost use Rattle.afdx_table.specs.Content.{Content, port_row};
ghost use Rattle.afdx_merging.specs.Merge.{Arrival};
ghost use Rattle.afdx_measure.specs.Wanted.{keeps_lists};
ghost use Rattle.afdx_wiring.specs.File.{is_end};
ghost use Rattle.afdx_wiring.specs.declared.layout.Wire.{Wire as Cable};
ghost use Rattle.afdx_network_check.specs.Net.{wire_to, Network as Net};
ghost use Rattle.afdx_network.specs.declared.fault.NetworkRunFault.TheVariants as fault;
ghost use Rattle.afdx_network.specs.Way.{delayed};
ghost use Rattle.afdx_network.specs.Runs.{Given};
ghost use Rattle.afdx_network.specs.Given.{all_ends, IsWireFault};
ghost use Rattle.afdx_network.specs.Inner.Intake.{HasTaken, AreGivenSoFar, next_of};
ghost use Rattle.afdx_network.specs.Inner.Outputs.{HaveGone};
ghost use Rattle.afdx_network.specs.Inner.Sites.{IsLook, IsFirst, wire_place, GoesOver, HasSent, HasCome, AreInWindow, HaveCome};
ghost use Rattle.afdx_network.specs.Inner.Sites.{HandsOver, gone_at, gone_of, texts_of, counts_at};
ghost use Rattle.afdx_network.specs.Inner.Sites.{CanCome, CameOver, IsLateFault, AreEarly, StayEarly, IsPortAt, waits_at, Carries, Visits};
ghost use Rattle.afdx_network.specs.Inner.Windows.{IsOnWay, GoesOn, IsThrough, IsStop};
ghost use Rattle.afdx_origins.specs.Origins.{Origins as Noted};
ghost use Rattle.afdx_network.specs.Inner.Noted.{NoneHasLeft, IsNotedOnce, AreNoted, HasEnded};

use crate::fault::{NetworkRunFault, Stop};
use crate::intake::Intake;
use crate::laws::runs_leave_in_time;
use crate::site::Site;
use afdx_core::laws::by_stamp_is_ordered;
use afdx_count::Counts;
use afdx_folder::NewFile;
use afdx_measure::{Measured, Wanted};
use afdx_network_check::Network;
use afdx_origins::Origins;
use afdx_paced::laws::{
    later_records_change_nothing, later_records_send_nothing, nothing_leaves_before, out_goes_on,
    out_is_in_order, sends_go_on,
};
use afdx_pcap::laws::{
    each_file_has_one_reading, one_more_record_is_appended, what_is_written_is_a_capture,
};
use afdx_pcap::{PcapFault, Record};
use afdx_port::Sent;
use afdx_session::laws::{all_start_before_the_last_instant, records_are_early};
use afdx_units::{LEAST_SIZE, Stamp, cost, earlier_of};
use afdx_wiring::{End, Wire, is_end};
use std::alloc::{AllocError, Global};
use std::io::Read;

/// How long a window is if there are no wires, in nanoseconds: any length is right then. It is no longer than that if there are some.
const ALONE: u64 = 1_000_000;

/// Returns the least time from an arrival at the switch where a wire of this delay begins to the arrival that it causes at the wire's end: the
/// switch's latency, the line time of the least frame, and the delay.
fn least_of(network: &Network, from: End, delay: u32) -> Option<u64>
    ensures least { (t : Content) (p : Row) → slice_get network.now.tables from.switch ≡ Some t → port_row t from.port ≡ Some p
        → result ≡ Some (t.latency + cost_of p.speed least_size + delay) }
    ensures positive { IfSome result (λ least. 0 < least) }
{
    let table = network.table(from.switch)?;
    let row = table.port(from.port)?;
    Some(table.latency() + cost(row.speed, LEAST_SIZE) + u64::from(delay))
}

/// Returns the least of these times over all wires, or `ALONE` if that is less. O(wires).
fn look_of(network: &Network) -> u64
    ensures { IsLook network.now result }
{
    let wires = network.layout().wires.as_slice();
    let mut look = ALONE;
    for wire in wires {
        if let Some(least) = least_of(network, wire.from, wire.delay) {
            look = look.min(least);
        }
    }
    look
}

/// Makes the switches, at which nothing came in, and which note what is wanted of their runs.
pub(crate) fn sites_of(
    alloc: Global,
    network: &Network,
    wanted: Wanted,
) -> Result<Vec<Site>, AllocError>
    requires one_each { All (λ w. wire_to network.now w.to ≡ Some w) network.now.layout.wires }
    ensures ok { IfOk result (λ sites. (given : Given) × AreGivenSoFar network.now [] given × HaveCome network.now given 0 sites.items) }
    ensures early { (place : ℕ → ℕ) → IfOk result (λ sites. AreEarly place sites.items) }
    ensures gone { IfOk result (λ sites. All (λ bytes. bytes ≡ []) (gone_of sites.items)) }
    ensures ports { IfOk result (λ sites. length (gone_of sites.items) ≡ length (all_ends network.now)) }
    ensures none_left { IfOk result (λ sites. All (NoneHasLeft (keeps_lists wanted)) sites.items) }
{
    what_is_written_is_a_capture();
    let mut sites = Vec::new(alloc);
    for table in network.tables() {
        sites.push(Site::new(alloc, table, wanted)?)?;
    }
    Ok(sites)
}

/// Returns a copy of a record that came over a wire; none if it comes in the last second that pcap can hold.
fn brought(
    alloc: Global,
    frame: &Record<'_, Global>,
    delay: u32,
) -> Result<Option<Record<'static, Global>>, AllocError>
    ensures { IfOk result (λ out. MatchOption out (last_second ≤ frame.now.stamp + delay)
        (λ there. (there ≡ delayed delay frame.now) × (frame.now.stamp + delay < last_second) × IsWithinLimit frame.now)) }
{
    let Some(stamp) = frame.stamp().plus(u64::from(delay)) else {
        return Ok(None);
    };
    if stamp.late() {
        return Ok(None);
    }
    let bytes = Vec::from_slice(alloc, frame.bytes())?;
    let original = bytes.len() as u32;
    match Record::new(stamp, original, bytes) {
        Ok(there) => Ok(Some(there)),
        Err(_) => unreachable!(),
    }
}

/// Brings a record over a wire. `number` is the record's at the wire's end, counted from 1.
fn bring(
    alloc: Global,
    sites: &mut [Site],
    wire: &Wire,
    frame: &Record<'_, Global>,
    number: usize,
) -> Result<(), NetworkRunFault>
    requires going { All (λ s. s.paced.failed ≡ false) sites.old }
    requires within { wire.now.to.switch < length sites.old }
    ensures ok { OnOk result (CameOver sites.old sites.new wire.now frame.now) }
    ensures going { All (λ s. s.paced.failed ≡ false) sites.new }
    ensures err { CanCome sites.old wire.now frame.now → IfErr result (IsLateFault wire.now frame.now) }
{
    let Some(there) = brought(alloc, frame, wire.delay)? else {
        return Err(NetworkRunFault::Capture(wire.to.switch, wire.to.port, PcapFault::Late(number)));
    };
    sites[wire.to.switch].put(wire.to.port, there)
}

/// Finds the place of the first wire that goes to a port. O(wires).
fn first_to(wires: &[Wire], to: End) -> Option<usize>
    ensures { result ≡ position (λ w. is_end w.to to) wires.now }
{
    wires.iter().position(|wire| is_end(wire.to, to))
}

/// Returns whether no wire before the one at this place goes to the same port. O(wires).
fn is_first(wires: &[Wire], index: usize) -> bool
    requires { index < length wires.now }
    ensures { (w : Cable) → slice_get wires.now index ≡ Some w → (IsTrue result ↔ (wire_place wires.now w ≡ index)) }
{
    match first_to(wires, wires[index].to) {
        Some(place) => place == index,
        None => false,
    }
}

/// Returns whether what leaves a port goes over the wire at a place: it begins there, no wire before it goes to the same port, and it is not
/// down. O(wires).
fn goes_over(wires: &[Wire], index: usize, from: End) -> bool
    requires { index < length wires.now }
    ensures { (w : Cable) → slice_get wires.now index ≡ Some w → (IsTrue result ↔ GoesOver wires.now index from w) }
{
    is_end(wires[index].from, from) && is_first(wires, index) && !wires[index].down
}

/// Notes what a port sent, if there are origins to note it; if that fails, all that was noted is let go.
fn note_sent(origins: &mut Option<Origins<'_>>, from: End, sent: Option<Sent>)
    ensures { IsNotedOnce from sent origins.old origins.new }
{
    let Some(sent) = sent else {
        return;
    };
    let Some(known) = origins.take() else {
        return;
    };
    if let Ok(more) = known.note(from, &sent) {
        *origins = Some(more);
    }
}

/// Carries the next record that left a port to the port's capture and over its wires that are not down. Returns whether there was one.
fn carry(
    alloc: Global,
    network: &Network,
    sites: &mut [Site],
    origins: &mut Option<Origins<'_>>,
    from: End,
    place: usize,
) -> Result<bool, NetworkRunFault>
    requires going { All (λ s. s.paced.failed ≡ false) sites.old }
    requires all { length sites.old ≡ length network.now.tables }
    requires place { IsPortAt sites.old from place }
    ensures going { OnOk result (All (λ s. s.paced.failed ≡ false) sites.new × IsPortAt sites.new from place) }
    ensures reached { (h : ℕ) → All (λ s. s.paced.reached ≤ h) sites.old → OnOk result (All (λ s. s.paced.reached ≤ h) sites.new) }
    ensures fewer { IfOk result (λ more. IsTrue more → waits_at (slice_get sites.new from.switch) from.port < waits_at (slice_get sites.old from.switch) from.port) }
    ensures ok { (given : Given) (begin end : ℕ) → begin ≤ end → AreInWindow network.now given begin end sites.old
        → IfOk result (λ more. Carries network.now given begin end from more sites.old sites.new) }
    ensures err { (given : Given) (begin end : ℕ) → begin ≤ end → AreInWindow network.now given begin end sites.old → IfErr result (IsWireFault network.now) }
    ensures early { (given : Given) (begin end : ℕ) → begin ≤ end → AreInWindow network.now given begin end sites.old → StayEarly network.now given sites.old sites.new result }
    ensures gone { OnOk result (gone_at sites.new ≡ gone_at sites.old) }
    ensures noted { (keeps : Bool) → AreNoted network.now keeps sites.old origins.old → OnOk result (AreNoted network.now keeps sites.new origins.new) }
{
    nothing_leaves_before();
    later_records_change_nothing();
    later_records_send_nothing();
    out_goes_on();
    out_is_in_order();
    one_more_record_is_appended();
    what_is_written_is_a_capture();
    runs_leave_in_time();
    let sent = sites[from.switch].next_sent(from.port);
    let Some(frame) = sites[from.switch].hand_out(place, from.port)? else {
        return Ok(false);
    };
    note_sent(origins, from, sent);
    let number = sites[from.switch].count(place);
    let wires = network.layout().wires.as_slice();
    for index in 0..wires.len() {
        if goes_over(wires, index, from) {
            bring(alloc, sites, &wires[index], &frame, number)?;
        }
    }
    Ok(true)
}

/// Carries on all that left a port.
fn drain(
    alloc: Global,
    network: &Network,
    sites: &mut [Site],
    origins: &mut Option<Origins<'_>>,
    from: End,
    place: usize,
) -> Result<(), NetworkRunFault>
    requires going { All (λ s. s.paced.failed ≡ false) sites.old }
    requires all { length sites.old ≡ length network.now.tables }
    requires place { IsPortAt sites.old from place }
    ensures going { OnOk result (All (λ s. s.paced.failed ≡ false) sites.new) }
    ensures reached { (h : ℕ) → All (λ s. s.paced.reached ≤ h) sites.old → OnOk result (All (λ s. s.paced.reached ≤ h) sites.new) }
    ensures ok { (given : Given) (begin end : ℕ) → begin ≤ end → AreInWindow network.now given begin end sites.old
        → OnOk result (Carries network.now given begin end from false sites.old sites.new) }
    ensures err { (given : Given) (begin end : ℕ) → begin ≤ end → AreInWindow network.now given begin end sites.old → IfErr result (IsWireFault network.now) }
    ensures early { (given : Given) (begin end : ℕ) → begin ≤ end → AreInWindow network.now given begin end sites.old → StayEarly network.now given sites.old sites.new result }
    ensures gone { OnOk result (gone_at sites.new ≡ gone_at sites.old) }
    ensures noted { (keeps : Bool) → AreNoted network.now keeps sites.old origins.old → OnOk result (AreNoted network.now keeps sites.new origins.new) }
{
    while carry(alloc, network, sites, origins, from, place)? {}
    Ok(())
}

/// Lets a switch come to an instant, and carries on all that left it.
fn visit(
    alloc: Global,
    network: &Network,
    sites: &mut [Site],
    origins: &mut Option<Origins<'_>>,
    switch: usize,
    end: Stamp,
) -> Result<(), NetworkRunFault>
    requires going { All (λ s. s.paced.failed ≡ false) sites.old }
    requires all { length sites.old ≡ length network.now.tables }
    requires within { switch < length sites.old }
    requires in_order { All (λ s. s.paced.reached ≤ end) sites.old }
    ensures going { OnOk result (All (λ s. (s.paced.failed ≡ false) × (s.paced.reached ≤ end)) sites.new) }
    ensures ok { (given : Given) (begin : ℕ) → begin ≤ end → AreInWindow network.now given begin end sites.old
        → OnOk result (Visits network.now given begin end switch sites.old sites.new) }
    ensures err { (given : Given) (begin : ℕ) → begin ≤ end → AreInWindow network.now given begin end sites.old → IfErr result (IsWireFault network.now) }
    ensures early { (given : Given) (begin : ℕ) → begin ≤ end → AreInWindow network.now given begin end sites.old → StayEarly network.now given sites.old sites.new result }
    ensures gone { OnOk result (gone_at sites.new ≡ gone_at sites.old) }
    ensures noted { (keeps : Bool) → AreNoted network.now keeps sites.old origins.old → OnOk result (AreNoted network.now keeps sites.new origins.new) }
{
    out_goes_on();
    sends_go_on();
    sites[switch].go_to(end)?;
    for place in 0..sites[switch].ports() {
        if let Some(port) = sites[switch].port(place) {
            drain(alloc, network, sites, origins, End { switch, port }, place)?;
        }
    }
    Ok(())
}

/// Returns the first instant at which anything can still happen at any switch. O(switches).
fn first_of(sites: &[Site]) -> Option<Stamp>
    ensures { IsFirst sites.now result }
{
    let mut first: Option<Stamp> = None;
    for site in sites {
        first = earlier_of(first, site.next());
    }
    first
}

/// Returns whether there is an instant that lies before another one.
fn is_before(instant: Option<Stamp>, end: Stamp) -> bool
    ensures { result ≡ is_before end instant }
{
    match instant {
        Some(instant) => instant < end,
        None => false,
    }
}

/// Lets each switch at which something can happen before an instant come to it.
fn window(
    alloc: Global,
    network: &Network,
    sites: &mut [Site],
    origins: &mut Option<Origins<'_>>,
    end: Stamp,
) -> Result<(), NetworkRunFault>
    requires going { All (λ s. s.paced.failed ≡ false) sites.old }
    requires all { length sites.old ≡ length network.now.tables }
    requires in_order { All (λ s. s.paced.reached ≤ end) sites.old }
    ensures going { OnOk result (All (λ s. (s.paced.failed ≡ false) × (s.paced.reached ≤ end)) sites.new) }
    ensures ok { (given : Given) (begin : ℕ) → begin ≤ end → AreInWindow network.now given begin end sites.old → All (λ s. s.paced.reached ≤ begin) sites.old
        → OnOk result (AreInWindow network.now given begin end sites.new × All (HasCome end) sites.new) }
    ensures err { (given : Given) (begin : ℕ) → begin ≤ end → AreInWindow network.now given begin end sites.old → IfErr result (IsWireFault network.now) }
    ensures early { (given : Given) (begin : ℕ) → begin ≤ end → AreInWindow network.now given begin end sites.old → StayEarly network.now given sites.old sites.new result }
    ensures gone { OnOk result (gone_at sites.new ≡ gone_at sites.old) }
    ensures noted { (keeps : Bool) → AreNoted network.now keeps sites.old origins.old → OnOk result (AreNoted network.now keeps sites.new origins.new) }
{
    out_goes_on();
    for switch in 0..sites.len() {
        if is_before(sites[switch].next(), end) {
            visit(alloc, network, sites, origins, switch, end)?;
        }
    }
    Ok(())
}

/// Returns the end of the window that begins at the later of two instants, and is so long; the last instant if it ends past that.
fn end_of(last: Stamp, first: Stamp, look: u64) -> Stamp
    requires { 0 < look }
    ensures least { max first last ≤ result }
    ensures most { result ≤ max first last + look }
    ensures within { result ≤ last_instant }
    ensures later { last < last_instant → last < result }
{
    let begin = if first < last { last } else { first };
    match begin.plus(look) {
        Some(end) => end,
        None => Stamp::LAST,
    }
}

/// Puts the next of the records that are given into its switch.
fn put_next<R: Read>(
    alloc: Global,
    intake: &mut Intake,
    readers: &mut [R],
    sites: &mut [Site],
) -> Result<(), Stop>
    requires going { All (λ s. s.paced.failed ≡ false) sites.old }
    requires on { (net : Net) × (first : List R) × (came : List Arrival) × HasTaken R.remaining net first readers.old intake.old came × (length sites.old ≡ length net.tables) }
    requires more { is_some (next_of intake.old) ≡ true }
    ensures going { All (λ s. s.paced.failed ≡ false) sites.new }
    ensures reached { (h : ℕ) → All (λ s. s.paced.reached ≤ h) sites.old → All (λ s. s.paced.reached ≤ h) sites.new }
    ensures gone { gone_at sites.new ≡ gone_at sites.old }
    ensures noted { (net : Net) (keeps : Bool) (origins : Option Noted) → AreNoted net keeps sites.old origins → OnOk result (AreNoted net keeps sites.new origins) }
    ensures on { (net : Net) (first : List R) (came : List Arrival) → HasTaken R.remaining net first readers.old intake.old came
        → OnOk result ((one : Arrival) × HasTaken R.remaining net first readers.new intake.new (came ++ one ∷ [])) }
    ensures ok { (net : Net) (first : List R) (came : List Arrival) (given : Given) (h : ℕ) → IsOnWay R.remaining net first readers.old intake.old came given h sites.old
        → OnOk result (GoesOn R.remaining net first readers.new intake.new came sites.old h sites.new) }
    ensures err { (net : Net) (first : List R) (came : List Arrival) (given : Given) (h : ℕ) → IsOnWay R.remaining net first readers.old intake.old came given h sites.old
        → IfErr result (IsStop R.remaining net first readers.new intake.new) }
{
    later_records_change_nothing();
    later_records_send_nothing();
    out_goes_on();
    what_is_written_is_a_capture();
    each_file_has_one_reading();
    match intake.next(alloc, readers) {
        Ok(Some((to, frame))) => Ok(sites[to.switch].put(to.port, frame)?),
        Ok(None) => unreachable!(),
        Err(fault) => Err(Stop::Intake(fault)),
    }
}

/// Puts the records that are given before an instant into their switches.
fn take_in<R: Read>(
    alloc: Global,
    intake: &mut Intake,
    readers: &mut [R],
    sites: &mut [Site],
    end: Stamp,
) -> Result<(), Stop>
    requires going { All (λ s. s.paced.failed ≡ false) sites.old }
    requires on { (net : Net) × (first : List R) × (came : List Arrival) × HasTaken R.remaining net first readers.old intake.old came × (length sites.old ≡ length net.tables) }
    ensures going { OnOk result (All (λ s. s.paced.failed ≡ false) sites.new) }
    ensures reached { (h : ℕ) → All (λ s. s.paced.reached ≤ h) sites.old → OnOk result (All (λ s. s.paced.reached ≤ h) sites.new) }
    ensures gone { OnOk result (gone_at sites.new ≡ gone_at sites.old) }
    ensures noted { (net : Net) (keeps : Bool) (origins : Option Noted) → AreNoted net keeps sites.old origins → OnOk result (AreNoted net keeps sites.new origins) }
    ensures on { (net : Net) (first : List R) (came : List Arrival) → HasTaken R.remaining net first readers.old intake.old came
        → OnOk result ((more : List Arrival) × HasTaken R.remaining net first readers.new intake.new (came ++ more)) }
    ensures ok { (net : Net) (first : List R) (came : List Arrival) (given : Given) (h : ℕ) → IsOnWay R.remaining net first readers.old intake.old came given h sites.old
        → OnOk result (GoesOn R.remaining net first readers.new intake.new came sites.old h sites.new × (is_before end (next_of intake.new) ≡ false)) }
    ensures err { (net : Net) (first : List R) (came : List Arrival) (given : Given) (h : ℕ) → IsOnWay R.remaining net first readers.old intake.old came given h sites.old
        → IfErr result (IsStop R.remaining net first readers.new intake.new) }
{
    for _record in 0..u64::MAX {
        if !is_before(intake.least(), end) {
            return Ok(());
        }
        put_next(alloc, intake, readers, sites)?;
    }
    Err(Stop::Run(NetworkRunFault::Memory))
}

/// Writes what has left to the files, in parts.
fn hand_over<F: NewFile>(sites: &mut [Site], files: &mut [F]) -> Result<(), AllocError>
    requires { length files.old ≡ length (gone_of sites.old) }
    ensures same { OnOk result (AllZip HandsOver sites.old sites.new) }
    ensures gone { (start : List F) → HaveGone F.contents start files.old (gone_of sites.old) → OnOk result (HaveGone F.contents start files.new (gone_of sites.new)) }
{
    let mut first = 0;
    for site in sites.iter_mut() {
        let next = first + site.ports();
        site.hand_over(&mut files[first..next])?;
        first = next;
    }
    Ok(())
}

/// Lets all switches go on until nothing is left.
///
/// A window begins at the first instant at which anything can happen at any switch or a record is given. What is given before its end comes
/// in first; then each switch at which something can happen before its end comes to it, and what leaves goes over the wires.
pub(crate) fn go_through<R: Read, F: NewFile>(
    alloc: Global,
    network: &Network,
    intake: &mut Intake,
    readers: &mut [R],
    sites: &mut [Site],
    origins: &mut Option<Origins<'_>>,
    files: &mut [F],
) -> Result<(), Stop>
    requires going { All (λ s. (s.paced.failed ≡ false) × (s.paced.reached ≤ 0)) sites.old }
    requires all { length sites.old ≡ length network.now.tables }
    requires on { (first : List R) × (came : List Arrival) × HasTaken R.remaining network.now first readers.old intake.old came }
    requires files { length files.old ≡ length (gone_of sites.old) }
    ensures going { OnOk result (All (λ s. s.paced.failed ≡ false) sites.new) }
    ensures gone { (start : List F) → HaveGone F.contents start files.old (gone_of sites.old) → OnOk result (HaveGone F.contents start files.new (gone_of sites.new)) }
    ensures files { OnOk result (length files.new ≡ length (gone_of sites.new)) }
    ensures noted { (keeps : Bool) → AreNoted network.now keeps sites.old origins.old → OnOk result (AreNoted network.now keeps sites.new origins.new) }
    ensures ok { (first : List R) (given : Given) → IsOnWay R.remaining network.now first readers.old intake.old [] given 0 sites.old
        → OnOk result (IsThrough R.remaining network.now first readers.new intake.new sites.new) }
    ensures err { (first : List R) (given : Given) → IsOnWay R.remaining network.now first readers.old intake.old [] given 0 sites.old → ((place : ℕ → ℕ) → AreEarly place sites.old)
        → IfErr result (IsStop R.remaining network.now first readers.new intake.new) }
{
    out_goes_on();
    by_stamp_is_ordered();
    what_is_written_is_a_capture();
    each_file_has_one_reading();
    records_are_early();
    all_start_before_the_last_instant();
    let look = look_of(network);
    let mut end = Stamp::ZERO;
    while end < Stamp::LAST {
        let Some(first) = earlier_of(first_of(sites), intake.least()) else {
            return Ok(());
        };
        end = end_of(end, first, look);
        take_in(alloc, intake, readers, sites, end)?;
        window(alloc, network, sites, origins, end)?;
        hand_over(sites, files)?;
    }
    Ok(())
}

/// Writes all that left the switches to the files, and returns what each switch has counted.
pub(crate) fn counts_of<F: NewFile>(
    alloc: Global,
    sites: Vec<Site>,
    files: &mut [F],
) -> Result<Vec<Counts<Global>>, AllocError>
    requires going { All (λ s. s.paced.failed ≡ false) sites.items }
    requires files { length files.old ≡ length (gone_of sites.items) }
    ensures counts { IfOk result (λ counts. counts.items ≡ counts_at sites.items) }
    ensures gone { (start : List F) → HaveGone F.contents start files.old (gone_of sites.items)
        → OnOk result (HaveGone F.contents start files.new (texts_of sites.items)) }
{
    let mut counts = Vec::new(alloc);
    let mut first = 0;
    for site in sites {
        let next = first + site.ports();
        counts.push(site.finish(&mut files[first..next])?)?;
        first = next;
    }
    Ok(counts)
}

/// Returns the counts of each switch, and what was wanted of its run.
pub(crate) fn measured_of(
    alloc: Global,
    sites: Vec<Site>,
) -> Result<Vec<(Counts<Global>, Measured<'static, Global>)>, AllocError>
    requires { All (λ s. s.paced.failed ≡ false) sites.items }
    ensures { IfOk result (λ all. AllZip HasEnded sites.items all.items) }
{
    let mut all = Vec::new(alloc);
    for site in sites {
        all.push(site.into_measured()?)?;
    }
    Ok(all)
}
