//! Records that go from the lanes through the switch, and out again.

ghost use Rattle.std.specs.Prelude.{◌≡◌, ◌<◌, ◌≤◌, ◌^◌, ℕ, Bool, true, false, None, Some, [], length, map, vec_capacity, IfOk, IfErr, OnOk, option_map, Option};
ghost use Rattle.afdx_units.specs.Time.{last_second, stamp_end};
ghost use Rattle.afdx_table.specs.WellFormed.{IsWellFormed};
ghost use Rattle.afdx_load.specs.Accepted.{IsAccepted};
ghost use Rattle.afdx_measure.specs.Wanted.{keeps_lists};
ghost use Rattle.afdx_session.specs.Outcome.{table_in, is_cleared};
ghost use Rattle.afdx_core.specs.Isolation.{IsRun};
ghost use Rattle.afdx_core.specs.Step.{Step};
ghost use Rattle.afdx_core.specs.Held.{not_of_memory, IsTaken, Keeps};
ghost use Rattle.afdx_core.specs.Rows.{row_of};
ghost use Rattle.afdx_core.specs.State.{refusal_of, fresh_state, after_finish};
ghost use Rattle.afdx_count.specs.Tally.{noted, fresh, ended_tally};
ghost use Rattle.afdx_session.specs.Inner.Kept.{AreOfTable, AreTouched, IsOfSameTable, IsGoing, HasCome, IsRunning, come_to};
ghost use Rattle.afdx_session.specs.Inner.Lanes.{limit_at, heads_of, NoneGoes, IsLimit};
ghost use Rattle.afdx_session.specs.Inner.Lent.{texts_over, taken_by, left_in, IsOneFault, IsCarrying, CarriesOn, HandsOn, HaveGone};
ghost use Rattle.afdx_session.specs.Inner.Files.{PutsOut, Proceeds, HasEndedInto};
ghost use Rattle.afdx_session.specs.Inner.Parts.{RunsInto, IsFedInto, IsEndedInto, StopsAt};
ghost use Rattle.afdx_session.specs.Inner.View.{IsRound, IsReady, IsOpenAt, IsFed, IsNotFed, IsEnded, IsNotEnded, OthersStay, AreSettledLanes, AreFreshLanes, AreHalfDone, AreEndedLanes};
ghost use Rattle.afdx_session.specs.Inner.View.{AreLent, texts_at};
ghost use Rattle.afdx_session.specs.Texts.{texts_of, AreOfPorts};
ghost use Rattle.afdx_session.specs.Reading.{IsReadFault};

use crate::check::check_texts;
use crate::drain::{drain_all, drain_into};
use crate::lane::{
    Lane, head_of, heads_of, lanes_of, latest_of, limit_of, look_ahead, take_settled,
};
use crate::plan::{Outcome, Plan, RunFault};
use crate::rest::Rest;
use afdx_core::CoreFault;
use afdx_core::laws::{by_stamp_is_ordered, merged_is_a_merge, merged_is_by_stamp_and_port};
use afdx_count::Counts;
use afdx_count::laws::note_counts_one_more;
use afdx_earliest::Instants;
use afdx_folder::NewFile;
use afdx_measure::{Measuring, Wanted};
use afdx_pcap::Record;
use afdx_pcap::laws::{
    each_file_has_one_reading, taken_records_are_the_first, taken_records_begin_the_capture,
};
use afdx_port::laws::{arrivals_change_nothing_earlier, sent_goes_on, stamps_keep_their_order};
use afdx_units::Stamp;
use std::alloc::{AllocError, Allocator};

/// How many records of captures that come whole go to the switch before what has left goes out.
const RECORDS_BETWEEN_DRAINS: usize = 256;

/// How many frames are few enough to be at hand for all ports that send them, in a processor's second cache.
const FRAMES_AT_HAND: usize = 1024;

/// How many nanoseconds the switch goes on at once when no record comes any more: in so many a port of 100 Mbit/s sends less
/// than a part of an output.
const STEP: u64 = 1_000_000;

/// What becomes of frames that have left while captures that come whole are carried to the switch.
#[derive(Clone, Copy)]
pub(crate) enum Leaving {
    /// They go out to the lanes, so that the switch holds few of them.
    GoOut,
    /// They stay in the switch, until each port is asked for its own.
    Stay,
}

/// A switch, its counters, and what there is of each port.
#[derive(Drop)]
pub(crate) struct Machine<'a, A: Allocator> {
    pub(crate) switch: Measuring<'a, A>,
    pub(crate) counts: Counts<A>,
    /// By rising port.
    pub(crate) lanes: Vec<Lane<'a, A>, A>,
}

/// Returns the fault of an arrival that was refused, though its port is the table's and its stamp does not go back: memory ran out.
fn out_of_memory(fault: CoreFault) -> AllocError
    requires { not_of_memory fault ≡ None }
{
    match fault {
        CoreFault::Memory => AllocError,
        CoreFault::Earlier | CoreFault::NoSuchPort => unreachable!(),
    }
}

/// Returns the instant that the switch comes to if this place in the merge is the least that a capture has come to. If all captures have
/// ended, it is the last instant, before which whatever is sent starts.
fn instant_of(limit: Option<(Stamp, u8)>) -> Stamp
    ensures { result ≡ come_to (option_map (λ p. p.0) limit) }
{
    match limit {
        Some((stamp, _)) => stamp,
        None => Stamp::LAST,
    }
}

/// Returns the fault of the lowest port that has one, if a capture has this fault; else the same fault. O(bytes).
fn first_fault<A: Allocator + Copy>(
    alloc: A,
    captures: &[(u8, Vec<u8, A>)],
    fault: RunFault,
) -> RunFault
    requires { IsOneFault (texts_of captures.now) fault }
    ensures { IsReadFault (texts_of captures.now) result }
{
    each_file_has_one_reading();
    if let RunFault::Capture(..) = fault {
        match check_texts(alloc, captures) {
            Ok(()) => unreachable!(),
            Err(first) => first,
        }
    } else {
        fault
    }
}

impl<'a, A: Allocator + Copy> Machine<'a, A> {
    /// Makes a machine over a plan, whose switch took nothing.
    pub(crate) fn new(alloc: A, plan: Plan, wanted: Wanted) -> Result<Machine<'a, A>, AllocError>
        ensures fresh { IfOk result (λ m. (m.switch ≡ fresh_state (is_cleared plan) (keeps_lists wanted) (table_in plan)) × (m.counts ≡ fresh (table_in plan))
            × AreFreshLanes (table_in plan).ports m.lanes.items) }
        ensures formed { IsWellFormed (table_in plan) }
        ensures accepted { is_cleared plan ≡ true → IsAccepted (table_in plan) }
    {
        let lanes = lanes_of(alloc, plan.table().ports())?;
        let counts = Counts::new(alloc, plan.table())?;
        let switch = plan.into_switch(alloc, wanted)?;
        Ok(Machine {
            switch,
            counts,
            lanes,
        })
    }

    /// Gives a record to the switch, and counts it.
    #[inline(always)]
    fn give(&mut self, port: u8, frame: Record<'a, A>) -> Result<(), AllocError>
        requires early { frame.stamp < last_second }
        requires none_else { refusal_of self.old.switch.run port frame.stamp ≡ None }
        ensures lanes { self.new.lanes ≡ self.old.lanes }
        ensures same { IsOfSameTable self.old.switch self.new.switch }
        ensures ok { OnOk result ((step : Step) × (step.number < 2 ^ 64)
            × IsTaken self.old.switch self.new.switch (row_of self.old.switch.run.table port frame.entry) frame.entry step
            × (self.new.counts ≡ noted step self.old.counts)) }
    {
        let step = match self.switch.arrive(port, frame) {
            Ok(step) => step,
            Err((fault, _)) => return Err(out_of_memory(fault)),
        };
        self.counts.note(&step);
        Ok(())
    }

    /// Gives the switch the first of all records that wait, if it lies within the limit. Returns the place of its lane. O(1).
    fn give_next(
        &mut self,
        heads: &mut Instants,
        limit: Option<(Stamp, u8)>,
    ) -> Result<Option<usize>, AllocError>
        requires of { AreOfTable self.old.switch.run.table self.old.lanes.items }
        requires going { IsGoing self.old.switch.run.table self.old.lanes.items self.old.switch self.old.counts }
        requires limit { IsLimit limit self.old.lanes.items }
        requires heads { heads.old ≡ heads_of self.old.lanes.items }
        ensures heads { OnOk result (heads.new ≡ heads_of self.new.lanes.items) }
        ensures touched { AreTouched self.old.lanes.items self.new.lanes.items }
        ensures same { IsOfSameTable self.old.switch self.new.switch }
        ensures ok { IfOk result (λ went. IsRound went self.old self.new) }
    {
        by_stamp_is_ordered();
        arrivals_change_nothing_earlier();
        stamps_keep_their_order();
        note_counts_one_more();
        let Some((place, stamp)) = heads.first() else {
            return Ok(None);
        };
        match take_settled(&mut self.lanes, place, stamp, limit) {
            Some(frame) => {
                let lane = &self.lanes[place];
                let port = lane.port;
                heads.set(place, head_of(lane));
                self.give(port, frame)?;
                Ok(Some(place))
            }
            None => Ok(None),
        }
    }

    /// Gives the switch all records whose place is settled, by stamp and then by port.
    fn give_settled(&mut self) -> Result<(), AllocError>
        requires of { AreOfTable self.old.switch.run.table self.old.lanes.items }
        requires going { IsGoing self.old.switch.run.table self.old.lanes.items self.old.switch self.old.counts }
        ensures touched { AreTouched self.old.lanes.items self.new.lanes.items }
        ensures same { IsOfSameTable self.old.switch self.new.switch }
        ensures ok { OnOk result (IsGoing self.new.switch.run.table self.new.lanes.items self.new.switch self.new.counts
            × ((first : Option (ℕ × ℕ)) × NoneGoes (limit_at self.new.lanes.items) self.new.lanes.items first)) }
    {
        let limit = limit_of(&self.lanes);
        let mut heads = heads_of(&self.lanes);
        while self.give_next(&mut heads, limit)?.is_some() {}
        Ok(())
    }

    /// Gives the switch what is settled, and lets it come to the frontier. O(ports), and O(1) for each record that goes, beside the
    /// switch's own work.
    fn reach_frontier(&mut self) -> Result<(), AllocError>
        requires of { AreOfTable self.old.switch.run.table self.old.lanes.items }
        requires going { IsGoing self.old.switch.run.table self.old.lanes.items self.old.switch self.old.counts }
        ensures touched { AreTouched self.old.lanes.items self.new.lanes.items }
        ensures same { IsOfSameTable self.old.switch self.new.switch }
        ensures ok { OnOk result (HasCome self.new.switch.run.table self.new.lanes.items self.new.switch self.new.counts) }
    {
        by_stamp_is_ordered();
        self.give_settled()?;
        let frontier = instant_of(limit_of(&self.lanes));
        if self.switch.advance(frontier).is_err() {
            unreachable!();
        }
        Ok(())
    }

    /// Gives the switch what is settled, and lets it come to the frontier; what has left then goes out.
    ///
    /// O(ports), O(1) for each record that goes, and O(bytes) of what goes out, beside the switch's own work.
    pub(crate) fn make_round(&mut self) -> Result<(), AllocError>
        requires of { AreOfTable self.old.switch.run.table self.old.lanes.items }
        requires going { IsGoing self.old.switch.run.table self.old.lanes.items self.old.switch self.old.counts }
        requires handed { length self.old.switch.run.handed ≡ length self.old.switch.run.table.ports }
        ensures touched { AreTouched self.old.lanes.items self.new.lanes.items }
        ensures same { IsOfSameTable self.old.switch self.new.switch }
        ensures ok { OnOk result (IsRunning self.new.switch.run.table self.new.lanes.items self.new.switch self.new.counts) }
    {
        self.reach_frontier()?;
        drain_all(&mut self.switch, &mut self.lanes)
    }

    /// Moves all that has left to the lanes, and from there to the files of the ports, in parts.
    fn drain_into_files<F: NewFile>(&mut self, files: &mut [F]) -> Result<(), AllocError>
        requires of { AreOfTable self.old.switch.run.table self.old.lanes.items }
        requires handed { length self.old.switch.run.handed ≡ length self.old.switch.run.table.ports }
        requires come { HasCome self.old.switch.run.table self.old.lanes.items self.old.switch self.old.counts }
        requires files { length files.old ≡ length self.old.lanes.items }
        ensures ok { OnOk result (RunsInto F.contents self.old files.old self.new files.new) }
    {
        by_stamp_is_ordered();
        stamps_keep_their_order();
        sent_goes_on();
        for place in 0..self.lanes.len() {
            drain_into(&mut self.switch, &mut self.lanes[place], &mut files[place])?;
        }
        Ok(())
    }

    /// Goes on as [`Machine::make_round`] does; an output of at least a part goes to its port's file.
    ///
    /// After a gap of the traffic all that waited at the ports may go out at once. So each port is drained in parts: no text has more
    /// than a part, however much goes out.
    fn make_round_into<F: NewFile>(&mut self, files: &mut [F]) -> Result<(), AllocError>
        requires of { AreOfTable self.old.switch.run.table self.old.lanes.items }
        requires going { IsGoing self.old.switch.run.table self.old.lanes.items self.old.switch self.old.counts }
        requires handed { length self.old.switch.run.handed ≡ length self.old.switch.run.table.ports }
        requires files { length files.old ≡ length self.old.lanes.items }
        ensures ok { OnOk result (RunsInto F.contents self.old files.old self.new files.new) }
    {
        self.reach_frontier()?;
        self.drain_into_files(files)
    }

    /// Notes that all that was read so far counts.
    fn settle(&mut self)
        ensures lanes { AreSettledLanes self.old.lanes.items self.new.lanes.items }
        ensures switch { self.new.switch ≡ self.old.switch }
        ensures counts { self.new.counts ≡ self.old.counts }
    {
        for lane in self.lanes.iter_mut() {
            lane.settle();
        }
    }

    /// Feeds the next piece to the lane at a place; what has left then goes out.
    pub(crate) fn feed(&mut self, place: usize, piece: &[u8]) -> Result<(), RunFault>
        requires of { AreOfTable self.old.switch.run.table self.old.lanes.items }
        requires handed { length self.old.switch.run.handed ≡ length self.old.switch.run.table.ports }
        requires ready { (begun : Bool) × IsReady self.old begun }
        requires still_open { (port : ℕ) × IsOpenAt self.old.lanes.items port place }
        ensures same { IsOfSameTable self.old.switch self.new.switch }
        ensures ok { OnOk result (IsReady self.new true × IsFed self.old.lanes.items self.new.lanes.items place piece.now) }
        ensures err { IfErr result (λ fault. IsNotFed self.old.lanes.items self.new.lanes.items place piece.now fault) }
        ensures others { IfErr result (λ fault. OthersStay self.old.lanes.items self.new.lanes.items place fault) }
    {
        by_stamp_is_ordered();
        merged_is_a_merge();
        merged_is_by_stamp_and_port();
        self.lanes[place].feed(piece, Some(self.switch.table()))?;
        self.make_round()?;
        self.settle();
        Ok(())
    }

    /// Ends the capture of the lane at a place; what has left then goes out.
    pub(crate) fn close(&mut self, place: usize) -> Result<(), RunFault>
        requires of { AreOfTable self.old.switch.run.table self.old.lanes.items }
        requires handed { length self.old.switch.run.handed ≡ length self.old.switch.run.table.ports }
        requires ready { (begun : Bool) × IsReady self.old begun }
        requires still_open { (port : ℕ) × IsOpenAt self.old.lanes.items port place }
        ensures same { IsOfSameTable self.old.switch self.new.switch }
        ensures ok { OnOk result (IsReady self.new true × IsEnded self.old.lanes.items self.new.lanes.items place) }
        ensures err { IfErr result (λ fault. IsNotEnded self.old.lanes.items self.new.lanes.items place fault) }
        ensures others { IfErr result (λ fault. OthersStay self.old.lanes.items self.new.lanes.items place fault) }
    {
        by_stamp_is_ordered();
        merged_is_a_merge();
        merged_is_by_stamp_and_port();
        self.lanes[place].close()?;
        self.make_round()?;
        self.settle();
        Ok(())
    }

    /// Feeds the next piece to the lane at a place; what has left then goes out, and an output of at least a part goes to its port's
    /// file.
    pub(crate) fn feed_into<F: NewFile>(
        &mut self,
        place: usize,
        piece: &[u8],
        files: &mut [F],
    ) -> Result<(), RunFault>
        requires of { AreOfTable self.old.switch.run.table self.old.lanes.items }
        requires handed { length self.old.switch.run.handed ≡ length self.old.switch.run.table.ports }
        requires ready { (begun : Bool) × IsReady self.old begun }
        requires still_open { (port : ℕ) × IsOpenAt self.old.lanes.items port place }
        requires files { length files.old ≡ length self.old.lanes.items }
        ensures ok { OnOk result (IsFedInto F.contents self.old files.old self.new files.new place piece.now) }
        ensures err { IfErr result (λ fault. StopsAt self.old.lanes.items self.new.lanes.items place fault (IsNotFed self.old.lanes.items self.new.lanes.items place piece.now fault)) }
    {
        by_stamp_is_ordered();
        merged_is_a_merge();
        merged_is_by_stamp_and_port();
        self.lanes[place].feed(piece, Some(self.switch.table()))?;
        self.make_round_into(files)?;
        self.settle();
        Ok(())
    }

    /// Ends the capture of the lane at a place; what has left then goes out, and an output of at least a part goes to its port's file.
    pub(crate) fn close_into<F: NewFile>(
        &mut self,
        place: usize,
        files: &mut [F],
    ) -> Result<(), RunFault>
        requires of { AreOfTable self.old.switch.run.table self.old.lanes.items }
        requires handed { length self.old.switch.run.handed ≡ length self.old.switch.run.table.ports }
        requires ready { (begun : Bool) × IsReady self.old begun }
        requires still_open { (port : ℕ) × IsOpenAt self.old.lanes.items port place }
        requires files { length files.old ≡ length self.old.lanes.items }
        ensures ok { OnOk result (IsEndedInto F.contents self.old files.old self.new files.new place) }
        ensures err { IfErr result (λ fault. StopsAt self.old.lanes.items self.new.lanes.items place fault (IsNotEnded self.old.lanes.items self.new.lanes.items place fault)) }
    {
        by_stamp_is_ordered();
        merged_is_a_merge();
        merged_is_by_stamp_and_port();
        self.lanes[place].close()?;
        self.make_round_into(files)?;
        self.settle();
        Ok(())
    }

    /// Takes the whole captures of all ports, in the order of the lanes. They stay where they are, and the first record of each is read.
    fn lend_all(&mut self, alloc: A, captures: &'a [(u8, Vec<u8, A>)]) -> Result<(), RunFault>
        requires of { AreOfTable self.old.switch.run.table self.old.lanes.items }
        requires ports { AreOfPorts self.old.switch.run.table (texts_of captures.now) }
        requires handed { length self.old.switch.run.handed ≡ length self.old.switch.run.table.ports }
        requires fresh { AreFreshLanes self.old.switch.run.table.ports self.old.lanes.items }
        requires going { IsGoing self.old.switch.run.table self.old.lanes.items self.old.switch self.old.counts }
        ensures switch { self.new.switch ≡ self.old.switch }
        ensures ok { OnOk result (IsCarrying self.new × (texts_over self.new.lanes.items ≡ texts_of captures.now)) }
        ensures taken { OnOk result (taken_by self.new.lanes.items ≡ taken_by self.old.lanes.items) }
        ensures err { IfErr result (λ fault. IsOneFault (texts_of captures.now) fault) }
    {
        by_stamp_is_ordered();
        merged_is_a_merge();
        merged_is_by_stamp_and_port();
        for place in 0..self.lanes.len() {
            self.lanes[place].lend(alloc, &captures[place].1)?;
        }
        Ok(())
    }

    /// Gives the switch the first of all records that wait, and reads the next one of its capture. Returns whether there was one. O(1).
    ///
    /// One of each capture that has not ended waits, so the first of them comes before whatever is still to be read. The next one is read
    /// before the first one goes, so that the processor gets its bytes while the switch works.
    fn carry_one(&mut self, heads: &mut Instants) -> Result<bool, RunFault>
        requires carrying { IsCarrying self.old }
        requires heads { heads.old ≡ heads_of self.old.lanes.items }
        ensures heads { OnOk result (heads.new ≡ heads_of self.new.lanes.items) }
        ensures same { IsOfSameTable self.old.switch self.new.switch }
        ensures ok { IfOk result (λ more. CarriesOn more self.old self.new) }
        ensures err { IfErr result (λ fault. IsOneFault (texts_over self.old.lanes.items) fault) }
    {
        by_stamp_is_ordered();
        arrivals_change_nothing_earlier();
        stamps_keep_their_order();
        note_counts_one_more();
        merged_is_a_merge();
        merged_is_by_stamp_and_port();
        let Some((place, stamp)) = heads.first() else {
            return Ok(false);
        };
        match take_settled(&mut self.lanes, place, stamp, None) {
            Some(frame) => {
                let lane = &mut self.lanes[place];
                let port = lane.port;
                lane.draw(Some(self.switch.table()))?;
                heads.set(place, head_of(lane));
                self.give(port, frame)?;
                Ok(true)
            }
            None => Ok(false),
        }
    }

    /// Lets what has left go out, or keeps it in the switch.
    fn drain_or_keep(&mut self, frames: Leaving) -> Result<(), AllocError>
        requires { IsCarrying self.old }
        ensures same { IsOfSameTable self.old.switch self.new.switch }
        ensures ok { OnOk result (HandsOn self.old self.new) }
    {
        match frames {
            Leaving::GoOut => drain_all(&mut self.switch, &mut self.lanes),
            Leaving::Stay => Ok(()),
        }
    }

    /// Gives some records to the switch, by stamp and then by port. Returns whether more may be left. O(ports), and O(1) for each of
    /// them.
    fn carry_some(&mut self) -> Result<bool, RunFault>
        requires { IsCarrying self.old }
        ensures same { IsOfSameTable self.old.switch self.new.switch }
        ensures ok { IfOk result (λ more. CarriesOn more self.old self.new) }
        ensures err { IfErr result (λ fault. IsOneFault (texts_over self.old.lanes.items) fault) }
    {
        look_ahead(&mut self.lanes);
        let mut heads = heads_of(&self.lanes);
        for _ in 0..RECORDS_BETWEEN_DRAINS {
            if !self.carry_one(&mut heads)? {
                return Ok(false);
            }
        }
        Ok(true)
    }

    /// Gives all records to the switch, by stamp and then by port.
    fn carry_all(&mut self, frames: Leaving) -> Result<(), RunFault>
        requires { IsCarrying self.old }
        ensures same { IsOfSameTable self.old.switch self.new.switch }
        ensures ok { OnOk result (CarriesOn false self.old self.new) }
        ensures err { IfErr result (λ fault. IsOneFault (texts_over self.old.lanes.items) fault) }
    {
        while self.carry_some()? {
            self.drain_or_keep(frames)?;
        }
        Ok(())
    }

    /// Moves the outputs of the lanes to the files of the ports, each one that is at least a part. O(ports), and O(bytes) of what goes.
    fn hand_over<F: NewFile>(&mut self, files: &mut [F]) -> Result<(), AllocError>
        requires carrying { IsCarrying self.old }
        requires files { length files.old ≡ length self.old.lanes.items }
        ensures puts { OnOk result (PutsOut F.contents self.old files.old self.new.lanes.items files.new) }
        ensures switch { self.new.switch ≡ self.old.switch }
        ensures counts { self.new.counts ≡ self.old.counts }
    {
        by_stamp_is_ordered();
        arrivals_change_nothing_earlier();
        stamps_keep_their_order();
        sent_goes_on();
        taken_records_are_the_first();
        taken_records_begin_the_capture();
        each_file_has_one_reading();
        for place in 0..self.lanes.len() {
            self.lanes[place].hand_over(&mut files[place])?;
        }
        Ok(())
    }

    /// Moves what has left to the lanes, and from there to the files.
    fn drain_and_hand_over<F: NewFile>(&mut self, files: &mut [F]) -> Result<(), AllocError>
        requires carrying { IsCarrying self.old }
        requires files { length files.old ≡ length self.old.lanes.items }
        ensures ok { OnOk result (Proceeds F.contents self.old files.old self.new files.new × (left_in self.new.lanes.items ≡ left_in self.old.lanes.items)) }
    {
        self.drain_or_keep(Leaving::GoOut)?;
        self.hand_over(files)
    }

    /// Lets the switch come to an instant, unless it is past it. Returns whether it did.
    fn advance_to(&mut self, instant: Stamp) -> bool
        requires instant { instant < stamp_end }
        requires carrying { IsCarrying self.old }
        requires all { left_in self.old.lanes.items ≡ 0 }
        ensures { HandsOn self.old self.new }
    {
        by_stamp_is_ordered();
        self.switch.advance(instant).is_ok()
    }

    /// Lets the frames that are still held go out step by step, if they are many, after all records have gone to the switch: so a frame
    /// that several ports send is at hand for all of them. Port by port, each would fetch it from memory once more. There are about 500
    /// steps at most, since nothing waits for longer than half a second. O(ports) for each, and O(bytes) of what goes out.
    fn drain_by_steps<F: NewFile>(&mut self, files: &mut [F]) -> Result<(), AllocError>
        requires carrying { IsCarrying self.old }
        requires all { left_in self.old.lanes.items ≡ 0 }
        requires files { length files.old ≡ length self.old.lanes.items }
        ensures ok { OnOk result (Proceeds F.contents self.old files.old self.new files.new × (left_in self.new.lanes.items ≡ 0)) }
    {
        let mut instant = latest_of(&self.lanes);
        while self.switch.held() > FRAMES_AT_HAND {
            let Some(next) = instant.plus(STEP) else {
                return Ok(());
            };
            if !self.advance_to(next) {
                return Ok(());
            }
            instant = next;
            self.drain_and_hand_over(files)?;
        }
        Ok(())
    }

    /// Takes the whole captures of all ports, and gives all their records to the switch, unless one has a fault.
    fn lend_and_carry(
        &mut self,
        alloc: A,
        captures: &'a [(u8, Vec<u8, A>)],
        frames: Leaving,
    ) -> Result<(), RunFault>
        requires of { AreOfTable self.old.switch.run.table self.old.lanes.items }
        requires ports { AreOfPorts self.old.switch.run.table (texts_of captures.now) }
        requires handed { length self.old.switch.run.handed ≡ length self.old.switch.run.table.ports }
        requires fresh { AreFreshLanes self.old.switch.run.table.ports self.old.lanes.items }
        requires going { IsGoing self.old.switch.run.table self.old.lanes.items self.old.switch self.old.counts }
        ensures same { IsOfSameTable self.old.switch self.new.switch }
        ensures ok { OnOk result (HaveGone (texts_of captures.now) self.new) }
        ensures taken { OnOk result (taken_by self.new.lanes.items ≡ taken_by self.old.lanes.items) }
        ensures err { IfErr result (λ fault. IsOneFault (texts_of captures.now) fault) }
    {
        self.lend_all(alloc, captures)?;
        self.carry_all(frames)
    }

    /// Takes the whole captures of all ports, which stay where they are, and gives all their records to the switch.
    ///
    /// A fault is met when its record is reached. The one that is answered is that of the lowest port that has one.
    pub(crate) fn carry_captures(
        &mut self,
        alloc: A,
        captures: &'a [(u8, Vec<u8, A>)],
        frames: Leaving,
    ) -> Result<(), RunFault>
        requires of { AreOfTable self.old.switch.run.table self.old.lanes.items }
        requires ports { AreOfPorts self.old.switch.run.table (texts_of captures.now) }
        requires handed { length self.old.switch.run.handed ≡ length self.old.switch.run.table.ports }
        requires fresh { AreFreshLanes self.old.switch.run.table.ports self.old.lanes.items }
        requires going { IsGoing self.old.switch.run.table self.old.lanes.items self.old.switch self.old.counts }
        ensures same { IsOfSameTable self.old.switch self.new.switch }
        ensures ok { OnOk result (HaveGone (texts_of captures.now) self.new) }
        ensures taken { OnOk result (taken_by self.new.lanes.items ≡ taken_by self.old.lanes.items) }
        ensures err { IfErr result (λ fault. IsReadFault (texts_of captures.now) fault) }
    {
        match self.lend_and_carry(alloc, captures, frames) {
            Ok(()) => Ok(()),
            Err(fault) => Err(first_fault(alloc, captures, fault)),
        }
    }

    /// Takes the whole captures of all ports, which stay where they are; what they lead to goes out.
    pub(crate) fn lend(
        &mut self,
        alloc: A,
        captures: &'a [(u8, Vec<u8, A>)],
    ) -> Result<(), RunFault>
        requires of { AreOfTable self.old.switch.run.table self.old.lanes.items }
        requires ports { AreOfPorts self.old.switch.run.table (texts_of captures.now) }
        requires handed { length self.old.switch.run.handed ≡ length self.old.switch.run.table.ports }
        requires fresh { AreFreshLanes self.old.switch.run.table.ports self.old.lanes.items }
        requires running { IsRunning self.old.switch.run.table self.old.lanes.items self.old.switch self.old.counts }
        ensures same { IsOfSameTable self.old.switch self.new.switch }
        ensures ok { OnOk result (IsReady self.new true × AreLent (texts_of captures.now) self.new.lanes.items) }
        ensures err { IfErr result (λ fault. IsReadFault (texts_of captures.now) fault) }
    {
        self.carry_captures(alloc, captures, Leaving::GoOut)?;
        self.make_round()?;
        self.settle();
        Ok(())
    }

    /// Ends all captures that have not ended, by rising port.
    fn close_all(&mut self) -> Result<(), RunFault>
        requires of { AreOfTable self.old.switch.run.table self.old.lanes.items }
        requires ready { (begun : Bool) × IsReady self.old begun }
        ensures switch { self.new.switch ≡ self.old.switch }
        ensures half { AreHalfDone self.old.lanes.items self.new.lanes.items }
        ensures ok { OnOk result (IsGoing self.new.switch.run.table self.new.lanes.items self.new.switch self.new.counts
            × AreEndedLanes self.old.lanes.items self.new.lanes.items) }
        ensures err { IfErr result (λ fault. IsReadFault (texts_at self.old.lanes.items) fault) }
    {
        by_stamp_is_ordered();
        merged_is_a_merge();
        merged_is_by_stamp_and_port();
        taken_records_are_the_first();
        for lane in self.lanes.iter_mut() {
            if !lane.closed {
                lane.close()?;
            }
        }
        Ok(())
    }

    /// Ends all captures, and lets all go out. Returns room for as many outputs as there are ports.
    pub(crate) fn end(&mut self, alloc: A) -> Result<Vec<(u8, Vec<u8, A>), A>, RunFault>
        requires of { AreOfTable self.old.switch.run.table self.old.lanes.items }
        requires handed { length self.old.switch.run.handed ≡ length self.old.switch.run.table.ports }
        requires ready { (begun : Bool) × IsReady self.old begun }
        ensures same { IsOfSameTable self.old.switch self.new.switch }
        ensures half { AreHalfDone self.old.lanes.items self.new.lanes.items }
        ensures ok { IfOk result (λ room. IsRunning self.new.switch.run.table self.new.lanes.items self.new.switch self.new.counts
            × AreEndedLanes self.old.lanes.items self.new.lanes.items
            × (room.items ≡ []) × (length self.new.lanes.items ≤ vec_capacity room)) }
        ensures err { IfErr result (λ fault. IsReadFault (texts_at self.old.lanes.items) fault) }
    {
        self.close_all()?;
        self.make_round()?;
        Ok(Vec::with_capacity(alloc, self.lanes.len())?)
    }

    /// Ends all captures, and gives all their records to the switch. If it still holds many frames, they go to the files in parts, as in
    /// a run.
    pub(crate) fn end_into<F: NewFile>(&mut self, files: &mut [F]) -> Result<(), RunFault>
        requires of { AreOfTable self.old.switch.run.table self.old.lanes.items }
        requires handed { length self.old.switch.run.handed ≡ length self.old.switch.run.table.ports }
        requires ready { (begun : Bool) × IsReady self.old begun }
        requires files { length files.old ≡ length self.old.lanes.items }
        ensures ok { OnOk result (IsOfSameTable self.old.switch self.new.switch
            × HasEndedInto F.contents (texts_at self.old.lanes.items) self.old.lanes.items files.old self.new files.new) }
        ensures err { IfErr result (λ fault. IsReadFault (texts_at self.old.lanes.items) fault) }
    {
        self.close_all()?;
        self.give_settled()?;
        self.drain_by_steps(files)?;
        Ok(())
    }

    /// Returns what there is of each port.
    pub(crate) fn into_lanes(self) -> Vec<Lane<'a, A>, A>
        ensures { result ≡ self.entry.lanes }
    {
        let Machine { lanes, .. } = self;
        lanes
    }

    /// Lets the switch carry out all that is left, and counts it.
    pub(crate) fn into_rest(self) -> Rest<'a, A>
        ensures run { result.state.run ≡ after_finish self.entry.switch.run }
        ensures keeps { Keeps self.entry.switch result.state }
        ensures is_run { IsRun result.state.run }
        ensures counts { result.counts ≡ ended_tally (after_finish self.entry.switch.run) self.entry.counts }
        ensures texts { result.texts ≡ map (λ l. (l.port, l.out.items)) self.entry.lanes.items }
        ensures taken { result.taken ≡ taken_by self.entry.lanes.items }
    {
        let Machine {
            switch,
            mut counts,
            lanes,
        } = self;
        let switch = switch.finish();
        counts.note_relayed(switch.relayed());
        Rest {
            switch,
            counts,
            lanes,
        }
    }

    /// Returns what is left of each port, and the counts.
    pub(crate) fn into_outcome(self, room: Vec<(u8, Vec<u8, A>), A>) -> Outcome<A>
        requires none { room.items ≡ [] }
        requires room { length self.lanes.items ≤ vec_capacity room }
        ensures captures { result.captures ≡ map (λ l. (l.port, l.out.items)) self.entry.lanes.items }
        ensures counts { result.counts ≡ ended_tally (after_finish self.entry.switch.run) self.entry.counts }
    {
        let Machine {
            switch,
            mut counts,
            lanes,
        } = self;
        counts.note_relayed(switch.finish().relayed());
        let mut captures = room;
        for lane in lanes {
            let Lane { port, out, .. } = lane;
            captures.push_reserved((port, out));
        }
        Outcome { captures, counts }
    }
}
