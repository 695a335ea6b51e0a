//! One output port that tells what becomes of each copy.

ghost use Rattle.std.specs.Prelude.{◌≡◌, ◌+◌, ◌<◌, ◌≤◌, ◌∷◌, [], ◌++◌, List, All, false, IfOk, OnOk};
ghost use Rattle.afdx_units.specs.Time.{last_second};
ghost use Rattle.afdx_units.specs.Line.{least_size, greatest_size};
ghost use Rattle.afdx_table.specs.WellFormed.{IsPort};
ghost use Rattle.afdx_port.specs.Service.{Event};
ghost use Rattle.afdx_port.specs.Content.{IsOfSameForm, answer, offered, closed};
ghost use Rattle.afdx_trace.specs.Departures.{if_shown, sent_line, aged_line};
ghost use Rattle.afdx_trace.specs.Inner.Lines.{whole_of, HasGone};
ghost use Rattle.afdx_trace.specs.Inner.Telling.{IsTelling, IsFirstOf, HasToldAll, IsSamePort, TellsMore, IsFreshPort};

use crate::departure_lines::{put_aged, put_sent, settings_of};
use crate::laws::events_are_in_order;
use crate::lines::Lines;
use crate::shown::Shown;
use afdx_folder::NewFile;
use afdx_port::laws::{events_come_in_parts, lagging_ports_follow};
use afdx_port::{Aged, Flow, Item, Offer, Sent, Settings};
use afdx_table::PortRow;
use std::alloc::{AllocError, Allocator};

/// For how many copies room is made at once (profile).
const COPIES_AT_ONCE: usize = 64;

/// One output port, and the lines of what it sent and discarded.
#[derive(Drop)]
pub(crate) struct TracedPort<A: Allocator> {
    pub(crate) row: PortRow,
    pub(crate) settings: Settings,
    pub(crate) flow: Flow<A>,
    /// How many sent copies it has told of.
    pub(crate) sent: usize,
    /// How many discarded copies it has told of.
    pub(crate) aged: usize,
    pub(crate) lines: Lines<A>,
}

/// Returns the first event, given the first copy that is sent and the first that is discarded. At one instant, the latter comes first.
fn next_of(sent: Option<Sent>, aged: Option<Aged>) -> Option<Result<Sent, Aged>>
    ensures { IsFirstOf sent aged result }
{
    match (sent, aged) {
        (Some(sent), Some(aged)) => {
            if aged.at.ns() <= sent.begin.ns() {
                Some(Err(aged))
            } else {
                Some(Ok(sent))
            }
        }
        (Some(sent), None) => Some(Ok(sent)),
        (None, Some(aged)) => Some(Err(aged)),
        (None, None) => None,
    }
}

impl<A: Allocator + Copy> TracedPort<A> {
    /// Makes a port that was offered nothing. It takes no memory. O(1).
    pub(crate) fn new(alloc: A, latency: u64, row: PortRow) -> TracedPort<A>
        requires port { IsPort row }
        requires latency { latency ≤ 100000 }
        ensures { IsFreshPort latency row result }
    {
        let settings = settings_of(latency, &row);
        TracedPort {
            row,
            settings,
            flow: Flow::new(
                alloc,
                false,
                settings.speed,
                settings.buffer,
                settings.max_delay,
                settings.latency,
            ),
            sent: 0,
            aged: 0,
            lines: Lines::new(alloc),
        }
    }

    /// Tells of the next event that it has not told of, if there is one, and returns whether there was one. O(1).
    fn tell_next(&mut self, shown: &Shown<'_>) -> Result<bool, AllocError>
        requires { (left : List Event) × IsTelling shown.now self.old left }
        ensures same { IsSamePort self.old self.new }
        ensures gone { self.new.lines.gone ≡ self.old.lines.gone }
        ensures ok { IfOk result (λ more. (left : List Event) → IsTelling shown.now self.old left → TellsMore shown.now more left self.new) }
    {
        let sent = self.flow.sent_at(self.sent);
        let aged = self.flow.aged_from(self.aged).first().copied();
        match next_of(sent, aged) {
            None => Ok(false),
            Some(Ok(sent)) => {
                self.tell_sent(shown, &sent)?;
                Ok(true)
            }
            Some(Err(aged)) => {
                self.tell_aged(shown, &aged)?;
                Ok(true)
            }
        }
    }

    /// Tells of the next copy that it sent.
    fn tell_sent(&mut self, shown: &Shown<'_>, sent: &Sent) -> Result<(), AllocError>
        requires { self.old.settings.latency ≤ 100000 }
        ensures same { IsSamePort self.old self.new }
        ensures form { (self.new.flow ≡ self.old.flow) × (self.new.aged ≡ self.old.aged) }
        ensures gone { self.new.lines.gone ≡ self.old.lines.gone }
        ensures count { OnOk result (self.new.sent ≡ self.old.sent + 1) }
        ensures line { OnOk result (whole_of self.new.lines ≡ whole_of self.old.lines
            ++ if_shown shown.now sent.now.item (sent_line shown.now self.old.row.id self.old.settings (self.old.sent + 1) sent.now)) }
    {
        let Some(number) = self.sent.checked_add(1) else {
            return Err(AllocError);
        };
        self.sent = number;
        put_sent(
            &mut self.lines.text,
            shown,
            self.row.id,
            &self.settings,
            number,
            sent,
        )
    }

    /// Tells of the next copy that it discarded.
    fn tell_aged(&mut self, shown: &Shown<'_>, aged: &Aged) -> Result<(), AllocError>
        requires { self.old.settings.latency ≤ 100000 }
        ensures same { IsSamePort self.old self.new }
        ensures form { (self.new.flow ≡ self.old.flow) × (self.new.sent ≡ self.old.sent) }
        ensures gone { self.new.lines.gone ≡ self.old.lines.gone }
        ensures count { OnOk result (self.new.aged ≡ self.old.aged + 1) }
        ensures line { OnOk result (whole_of self.new.lines ≡ whole_of self.old.lines
            ++ if_shown shown.now aged.now.item (aged_line shown.now self.old.row.id self.old.settings aged.now)) }
    {
        let Some(number) = self.aged.checked_add(1) else {
            return Err(AllocError);
        };
        self.aged = number;
        put_aged(
            &mut self.lines.text,
            shown,
            self.row.id,
            &self.settings,
            aged,
        )
    }

    /// Tells of each event that it has not told of, and lets go of them. The lines go to the file once they are `PART` bytes at least. O(1) for
    /// each event.
    fn tell<F: NewFile>(&mut self, shown: &Shown<'_>, file: &mut F) -> Result<(), AllocError>
        requires { (left : List Event) × IsTelling shown.now self.old left }
        ensures same { IsSamePort self.old self.new }
        ensures told { OnOk result (HasToldAll shown.now self.new) }
        ensures gone { OnOk result ((start : F) → HasGone F.contents start file.old self.old.lines → HasGone F.contents start file.new self.new.lines) }
    {
        while self.tell_next(shown)? {
            self.lines.hand_over(file)?;
        }
        self.flow.let_go(self.sent, self.aged);
        Ok(())
    }

    /// Makes room for one more copy. O(1), beside what lists take to move each 64th time.
    fn make_room(&mut self) -> Result<(), AllocError>
        ensures room { OnOk result (0 < self.new.flow.room) }
        ensures same { IsSamePort self.old self.new }
        ensures form { IsOfSameForm self.old.flow self.new.flow }
        ensures told { (self.new.sent ≡ self.old.sent) × (self.new.aged ≡ self.old.aged) × (self.new.lines ≡ self.old.lines) }
    {
        if self.flow.room() > 0 {
            return Ok(());
        }
        self.flow.reserve(COPIES_AT_ONCE)
    }

    /// Offers a copy, and tells of what it has carried out by then. O(1), and O(1) for each event.
    pub(crate) fn offer<F: NewFile>(
        &mut self,
        shown: &Shown<'_>,
        item: &Item,
        file: &mut F,
    ) -> Result<Offer, AllocError>
        requires told { HasToldAll shown.now self.old }
        requires still_open { self.old.flow.content.finished ≡ false }
        requires not_late { item.now.stamp < last_second }
        requires in_order { self.old.flow.content.horizon ≤ item.now.stamp }
        requires numbered { All (λ other. other.number < item.now.number) self.old.flow.content.admitted }
        requires least { least_size ≤ item.now.size }
        requires largest { item.now.size ≤ greatest_size }
        ensures row { self.new.row ≡ self.old.row }
        ensures settings { self.new.settings ≡ self.old.settings }
        ensures answer { IfOk result (λ offer. offer ≡ answer item.now self.old.flow.content) }
        ensures content { OnOk result (self.new.flow.content ≡ offered item.now self.old.flow.content) }
        ensures told { OnOk result (HasToldAll shown.now self.new) }
        ensures gone { OnOk result ((start : F) → HasGone F.contents start file.old self.old.lines → HasGone F.contents start file.new self.new.lines) }
    {
        self.make_room()?;
        lagging_ports_follow();
        events_come_in_parts();
        events_are_in_order();
        let answer = self.flow.offer(*item);
        self.tell(shown, file)?;
        Ok(answer)
    }

    /// Carries out and tells all that is left, and appends all lines to the file.
    pub(crate) fn end<F: NewFile>(
        &mut self,
        shown: &Shown<'_>,
        file: &mut F,
    ) -> Result<(), AllocError>
        requires { HasToldAll shown.now self.old }
        ensures row { self.new.row ≡ self.old.row }
        ensures settings { self.new.settings ≡ self.old.settings }
        ensures content { OnOk result (self.new.flow.content ≡ closed self.old.flow.content) }
        ensures told { OnOk result (HasToldAll shown.now self.new) }
        ensures all { OnOk result (self.new.lines.gone.items ≡ whole_of self.new.lines) }
        ensures gone { OnOk result ((start : F) → HasGone F.contents start file.old self.old.lines → HasGone F.contents start file.new self.new.lines) }
    {
        lagging_ports_follow();
        events_come_in_parts();
        events_are_in_order();
        self.flow.finish();
        self.tell(shown, file)?;
        self.lines.put_out(file)
    }
}
