//! A switch that tells what becomes of each arrival and of each copy, while a run goes on.

ghost use Rattle.std.specs.Prelude.{◌≡◌, ◌≢◌, ℕ, ◌<◌, ◌≤◌, ◌==◌, if◌then◌else◌, ◌∷◌, [], ◌++◌, List, All, None, Some, length, map, nat_eq, slice_get, position, IfSome, IfOk};
ghost use Rattle.std.specs.Prelude.{IfErr, OnOk};
ghost use Rattle.std.specs.List.{IsDistinct};
ghost use Rattle.afdx_units.specs.Time.{last_second};
ghost use Rattle.afdx_units.specs.Line.{least_size, greatest_size};
ghost use Rattle.afdx_table.specs.Content.{Content};
ghost use Rattle.afdx_table.specs.WellFormed.{IsLink, IsWellFormed};
ghost use Rattle.afdx_port.specs.Content.{answers_full};
ghost use Rattle.afdx_filter.specs.Place.{place_named};
ghost use Rattle.afdx_core.specs.declared.step.Row.{Row as Arrived};
ghost use Rattle.afdx_core.specs.Rows.{row_of, copy_of};
ghost use Rattle.afdx_core.specs.State.{Run, fresh_run, after_row, after_finish, refusal_of};
ghost use Rattle.afdx_trace.specs.declared.traced_port.TracedPort.{TracedPort as Port};
ghost use Rattle.afdx_trace.specs.Shown.{shown_of};
ghost use Rattle.afdx_trace.specs.Arrivals.{record_in};
ghost use Rattle.afdx_core.specs.Kept.{AccountsAgree};
ghost use Rattle.afdx_trace.specs.Inner.Tracing.{AreCounted, PassesOn, IsPoliced};
ghost use Rattle.afdx_trace.specs.Inner.Lines.{whole_of, HasGone};
ghost use Rattle.afdx_trace.specs.Inner.Told.{told_fields, told_line};
ghost use Rattle.afdx_trace.specs.Inner.Telling.{Tells, HaveGone, CanBeOffered, AreOffered, answer_among, refused_among, PlacesAre, HasToldAll, MayTake, HasTaken, KeepsOthers};
ghost use Rattle.afdx_trace.specs.Inner.Telling.{KeepsAllButLines, fields_of, IsFresh, AreEnded, HasToldRun};
ghost use Rattle.afdx_trace.specs.declared.shown.Selection.{Selection as Selected};

use crate::arrival_lines::HEADING;
use crate::laws::lines_are_told;
use crate::lines::Lines;
use crate::shown::{Selection, Shown};
use crate::traced_port::TracedPort;
use crate::tracer::{put_fate, put_frame, verdict_word};
use afdx_account::{Account, early_by};
use afdx_core::laws::filtered_touch_no_account;
use afdx_core::{Row, accounts_of, judged, place_of, places_of, police};
use afdx_folder::NewFile;
use afdx_past::Gone;
use afdx_pcap::Record;
use afdx_port::laws::feeds_are_admitted_in_parts;
use afdx_port::{Item, Offer};
use afdx_table::laws::{links_are_at_their_places, links_are_found, ports_are_distinct};
use afdx_table::{LinkRow, PORT_PLACES, Table};
use afdx_units::Stamp;
use arrayvec::ArrayVec;
use std::alloc::{AllocError, Allocator};

/// Ports that had no room for a copy.
pub(crate) type Full = ArrayVec<u8, 24>;

/// What became of an arrival: the word of its fate, by how many nanoseconds it came early if it was policed, and the ports that refused it
/// if it was passed.
#[derive(Drop)]
pub(crate) struct TracedFate {
    pub(crate) word: &'static str,
    pub(crate) early: Option<u64>,
    pub(crate) full: Full,
}

/// A switch that keeps no frames, arrivals or copies except for what waits at its ports. It tells of each arrival at once, and of each copy
/// once it was sent or discarded. The lines go to a file of the arrivals, and to one for each port.
#[derive(Drop)]
pub struct Tracing<'s, A: Allocator> {
    pub(crate) selection: Selection<'s>,
    pub(crate) shown: Shown<'s>,
    pub(crate) table: Table,
    pub(crate) accounts: Vec<Account, A>,
    /// How many frames came in at each port, by its number.
    pub(crate) records: [usize; 256],
    /// By rising number.
    pub(crate) ports: Vec<TracedPort<A>, A>,
    /// The place of each port, by its number.
    pub(crate) places: [Option<usize>; PORT_PLACES],
    /// The arrivals so far.
    pub(crate) rows: Gone<Row>,
    pub(crate) count: usize,
    pub(crate) lines: Lines<A>,
}

/// Offers a frame to the account of its link, at this place. Returns the link if the frame is passed, else the nanoseconds by which it came
/// early.
fn pass<'t>(
    table: &'t Table,
    accounts: &mut [Account],
    place: usize,
    row: &Row,
) -> Result<&'t LinkRow, u64>
    requires place { place_named table.now row.now.verdict ≡ Some place }
    requires agree { (before : List Arrived) × AccountsAgree table.now.links before row.now.stamp accounts.old }
    ensures passed { IfOk result (λ link. (before : List Arrived) → AccountsAgree table.now.links before row.now.stamp accounts.old
        → PassesOn table.now before row.now link.now) }
    ensures policed { IfErr result (λ early. (before : List Arrived) → AccountsAgree table.now.links before row.now.stamp accounts.old
        → IsPoliced table.now before row.now early) }
    ensures agree { (before : List Arrived) → AccountsAgree table.now.links before row.now.stamp accounts.old
        → AccountsAgree table.now.links (before ++ row.now ∷ []) row.now.stamp accounts.new }
    ensures limits { IfOk result (λ link. IsLink table.now.ports link.now) }
    ensures well_formed { IsWellFormed table.now }
{
    links_are_at_their_places();
    links_are_found();
    let link = table.link_at(place).unwrap();
    let early = early_by(&accounts[place], row.stamp, row.size);
    if police(accounts, place, row) {
        Ok(link)
    } else {
        Err(early)
    }
}

/// Makes a copy of a link's frame, numbered by how many arrivals came before it.
fn copy_of(link: &LinkRow, number: usize, row: &Row) -> Item
    ensures { (before : List Arrived) → number ≡ length before → result ≡ copy_of link.now before row.now }
{
    Item {
        number,
        link: link.id,
        stamp: row.stamp,
        size: row.size,
        priority: link.priority,
    }
}

/// Counts an arrival, and returns its number among the records of its port's capture, from 1.
fn count(records: &mut [usize; 256], row: &Row) -> Result<usize, AllocError>
    ensures number { IfOk result (λ number. (before : List Arrived) → AreCounted before records.old → number ≡ record_in before row.now) }
    ensures counted { OnOk result ((before : List Arrived) → AreCounted before records.old → AreCounted (before ++ row.now ∷ []) records.new) }
{
    let records = &mut records[usize::from(row.in_port)];
    let Some(number) = records.checked_add(1) else {
        return Err(AllocError);
    };
    *records = number;
    Ok(number)
}

/// Finds the place of the port with a number among these ports, if there is one. O(1).
fn find_port<A: Allocator>(
    ports: &[TracedPort<A>],
    places: &[Option<usize>; PORT_PLACES],
    port: u8,
) -> Option<usize>
    requires { PlacesAre places.now ports.now }
    ensures place { result ≡ position (λ o. o.row.id == port) ports.now }
    ensures within { IfSome result (λ place. place < length ports.now) }
{
    place_of(places, port)
}

/// Offers a copy to the port with a number, and returns its answer; `Full` if there is no such port.
fn offer_to<A: Allocator + Copy, F: NewFile>(
    ports: &mut [TracedPort<A>],
    places: &[Option<usize>; PORT_PLACES],
    shown: &Shown<'_>,
    item: &Item,
    port: u8,
    files: &mut [F],
) -> Result<Offer, AllocError>
    requires can { (k : ℕ) (o : Port A) → slice_get ports.old k ≡ Some o → o.row.id ≡ port → CanBeOffered shown.now item.now o }
    requires told { (k : ℕ) (o : Port A) → slice_get ports.old k ≡ Some o → HasToldAll shown.now o }
    requires once { IsDistinct nat_eq (map (λ o. o.row.id) ports.old) }
    requires not_late { item.now.stamp < last_second }
    requires least { least_size ≤ item.now.size }
    requires largest { item.now.size ≤ greatest_size }
    requires places { PlacesAre places.now ports.old }
    requires files { length files.old ≡ length ports.old }
    ensures answer { IfOk result (λ offer. offer ≡ answer_among item.now ports.old port) }
    ensures offered { OnOk result (AreOffered shown.now item.now (port ∷ []) ports.old ports.new) }
    ensures gone { OnOk result ((start : List F) → HaveGone F.contents start files.old ports.old → HaveGone F.contents start files.new ports.new) }
{
    match find_port(ports, places, port) {
        Some(place) => ports[place].offer(shown, item, &mut files[place]),
        None => Ok(Offer::Full),
    }
}

/// Notes a port if it had no room.
fn note(full: &mut Full, port: u8, answer: Offer)
    requires { length full.old.items < 24 }
    ensures { full.new.items ≡ full.old.items ++ (if answers_full answer then port ∷ [] else []) }
{
    match answer {
        Offer::Queued => {}
        Offer::Full => full.push(port),
    }
}

/// Offers a copy to these ports, and returns those that had no room for it.
fn offer_all<A: Allocator + Copy, F: NewFile>(
    ports: &mut [TracedPort<A>],
    places: &[Option<usize>; PORT_PLACES],
    shown: &Shown<'_>,
    item: &Item,
    to: &[u8],
    files: &mut [F],
) -> Result<Full, AllocError>
    requires can { (k : ℕ) (o : Port A) → slice_get ports.old k ≡ Some o → CanBeOffered shown.now item.now o }
    requires once { IsDistinct nat_eq (map (λ o. o.row.id) ports.old) }
    requires distinct { IsDistinct nat_eq to.now }
    requires few { length to.now ≤ 24 }
    requires not_late { item.now.stamp < last_second }
    requires least { least_size ≤ item.now.size }
    requires largest { item.now.size ≤ greatest_size }
    requires places { PlacesAre places.now ports.old }
    requires files { length files.old ≡ length ports.old }
    ensures full { IfOk result (λ full. full.items ≡ refused_among item.now ports.old to.now) }
    ensures offered { OnOk result (AreOffered shown.now item.now to.now ports.old ports.new) }
    ensures gone { OnOk result ((start : List F) → HaveGone F.contents start files.old ports.old → HaveGone F.contents start files.new ports.new) }
{
    let mut full = Full::new();
    for port in to {
        let answer = offer_to(ports, places, shown, item, *port, files)?;
        note(&mut full, *port, answer);
    }
    Ok(full)
}

/// Carries out and tells all that is left at each port, and appends each port's lines to its file.
fn end_all<A: Allocator + Copy, F: NewFile>(
    ports: &mut [TracedPort<A>],
    shown: &Shown<'_>,
    files: &mut [F],
) -> Result<(), AllocError>
    requires told { (k : ℕ) (o : Port A) → slice_get ports.old k ≡ Some o → HasToldAll shown.now o }
    requires files { length files.old ≡ length ports.old }
    ensures { OnOk result (AreEnded shown.now F.contents (length ports.old) files.old files.new ports.old ports.new) }
{
    for place in 0..ports.len() {
        ports[place].end(shown, &mut files[place])?;
    }
    Ok(())
}

impl<'s, A: Allocator + Copy> Tracing<'s, A> {
    /// Makes a switch that has taken nothing.
    ///
    /// An error says that memory ran out; the table is dropped then. O(links + ports).
    pub fn new(
        alloc: A,
        table: Table,
        selection: &Selection<'s>,
    ) -> Result<Tracing<'s, A>, AllocError>
        ensures tells { IfOk result (λ t. Tells selection.now (fresh_run table) t) }
        ensures fresh { IfOk result IsFresh }
    {
        let accounts = accounts_of(alloc, &table)?;
        let mut ports = Vec::new(alloc);
        for row in table.ports() {
            ports.push(TracedPort::new(alloc, table.latency(), *row))?;
        }
        let places = places_of(table.ports());
        let mut lines = Lines::new(alloc);
        lines.text.push_str(HEADING)?;
        Ok(Tracing {
            selection: *selection,
            shown: Shown::of(selection, &[]),
            table,
            accounts,
            records: [0; 256],
            ports,
            places,
            rows: Gone::new(),
            count: 0,
            lines,
        })
    }

    /// Returns its table. O(1).
    pub fn table(&self) -> &Table
        ensures { result.now ≡ self.now.table }
    {
        &self.table
    }

    /// Returns what is shown once a frame of this stamp has come.
    fn shown_from(&self, stamp: Stamp) -> Shown<'s>
        ensures { (rows : List Arrived) (row : Arrived) → self.now.count ≡ length rows → self.now.shown ≡ shown_of self.now.selection rows → row.stamp ≡ stamp
            → result ≡ shown_of self.now.selection (rows ++ row ∷ []) }
    {
        if self.count == 0 {
            Shown::starting_at(&self.selection, stamp)
        } else {
            self.shown
        }
    }

    /// Passes a frame on to the ports of its link, or does not, and returns what became of it.
    fn fate<F: NewFile>(
        &mut self,
        row: &Row,
        place: Option<usize>,
        files: &mut [F],
    ) -> Result<TracedFate, AllocError>
        requires may { (r : Run) × MayTake r self.old × (r.latest ≤ row.now.stamp) × (place ≡ place_named r.table row.now.verdict) }
        requires not_late { row.now.stamp < last_second }
        requires files { length files.old ≡ length self.old.ports.items }
        requires sized { place ≢ None → (least_size ≤ row.now.size) × (row.now.size ≤ greatest_size) }
        ensures others { KeepsOthers self.old self.new }
        ensures taken { IfOk result (λ fate. (r : Run) → MayTake r self.old → r.latest ≤ row.now.stamp → place ≡ place_named r.table row.now.verdict
            → HasTaken r row.now (fields_of fate) self.old self.new) }
        ensures gone { OnOk result ((start : List F) → HaveGone F.contents start files.old self.old.ports.items → HaveGone F.contents start files.new self.new.ports.items) }
    {
        filtered_touch_no_account();
        links_are_at_their_places();
        match place {
            Some(place) => self.offer(row, place, files),
            None => Ok(TracedFate {
                word: verdict_word(row.verdict),
                early: None,
                full: Full::new(),
            }),
        }
    }

    /// Does the same with a frame of the link at this place.
    fn offer<F: NewFile>(
        &mut self,
        row: &Row,
        place: usize,
        files: &mut [F],
    ) -> Result<TracedFate, AllocError>
        requires may { (r : Run) × MayTake r self.old × (r.latest ≤ row.now.stamp) × (Some place ≡ place_named r.table row.now.verdict) }
        requires not_late { row.now.stamp < last_second }
        requires files { length files.old ≡ length self.old.ports.items }
        requires least { least_size ≤ row.now.size }
        requires largest { row.now.size ≤ greatest_size }
        ensures others { KeepsOthers self.old self.new }
        ensures taken { IfOk result (λ fate. (r : Run) → MayTake r self.old → r.latest ≤ row.now.stamp → Some place ≡ place_named r.table row.now.verdict
            → HasTaken r row.now (fields_of fate) self.old self.new) }
        ensures gone { OnOk result ((start : List F) → HaveGone F.contents start files.old self.old.ports.items → HaveGone F.contents start files.new self.new.ports.items) }
    {
        feeds_are_admitted_in_parts();
        ports_are_distinct();
        match pass(&self.table, &mut self.accounts, place, row) {
            Ok(link) => {
                let item = copy_of(link, self.count, row);
                let to = link.to.as_slice();
                let full = offer_all(&mut self.ports, &self.places, &self.shown, &item, to, files)?;
                Ok(TracedFate {
                    word: "passed",
                    early: None,
                    full,
                })
            }
            Err(early) => Ok(TracedFate {
                word: "policed",
                early: Some(early),
                full: Full::new(),
            }),
        }
    }

    /// Tells of the next arrival, if it is shown: its number among the records of its port's capture, and what became of it. The lines go to
    /// the file once they are `PART` bytes at least.
    fn tell<F: NewFile>(
        &mut self,
        row: &Row,
        number: usize,
        fate: &TracedFate,
        arrivals: &mut F,
    ) -> Result<(), AllocError>
        ensures same { KeepsAllButLines self.old self.new }
        ensures line { OnOk result ((t : Content) (before : List Arrived) → self.old.count ≡ length before → number ≡ record_in before row.now
            → fields_of fate.now ≡ told_fields t before row.now → whole_of self.new.lines ≡ whole_of self.old.lines ++ told_line self.old.shown t before row.now) }
        ensures gone { OnOk result ((start : F) → HasGone F.contents start arrivals.old self.old.lines → HasGone F.contents start arrivals.new self.new.lines) }
    {
        if !self.shown.has(row.link) {
            return Ok(());
        }
        put_frame(&mut self.lines.text, &self.shown, self.count, number, row)?;
        put_fate(&mut self.lines.text, fate.word, fate.early, &fate.full)?;
        self.lines.hand_over(arrivals)
    }

    /// Takes an arrival at a port of the table that came no earlier than those before it, and not in the last second that a stamp can hold. Tells
    /// of it, and of what the ports of its link carried out by then. Lines go to the file of the arrivals, and to those of the ports, one for each
    /// port of the table in its order, once they are 32,768 bytes at least.
    ///
    /// An error says that memory ran out, or that more than 2^64 - 1 arrivals would be counted; the tracing is of no use then, and takes nothing
    /// more. O(ports of its link), and O(1) for each copy that one of these sent or discarded; each line takes as many steps as links are selected.
    pub fn arrive<B: Allocator, F: NewFile>(
        &mut self,
        in_port: u8,
        frame: &Record<'_, B>,
        arrivals: &mut F,
        departures: &mut [F],
    ) -> Result<(), AllocError>
        requires tells { (s : Selected) × (r : Run) × Tells s r self.old × (refusal_of r in_port frame.now.stamp ≡ None) }
        requires not_late { frame.now.stamp < last_second }
        requires files { length departures.old ≡ length self.old.ports.items }
        ensures files { length departures.new ≡ length self.new.ports.items }
        ensures tells { OnOk result ((s : Selected) (r : Run) → Tells s r self.old → refusal_of r in_port frame.now.stamp ≡ None
            → Tells s (after_row (row_of r.table in_port frame.now) r) self.new) }
        ensures arrivals { OnOk result ((start : F) → HasGone F.contents start arrivals.old self.old.lines → HasGone F.contents start arrivals.new self.new.lines) }
        ensures departures { OnOk result ((start : List F) → HaveGone F.contents start departures.old self.old.ports.items → HaveGone F.contents start departures.new self.new.ports.items) }
    {
        let (row, place) = judged(&self.table, in_port, frame);
        self.shown = self.shown_from(row.stamp);
        let Some(later) = self.count.checked_add(1) else {
            return Err(AllocError);
        };
        let number = count(&mut self.records, &row)?;
        let fate = self.fate(&row, place, departures)?;
        self.tell(&row, number, &fate, arrivals)?;
        self.rows = self.rows.and(&row);
        self.count = later;
        Ok(())
    }

    /// Carries out and tells all that is left, and appends all lines to their files: to that of the arrivals, and to those of the ports, one for
    /// each port of the table in its order. No earlier call failed.
    ///
    /// An error says that memory ran out. O(ports), O(1) for each copy that is sent or discarded, and O(bytes) of the lines; each line takes as many
    /// steps as links are selected.
    pub fn end<F: NewFile>(self, arrivals: &mut F, departures: &mut [F]) -> Result<(), AllocError>
        requires tells { (s : Selected) × (r : Run) × Tells s r self }
        requires files { length departures.old ≡ length self.ports.items }
        ensures { OnOk result ((s : Selected) (r : Run) → Tells s r self.entry
            → HasToldRun F.contents s (after_finish r) self.entry arrivals.old arrivals.new departures.old departures.new) }
    {
        lines_are_told();
        let Tracing {
            shown,
            mut ports,
            mut lines,
            ..
        } = self;
        lines.put_out(arrivals)?;
        end_all(&mut ports, &shown, departures)
    }
}
