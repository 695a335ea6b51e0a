//! What came and what left, link by link and port by port.

ghost use Rattle.std.specs.Prelude.{◌≡◌, ◌≤◌, ◌==◌, true, Some, [], ◌++◌, map, if◌then◌else◌, option_to_list, IfOk, OnOk};
ghost use Rattle.std.specs.List.{list_all};
ghost use Rattle.afdx_table.specs.Content.{port_row};
ghost use Rattle.afdx_table.specs.WellFormed.{IsLink};
ghost use Rattle.afdx_following.specs.Watch.{has_frame, limits_of};
ghost use Rattle.afdx_following.specs.Output.{output_at};
ghost use Rattle.afdx_following.specs.Watched.{conforms, with_ends};
ghost use Rattle.afdx_recordings.specs.Recordings.{is_recorded};
ghost use Rattle.afdx_compare.specs.Comparison.{no_records, with_seen, with_foreign, watch_of, bound_in, output_first, outputs_first, IsFirstOf, AreFirstOf, IsBegun};
ghost use Rattle.afdx_compare.specs.Comparison.{with_came, place_of_named, link_among, link_at, with_left, with_until, with_end, conform};
ghost use Rattle.afdx_compare.specs.Inner.Sound.{IsSound, IsBy, IsInTurn};

use crate::sources::Source;
use afdx_account::Account;
use afdx_filter::judge;
use afdx_filter::laws::clean_frames_have_a_link;
use afdx_following::{Following, Output, Start, Watch};
use afdx_frame::view;
use afdx_grouping::scattered;
use afdx_load::{Loads, bounds_with, loads};
use afdx_merging::Head;
use afdx_pairing::Mark;
use afdx_recordings::{Outputs, Recordings};
use afdx_table::laws::{links_are_at_their_places, ports_are_found};
use afdx_table::{LinkRow, PortRow, Table};
use afdx_units::{Priority, Stamp};
use std::alloc::{AllocError, Allocator};
use std::marker::Model;

/// What was recorded at an output port.
#[derive(Drop)]
pub(crate) struct Port<A: Allocator> {
    /// Records that count.
    pub(crate) seen: u64,
    /// Those of no link that leads to the port.
    pub(crate) foreign: u64,
    /// These, if differences are kept.
    pub(crate) rows: Vec<Mark, A>,
}

impl<A: Allocator> Model for Port<A> {
    ghost use Rattle.afdx_compare.specs.Comparison.{Port as Seen};

    ghost Value = { Seen };

    ghost view = { λ p. record { seen = p.seen; foreign = p.foreign; rows = p.rows.items } };
}

impl<A: Allocator + Copy> Port<A> {
    /// Makes a port at which nothing was recorded. It takes no memory.
    fn new(alloc: A) -> Port<A>
        ensures { result ≡ no_records }
    {
        Port {
            seen: 0,
            foreign: 0,
            rows: Vec::new(alloc),
        }
    }

    /// Counts a record.
    fn note_seen(&mut self)
        ensures { self.new ≡ with_seen self.old }
    {
        self.seen = self.seen.saturating_add(1);
    }

    /// Counts a record of no link that leads to the port, and keeps it if it is to be kept.
    fn note_foreign(&mut self, keeps: bool, mark: Mark) -> Result<(), AllocError>
        ensures { OnOk result (self.new ≡ with_foreign keeps mark self.old) }
    {
        self.foreign = self.foreign.saturating_add(1);
        if keeps {
            self.rows.push(mark)?;
        }
        Ok(())
    }
}

/// What is known of a table's links and ports, as far as captures were read.
#[derive(Drop)]
pub(crate) struct Comparison<'t, A: Allocator> {
    alloc: A,
    table: &'t Table,
    watch: Watch,
    keeps: bool,
    /// By the links' places in the table.
    links: Vec<Following<'static, A>, A>,
    /// By the ports' places in the table.
    ports: Vec<Port<A>, A>,
}

impl<'t, A: Allocator> Model for Comparison<'t, A> {
    ghost use Rattle.afdx_compare.specs.Comparison.{Comparison as Seen};

    ghost Value = { Seen };

    ghost view = { λ c. record { table = c.table.now; watch = c.watch; keeps = c.keeps; links = c.links.items; ports = c.ports.items } };
}

/// Returns what is known of the recorders and of the switch, for recordings that begin at an instant.
fn watch_of(table: &Table, recordings: &Recordings, from: Stamp) -> Watch
    ensures watch { result ≡ watch_of table.now recordings.now from }
    ensures scatter { result.scatter ≤ 100000 }
    ensures tolerance { result.tolerance ≤ 1000000000 }
{
    Watch {
        least: recordings.least,
        scatter: table.latency().saturating_sub(recordings.least),
        tolerance: recordings.tolerance,
        gap: recordings.stamps.gap(),
        start: if recordings.rest {
            Start::Rest
        } else {
            Start::Cut(from)
        },
        until: recordings.until,
    }
}

/// Returns the bound of a port for links of a priority, in nanoseconds; 0 if it has none, which no link of an accepted table meets.
fn bound_at(loads: &Loads<'_>, port: &PortRow, priority: Priority, scatter: u64) -> u64
    requires scatter { scatter ≤ 100000 }
    requires port { port_row loads.now port.now.id ≡ Some port.now }
    ensures { result ≡ bound_in scatter loads.now port.now priority }
{
    let load = loads.at(port.id).unwrap();
    let bounds = bounds_with(&load, scattered(&load, scatter));
    let bound = match priority {
        Priority::High => bounds.high,
        Priority::Low => bounds.low,
    };
    match bound {
        Some(bound) => bound.min(u128::from(u64::MAX)) as u64,
        None => 0,
    }
}

/// What links and their ports are made of.
#[derive(Drop)]
struct Making<'t> {
    table: &'t Table,
    loads: Loads<'t>,
    watch: Watch,
    outputs: Outputs,
    keeps: bool,
    ghost loads_are: { loads ≡ table.now },
    ghost scatter_most: { watch.scatter ≤ 100000 },
    ghost tolerance_most: { watch.tolerance ≤ 1000000000 },
}

/// Makes a port of a link of a priority, at which nothing has left.
fn output_of<A: Allocator + Copy>(
    alloc: A,
    making: &Making<'_>,
    priority: Priority,
    port: u8,
    row: &PortRow,
) -> Output<'static, A>
    requires { port_row making.now.table.now row.now.id ≡ Some row.now }
    ensures { result ≡ output_at port (limits_of making.now.watch (bound_in making.now.watch.scatter making.now.table.now row.now priority) row.now.speed) making.now.keeps }
{
    let bound = bound_at(&making.loads, row, priority, making.watch.scatter);
    let limits = making.watch.limits(bound, row.speed);
    Output::new(alloc, port, limits, making.keeps)
}

/// Makes the port of a number, at which nothing has left, if it was recorded.
fn output_at<A: Allocator + Copy>(
    alloc: A,
    making: &Making<'_>,
    priority: Priority,
    port: u8,
) -> Option<Output<'static, A>>
    ensures { option_to_list result ≡ (if is_recorded making.now.outputs port
        then output_first making.now.watch making.now.table.now making.now.keeps priority port (port_row making.now.table.now port) else []) }
{
    if !making.outputs.has(port) {
        return None;
    }
    match making.table.port(port) {
        Some(row) => Some(output_of(alloc, making, priority, port, row)),
        None => None,
    }
}

/// Adds a port, if there is one.
fn add<A: Allocator + Copy>(
    outputs: &mut Vec<Output<'static, A>, A>,
    output: Option<Output<'static, A>>,
) -> Result<(), AllocError>
    ensures { OnOk result (outputs.new.items ≡ outputs.old.items ++ option_to_list output.entry) }
{
    if let Some(output) = output {
        outputs.push(output)?;
    }
    Ok(())
}

/// Makes those of the ports of a link of a priority that were recorded, at which nothing has left.
fn outputs_of<A: Allocator + Copy>(
    alloc: A,
    making: &Making<'_>,
    priority: Priority,
    ports: &[u8],
) -> Result<Vec<Output<'static, A>, A>, AllocError>
    ensures { IfOk result (λ v. v.items ≡ outputs_first making.now.watch making.now.table.now making.now.outputs making.now.keeps priority ports.now) }
{
    let mut outputs = Vec::with_capacity(alloc, ports.len())?;
    for port in ports {
        let output = output_at(alloc, making, priority, *port);
        add(&mut outputs, output)?;
    }
    Ok(outputs)
}

/// Makes a link at those of its ports that were recorded, before anything came.
fn link_of<A: Allocator + Copy>(
    alloc: A,
    making: &Making<'_>,
    link: &LinkRow,
) -> Result<Following<'static, A>, AllocError>
    requires { IsLink making.now.table.now.ports link.now }
    ensures { IfOk result (λ f. IsFirstOf making.now.watch making.now.table.now making.now.outputs making.now.keeps link.now f) }
{
    let outputs = outputs_of(alloc, making, link.priority, link.to.as_slice())?;
    let account = Account::new(link.police, link.max_size, link.bag, link.jitter);
    let tolerance = making.watch.tolerance;
    let since = making.watch.unknown_since();
    Ok(Following::new(alloc, account, tolerance, since, outputs))
}

/// Makes all links of a table.
fn links_of<A: Allocator + Copy>(
    alloc: A,
    making: &Making<'_>,
) -> Result<Vec<Following<'static, A>, A>, AllocError>
    ensures { IfOk result (λ v. AreFirstOf making.now.watch making.now.table.now making.now.outputs making.now.keeps making.now.table.now.links v.items) }
{
    let table = making.table;
    let mut links = Vec::with_capacity(alloc, table.link_count())?;
    for place in 0..table.link_count() {
        let link = table.link_at(place).unwrap();
        let made = link_of(alloc, making, link)?;
        links.push(made)?;
    }
    Ok(links)
}

/// Makes all ports of a table.
fn ports_of<A: Allocator + Copy>(alloc: A, table: &Table) -> Result<Vec<Port<A>, A>, AllocError>
    ensures { IfOk result (λ v. v.items ≡ map (λ p. no_records) table.now.ports) }
{
    let mut ports = Vec::with_capacity(alloc, table.ports().len())?;
    for _row in table.ports() {
        ports.push(Port::new(alloc))?;
    }
    Ok(ports)
}

/// Returns the place of the link that a record names; none if it has no address, one of another constant field, or one of no link of the table.
fn place_of_named(table: &Table, bytes: &[u8]) -> Option<usize>
    ensures { result ≡ place_of_named table.now bytes.now }
{
    let address = view(bytes)?;
    if address.constant() != table.constant() {
        return None;
    }
    table.link_place(address.link())
}

/// Returns the place of a link with that of the port of a number among the link's; none if there is no such link or no such port.
fn link_among<A: Allocator + Copy>(
    links: &[Following<'static, A>],
    port: u8,
    place: Option<usize>,
) -> Option<(usize, usize)>
    ensures { result ≡ link_among port links.now place }
{
    let link = place?;
    let output = links.get(link)?.place_of(port)?;
    Some((link, output))
}

/// Returns whether all records at ports are of links that lead there.
fn none_is_foreign<A: Allocator + Copy>(ports: &[Port<A>]) -> bool
    ensures { result ≡ list_all (λ p. p.foreign == 0) ports.now }
{
    ports.iter().all(|port| port.foreign == 0)
}

/// Returns whether at all links nothing speaks against the switch.
fn all_conform<A: Allocator + Copy>(links: &[Following<'static, A>]) -> bool
    ensures { result ≡ list_all (λ f. conforms f) links.now }
{
    links.iter().all(|link| link.conforms())
}

/// Ends each link. Records were recorded up to an instant or, if there is none, all had left.
fn end_all<A: Allocator + Copy>(
    links: &mut [Following<'static, A>],
    last: Option<u64>,
) -> Result<(), AllocError>
    ensures { OnOk result (links.new ≡ map (with_ends last) links.old) }
{
    for link in links.iter_mut() {
        link.end(last)?;
    }
    Ok(())
}

impl<'t, A: Allocator + Copy> Comparison<'t, A> {
    /// Makes the comparison of a table whose recordings begin at an instant, of which nothing was read.
    pub(crate) fn new(
        alloc: A,
        table: &'t Table,
        recordings: &Recordings,
        from: Stamp,
        keeps: bool,
    ) -> Result<Comparison<'t, A>, AllocError>
        ensures { IfOk result (λ c. IsBegun table.now recordings.now from keeps c) }
    {
        let making = Making {
            table,
            loads: loads(table),
            watch: watch_of(table, recordings, from),
            outputs: recordings.outputs,
            keeps,
        };
        Ok(Comparison {
            alloc,
            table,
            watch: making.watch,
            keeps,
            links: links_of(alloc, &making)?,
            ports: ports_of(alloc, table)?,
        })
    }

    /// Returns the table. O(1).
    pub(crate) fn table(&self) -> &'t Table
        ensures { result.now ≡ self.now.table }
    {
        self.table
    }

    /// Returns the links, by their places in the table. O(1).
    pub(crate) fn links(&self) -> &[Following<'static, A>]
        ensures { result.now ≡ self.now.links }
    {
        &self.links
    }

    /// Returns the ports, by their places in the table. O(1).
    pub(crate) fn ports(&self) -> &[Port<A>]
        ensures { result.now ≡ self.now.ports }
    {
        &self.ports
    }

    /// Notes where the recordings end. What comes afterwards counts up to there alone.
    pub(crate) fn set_until(&mut self, until: Stamp)
        ensures { self.new ≡ with_until until self.old }
    {
        self.watch.until = Some(until);
    }

    /// Takes a frame that came at the port of a number.
    pub(crate) fn came(&mut self, port: u8, head: Head<A>) -> Result<(), AllocError>
        requires sound { IsSound self.old }
        requires in_order { has_frame self.old.watch head.frame.stamp ≡ true → IsBy head.frame.stamp self.old }
        ensures { OnOk result (self.new ≡ with_came port head self.old) }
    {
        clean_frames_have_a_link();
        links_are_at_their_places();
        if !self.watch.has_frame(head.stamp()) {
            return Ok(());
        }
        let Some(link) = judge(self.table, port, head.frame()).place else {
            return Ok(());
        };
        let came = head.shared(self.alloc)?;
        self.links[link].came(came)
    }

    /// Returns the place of the link that a record at the port of a number is of, and that of the port among the link's that were recorded; none if
    /// it is of no link that leads there.
    fn link_at(&self, port: u8, bytes: &[u8]) -> Option<(usize, usize)>
        ensures { result ≡ link_at port bytes.now self.now }
    {
        link_among(&self.links, port, place_of_named(self.table, bytes))
    }

    /// Takes a record that left at a port.
    pub(crate) fn left(&mut self, source: Source, head: Head<A>) -> Result<(), AllocError>
        requires sound { IsSound self.old }
        requires in_turn { IsInTurn source head self.old }
        ensures { OnOk result (self.new ≡ with_left source head self.old) }
    {
        ports_are_found();
        if !self.watch.has_record(head.stamp()) {
            return Ok(());
        }
        let place = source.place;
        self.ports[place].note_seen();
        let mark = head.mark();
        match self.link_at(source.port, head.frame().bytes()) {
            Some((link, output)) => {
                let left = head.shared(self.alloc)?;
                self.links[link].left(output, left)
            }
            None => self.ports[place].note_foreign(self.keeps, mark),
        }
    }

    /// Ends all links once all was read.
    pub(crate) fn end(&mut self) -> Result<(), AllocError>
        ensures { OnOk result (self.new ≡ with_end self.old) }
    {
        end_all(&mut self.links, self.watch.last_record())
    }

    /// Returns whether nothing speaks against the switch. O(ports of links).
    pub(crate) fn conforms(&self) -> bool
        ensures { result ≡ conform self.now }
    {
        none_is_foreign(&self.ports) && all_conform(&self.links)
    }
}
