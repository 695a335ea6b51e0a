//! The copies that ports sent or discarded.

ghost use Rattle.std.specs.Prelude.{◌≡◌, ◌+◌, ◌<◌, ◌≤◌, ◌∷◌, ◌++◌, List, length, Some, false, IsTrue, string_bytes, IfOk, OnOk};
ghost use Rattle.afdx_table.specs.Names.{priority_text};
ghost use Rattle.afdx_table.specs.Content.{port_row};
ghost use Rattle.afdx_port.specs.Service.{Event, sent_of, aged_of};
ghost use Rattle.afdx_isolation.specs.Table.{settings_of};
ghost use Rattle.afdx_trace.specs.Departures.{departures_heading, item_fields, if_shown, sent_line, aged_line, event_lines, port_lines, departures_text, ages_next, AreInOrder};

use crate::fields::{put_number, put_word};
use crate::laws::events_are_in_order;
use crate::shown::{Selection, Shown};
use afdx_core::Done;
use afdx_port::{Aged, Item, Sent, Settings};
use afdx_table::PortRow;
use afdx_table::laws::ports_are_found;
use afdx_units::Priority;
use std::alloc::{AllocError, Allocator};

/// The names of the fields.
const HEADING: &str = "port,record,frame,link,priority,size,came,start,left,delay,outcome\n";

/// Returns the first line of what [`crate::departures`] gives. O(1).
pub fn departures_heading() -> &'static str
    ensures { result.now ≡ departures_heading }
{
    HEADING
}

/// Returns what a port of a switch with this latency is set to.
pub(crate) fn settings_of(latency: u64, port: &PortRow) -> Settings
    ensures { result ≡ settings_of latency port.now }
{
    Settings {
        speed: port.speed,
        buffer: port.buffer,
        max_delay: port.max_delay,
        latency,
    }
}

/// Returns the word of a priority.
fn priority_text(priority: Priority) -> &'static str
    ensures { result.now ≡ priority_text priority }
{
    match priority {
        Priority::High => "high",
        Priority::Low => "low",
    }
}

/// Appends the fields of a copy: from its frame's number to the instant at which it was queued.
fn put_item<A: Allocator + Copy>(
    text: &mut String<A>,
    shown: &Shown<'_>,
    settings: &Settings,
    item: &Item,
) -> Result<(), AllocError>
    requires { settings.now.latency ≤ 100000 }
    ensures { OnOk result (string_bytes text.new ≡ string_bytes text.old ++ item_fields shown.now settings.now item.now) }
{
    put_number(text, item.number as u64)?;
    put_number(text, u64::from(item.link))?;
    put_word(text, priority_text(item.priority))?;
    put_number(text, u64::from(item.size))?;
    put_number(text, shown.since(item.came(settings)))
}

/// Appends the line of a copy that a port sent, as the record of this number, if it is shown.
pub(crate) fn put_sent<A: Allocator + Copy>(
    text: &mut String<A>,
    shown: &Shown<'_>,
    port: u8,
    settings: &Settings,
    number: usize,
    sent: &Sent,
) -> Result<(), AllocError>
    requires { settings.now.latency ≤ 100000 }
    ensures { OnOk result (string_bytes text.new ≡ string_bytes text.old ++ if_shown shown.now sent.now.item (sent_line shown.now port settings.now number sent.now)) }
{
    if !shown.has(Some(sent.item.link)) {
        return Ok(());
    }
    write!(text, "{port}")?;
    put_number(text, number as u64)?;
    put_item(text, shown, settings, &sent.item)?;
    put_number(text, shown.since(sent.begin.ns()))?;
    put_number(text, shown.since(sent.end.ns()))?;
    put_number(text, sent.end.ns().saturating_sub(sent.item.stamp.ns()))?;
    put_word(text, "sent\n")
}

/// Appends the line of a copy that a port discarded, if it is shown.
pub(crate) fn put_aged<A: Allocator + Copy>(
    text: &mut String<A>,
    shown: &Shown<'_>,
    port: u8,
    settings: &Settings,
    aged: &Aged,
) -> Result<(), AllocError>
    requires { settings.now.latency ≤ 100000 }
    ensures { OnOk result (string_bytes text.new ≡ string_bytes text.old ++ if_shown shown.now aged.now.item (aged_line shown.now port settings.now aged.now)) }
{
    if !shown.has(Some(aged.item.link)) {
        return Ok(());
    }
    write!(text, "{port}")?;
    put_word(text, "")?;
    put_item(text, shown, settings, &aged.item)?;
    put_number(text, shown.since(aged.at.ns()))?;
    put_word(text, ",,aged\n")
}

/// Returns whether the next event is that of a copy that was discarded.
fn ages_next(sent: &[Sent], aged: &[Aged]) -> bool
    ensures { result ≡ ages_next sent.now aged.now }
{
    match (sent.first(), aged.first()) {
        (_, None) => false,
        (None, Some(_)) => true,
        (Some(start), Some(end)) => end.at.ns() <= start.begin.ns(),
    }
}

/// Returns whether an event is left.
fn some_left(sent: &[Sent], aged: &[Aged]) -> bool
    ensures some { IsTrue result → 0 < length sent.now + length aged.now }
    ensures none { result ≡ false → (length sent.now ≡ 0) × (length aged.now ≡ 0) }
{
    !sent.is_empty() || !aged.is_empty()
}

/// Splits items, of which there is one at least, into the first and the others.
fn split<T>(items: &[T]) -> (&T, &[T])
    requires { 0 < length items.now }
    ensures parts { items.now ≡ result.0.now ∷ result.1.now }
    ensures len { length items.now ≡ length result.1.now + 1 }
{
    items.split_first().unwrap()
}

/// Appends the lines that are shown of a port's events, in order.
fn put_events<A: Allocator + Copy>(
    text: &mut String<A>,
    shown: &Shown<'_>,
    port: u8,
    settings: &Settings,
    mut sent: &[Sent],
    mut aged: &[Aged],
) -> Result<(), AllocError>
    requires { settings.now.latency ≤ 100000 }
    ensures { (events : List Event) → AreInOrder events → sent_of events ≡ sent.now → aged_of events ≡ aged.now
        → OnOk result (string_bytes text.new ≡ string_bytes text.old ++ event_lines shown.now port settings.now 0 events) }
{
    let mut number = 0;
    while some_left(sent, aged) {
        if ages_next(sent, aged) {
            let (next, others) = split(aged);
            put_aged(text, shown, port, settings, next)?;
            aged = others;
        } else {
            let (next, others) = split(sent);
            number += 1;
            put_sent(text, shown, port, settings, number, next)?;
            sent = others;
        }
    }
    Ok(())
}

/// Appends the lines that are shown of a port's events.
fn put_port<A: Allocator + Copy, B: Allocator + Copy>(
    text: &mut String<A>,
    done: &Done<'_, B>,
    shown: &Shown<'_>,
    port: &PortRow,
) -> Result<(), AllocError>
    requires { port_row done.now.run.table port.now.id ≡ Some port.now }
    ensures { OnOk result (string_bytes text.new ≡ string_bytes text.old ++ port_lines shown.now done.now.run port.now) }
{
    events_are_in_order();
    let settings = settings_of(done.table().latency(), port);
    put_events(
        text,
        shown,
        port.id,
        &settings,
        done.sent(port.id),
        done.aged(port.id),
    )
}

/// Writes a heading, and then a line for each copy of a selected link that a port sent or discarded. Ports come by rising number, and the
/// events of each in order.
///
/// An error says that memory ran out. O(copies + ports^2); each copy takes as many steps as links are selected.
pub fn departures<A: Allocator + Copy, B: Allocator + Copy>(
    alloc: A,
    done: &Done<'_, B>,
    selection: &Selection<'_>,
) -> Result<String<A>, AllocError>
    ensures { IfOk result (λ text. string_bytes text ≡ departures_text selection.now done.now.run) }
{
    ports_are_found();
    let shown = Shown::of(selection, done.rows());
    let mut text = String::new(alloc);
    text.push_str(HEADING)?;
    for port in done.table().ports() {
        put_port(&mut text, done, &shown, port)?;
    }
    Ok(text)
}
