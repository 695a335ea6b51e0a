//! The wires of a network file, in its order.

ghost use Rattle.std.specs.Prelude.{◌≡◌, [], map};
ghost use Rattle.toml.specs.View.{table_view};
ghost use Rattle.afdx_wiring.specs.Refusal.{Gives};
ghost use Rattle.afdx_wiring.specs.File.{end_at, found, is_end, comes_from, goes_to, fitting, wire_at, wires_from};

use crate::fault::{At, Key, NetworkFault};
use crate::fields::Fields;
use crate::layout::{End, Switch, Wire};
use crate::names::end_in;
use crate::switches::{is_down, place_of};
use std::alloc::Global;
use toml::Table;

/// The greatest delay of a wire, in nanoseconds.
const MAX_DELAY: u64 = 1_000_000;

/// Reads the name of a switch and the number of a port, which the value of a key is.
#[tactic(auto, unfolding(crate::specs::File::end_at))]
fn end_at<'a>(fields: &Fields<'a>, key: Key) -> Result<(&'a [u8], u8), NetworkFault>
    ensures { Gives (λ e. (e.0.now, e.1)) result (end_at fields.now.at key (table_view fields.now.table.now)) }
{
    let text = fields.text(key)?;
    end_in(text.as_bytes()).ok_or(NetworkFault::Range(fields.at, key))
}

/// Finds the end at the switch of this name.
#[tactic(auto, unfolding(crate::specs::File::found))]
fn found(at: At, switches: &[Switch], name: &[u8], port: u8) -> Result<End, NetworkFault>
    ensures { Gives (λ e. e) result (found at switches.now (name.now, port)) }
{
    match place_of(switches, name) {
        Some(switch) => Ok(End { switch, port }),
        None => Err(NetworkFault::NoSuchSwitch(at)),
    }
}

/// Returns whether two ends are one port. O(1).
pub fn is_end(one: End, other: End) -> bool
    ensures { result ≡ is_end one other }
{
    one.switch == other.switch && one.port == other.port
}

/// Returns whether one of these wires comes from this port.
fn comes_from(wires: &[Wire], end: End) -> bool
    ensures { result ≡ comes_from wires.now end }
{
    wires.iter().any(|wire| is_end(wire.from, end))
}

/// Returns whether one of these wires goes to this port.
fn goes_to(wires: &[Wire], end: End) -> bool
    ensures { result ≡ goes_to wires.now end }
{
    wires.iter().any(|wire| is_end(wire.to, end))
}

/// Returns a wire, if it fits the wires before it; else refuses it.
#[tactic(auto, unfolding(crate::specs::File::fitting))]
fn fit(at: At, before: &[Wire], wire: Wire) -> Result<Wire, NetworkFault>
    ensures { Gives (λ w. w) result (fitting at before.now wire) }
{
    if comes_from(before, wire.from) {
        return Err(NetworkFault::TwiceFrom(at));
    }
    if goes_to(before, wire.to) {
        return Err(NetworkFault::TwiceTo(at));
    }
    if is_end(wire.from, wire.to) {
        return Err(NetworkFault::OwnPort(at));
    }
    Ok(wire)
}

/// Reads a wire, after the switches and the wires before it.
#[tactic(auto, unfolding(crate::specs::File::wire_at))]
fn read_wire(
    fields: &Fields<'_>,
    switches: &[Switch],
    before: &[Wire],
) -> Result<Wire, NetworkFault>
    ensures { Gives (λ w. w) result (wire_at fields.now.at switches.now before.now (table_view fields.now.table.now)) }
{
    fields.known(&[Key::From, Key::To, Key::Delay, Key::Down])?;
    let (from_name, from_port) = end_at(fields, Key::From)?;
    let (to_name, to_port) = end_at(fields, Key::To)?;
    let delay = fields.optional_number(Key::Delay, MAX_DELAY, 0)? as u32;
    let said = fields.flag(Key::Down)?;
    let from = found(fields.at, switches, from_name, from_port)?;
    let to = found(fields.at, switches, to_name, to_port)?;
    let down = said || is_down(switches, from.switch) || is_down(switches, to.switch);
    let wire = Wire {
        from,
        to,
        delay,
        down,
    };
    fit(fields.at, before, wire)
}

/// Reads the wires, in file order.
#[tactic(auto, unfolding(crate::specs::File::wires_from))]
pub(crate) fn read_wires(
    alloc: Global,
    switches: &[Switch],
    tables: &[&Table],
) -> Result<Vec<Wire>, NetworkFault>
    ensures { Gives (λ v. v.items) result (wires_from 0 switches.now [] (map (λ t. table_view t.now) tables.now)) }
{
    let mut wires = Vec::new(alloc);
    for (index, table) in tables.iter().enumerate() {
        let fields = Fields {
            at: At::Wire(index + 1),
            table: *table,
        };
        let wire = read_wire(&fields, switches, &wires)?;
        wires.push(wire).map_err(|_| NetworkFault::Memory)?;
    }
    Ok(wires)
}
