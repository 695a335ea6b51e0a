//! The switches of a network file, in its order.

ghost use Rattle.std.specs.Prelude.{◌≡◌, [], map, position};
ghost use Rattle.std.specs.Str.{bytes_eq};
ghost use Rattle.toml.specs.View.{table_view};
ghost use Rattle.afdx_wiring.specs.Refusal.{Gives};
ghost use Rattle.afdx_wiring.specs.File.{has_switch, is_down, switch_at, switches_from};

use crate::fault::{At, Key, NetworkFault};
use crate::fields::Fields;
use crate::layout::Switch;
use crate::names::is_name;
use afdx_units::MICROSECOND;
use std::alloc::Global;
use toml::Table;

/// The greatest latency, in microseconds.
const MAX_LATENCY_US: u64 = 100;

/// Returns whether there is a switch of this name.
fn has_switch(switches: &[Switch], name: &[u8]) -> bool
    ensures { result ≡ has_switch switches.now name.now }
{
    switches.iter().any(|switch| switch.name.as_bytes() == name)
}

/// Returns the place of the switch of this name, from 0.
pub(crate) fn place_of(switches: &[Switch], name: &[u8]) -> Option<usize>
    ensures { result ≡ position (λ s. bytes_eq s.name name.now) switches.now }
{
    switches
        .iter()
        .position(|switch| switch.name.as_bytes() == name)
}

/// Returns whether the switch at a place is down; false if there is none.
pub(crate) fn is_down(switches: &[Switch], place: usize) -> bool
    ensures { result ≡ is_down switches.now place }
{
    match switches.get(place) {
        Some(switch) => switch.down,
        None => false,
    }
}

/// Reads a switch, after the switches before it.
#[tactic(auto, unfolding(crate::specs::File::switch_at))]
fn read_switch(
    alloc: Global,
    fields: &Fields<'_>,
    before: &[Switch],
) -> Result<Switch, NetworkFault>
    ensures { Gives (λ s. s) result (switch_at fields.now.at before.now (table_view fields.now.table.now)) }
{
    fields.known(&[Key::Name, Key::Table, Key::LeastLatency, Key::Down])?;
    let name = fields.text(Key::Name)?;
    if !is_name(name.as_bytes()) {
        return Err(NetworkFault::Range(fields.at, Key::Name));
    }
    let path = fields.text(Key::Table)?;
    if path.is_empty() {
        return Err(NetworkFault::Range(fields.at, Key::Table));
    }
    let least_us = fields.optional_number(Key::LeastLatency, MAX_LATENCY_US, 0)?;
    let down = fields.flag(Key::Down)?;
    if has_switch(before, name.as_bytes()) {
        return Err(NetworkFault::TwiceSwitch(fields.at));
    }
    Ok(Switch {
        name: String::from_str(alloc, name)?,
        path: String::from_str(alloc, path)?,
        least: least_us * MICROSECOND,
        down,
    })
}

/// Reads the switches, in file order.
#[tactic(auto, unfolding(crate::specs::File::switches_from))]
pub(crate) fn read_switches(alloc: Global, tables: &[&Table]) -> Result<Vec<Switch>, NetworkFault>
    ensures { Gives (λ v. v.items) result (switches_from 0 [] (map (λ t. table_view t.now) tables.now)) }
{
    let mut switches = Vec::new(alloc);
    for (index, table) in tables.iter().enumerate() {
        let fields = Fields {
            at: At::Switch(index + 1),
            table: *table,
        };
        let switch = read_switch(alloc, &fields, &switches)?;
        switches.push(switch).map_err(|_| NetworkFault::Memory)?;
    }
    Ok(switches)
}
