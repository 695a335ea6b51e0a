//! The ports of a table.

ghost use Rattle.std.specs.Prelude.{◌≡◌, ◌<◌, ◌≤◌, ◌==◌, nat_lt, find, option_copied, position, length, Err, IfOk, [], map};
ghost use Rattle.std.specs.List.{position_or_len};
ghost use Rattle.toml.specs.View.{table_view};
ghost use Rattle.afdx_table.specs.Refusal.{Gives};
ghost use Rattle.afdx_table.specs.declared.fault.TableFault.TheVariants.{Memory};
ghost use Rattle.afdx_table.specs.Ports.{has_port, with_port, port_at, ports_from};

use crate::fault::{At, Key, TableFault};
use crate::fields::Fields;
use crate::limits::{MAX_BUFFER, MAX_DELAY};
use crate::rows::{PortRow, nanos, speed_from_mbit};
use crate::values::Source;
use std::alloc::{AllocError, Global};
use toml::Table;

/// Returns whether there is a port of this number.
pub(crate) fn has_port(ports: &[PortRow], id: u8) -> bool
    ensures { result ≡ has_port ports.now id }
{
    ports.iter().any(|port| port.id == id)
}

/// Returns the port of a number, if there is one.
pub(crate) fn port_of(ports: &[PortRow], id: u8) -> Option<&PortRow>
    ensures { option_copied result ≡ find (λ p. p.id == id) ports.now }
{
    ports.iter().find(|port| port.id == id)
}

/// Returns the place of the first port above a number, if there is one.
fn first_above(ports: &[PortRow], id: u8) -> Option<usize>
    ensures { result ≡ position (λ p. nat_lt id p.id) ports.now }
{
    ports.iter().position(|port| id < port.id)
}

/// Returns the place at which a port of a new number belongs.
fn place_of(ports: &[PortRow], id: u8) -> usize
    ensures place { result ≡ position_or_len (λ p. nat_lt id p.id) ports.now }
    ensures within { result ≤ length ports.now }
{
    first_above(ports, id).unwrap_or(ports.len())
}

/// Puts a port in its place by number.
fn insert_port(ports: &mut Vec<PortRow>, row: PortRow) -> Result<(), AllocError>
    ensures { IfOk result (λ _. ports.new.items ≡ with_port row ports.old.items) }
{
    ports.insert(place_of(ports, row.id), row)?;
    Ok(())
}

/// Reads a port, after the ports before it.
#[tactic(auto, unfolding(crate::specs::Ports::port_at))]
fn read_port(version: u64, at: At, table: &Table, before: &[PortRow]) -> Result<PortRow, TableFault>
    ensures { Gives (λ r. r) result (port_at version at before.now (table_view table.now)) }
{
    let keys = [Key::Id, Key::Mbit, Key::Buffer, Key::MaxDelay];
    let fields = Fields::read(at, &keys, Source::Tree(table))?;
    let id = fields.port_id(Key::Id)?;
    let mbit = fields.number(Key::Mbit)?;
    let speed = speed_from_mbit(version, mbit).ok_or(TableFault::Range(at, Key::Mbit))?;
    let buffer = fields.bounded(Key::Buffer, 0, MAX_BUFFER)? as u32;
    let max_delay_us = fields.bounded(Key::MaxDelay, 1, MAX_DELAY)?;
    if has_port(before, id) {
        return Err(TableFault::TwicePort(at));
    }
    Ok(PortRow {
        id,
        speed,
        buffer,
        max_delay: nanos(max_delay_us),
    })
}

/// Reads the ports, and returns them by rising number.
#[tactic(auto, unfolding(crate::specs::Ports::ports_from))]
pub(crate) fn read_ports(
    alloc: Global,
    version: u64,
    tables: &[&Table],
) -> Result<Vec<PortRow>, TableFault>
    ensures ports { Gives (λ v. v.items) result (ports_from version 0 [] (map (λ t. table_view t.now) tables.now)) }
    ensures memory { result ≡ Err Memory → 0 < length tables.now }
{
    let mut ports = Vec::new(alloc);
    for (index, table) in tables.iter().enumerate() {
        let row = read_port(version, At::Port(index + 1), *table, &ports)?;
        insert_port(&mut ports, row)?;
    }
    Ok(ports)
}
