//! The links of a table, in file order.

ghost use Rattle.std.specs.Prelude.{◌≡◌, ◌<◌, ◌≤◌, false, [], length, map, option_map, Err, IfOk};
ghost use Rattle.toml.specs.View.{table_view};
ghost use Rattle.afdx_table.specs.Refusal.{Gives};
ghost use Rattle.afdx_table.specs.declared.fault.TableFault.TheVariants.{Memory};
ghost use Rattle.afdx_table.specs.Fields.{known_at};
ghost use Rattle.afdx_table.specs.Inner.Slots.{AreValues};
ghost use Rattle.afdx_table.specs.Inner.Pairs.{members_of};
ghost use Rattle.afdx_table.specs.Links.{has_link, targets, link_keys, police_from, row_at, fitting, link_at, links_from};

use crate::fault::{At, Key, TableFault};
use crate::fields::Fields;
use crate::limits::MAX_PORT_ID;
use crate::link_map::LinkMap;
use crate::ports::has_port;
use crate::rows::{
    LinkRow, PortRow, Targets, bag_from_ms, nanos, police_from_text, priority_from_text,
};
use crate::values::Source;
use afdx_units::{GREATEST_SIZE, LEAST_SIZE, MAX_JITTER, MAX_LINK_ID, Police};
use std::alloc::Global;
use toml::Table;

/// Checks the ports that a link leads to: refuses one that is not there, the link's own, and one that is named twice.
#[tactic(auto, unfolding(crate::specs::Links::targets))]
fn check_targets(at: At, ports: &[PortRow], from: u8, to: &[u8]) -> Result<(), TableFault>
    ensures { result ≡ targets at ports.now from [] to.now }
{
    for (index, port) in to.iter().enumerate() {
        if !has_port(ports, *port) {
            return Err(TableFault::NoSuchPort(at));
        }
        if *port == from {
            return Err(TableFault::ToOwnPort(at));
        }
        if to[..index].contains(port) {
            return Err(TableFault::ToTwice(at));
        }
    }
    Ok(())
}

/// Reads the fields of a link, and refuses a key that no link has in this version.
fn link_fields<'a>(version: u64, at: At, source: Source<'a>) -> Result<Fields<'a>, TableFault>
    ensures known { Gives (λ _. tt) result (known_at at (link_keys version) (members_of source.entry)) }
    ensures fields { IfOk result (λ f. (f.at ≡ at) × (members_of f.source ≡ members_of source.entry) × AreValues f.values.slots (members_of source.entry)) }
{
    if version == 1 {
        Fields::read(
            at,
            &[
                Key::Id,
                Key::From,
                Key::To,
                Key::Bag,
                Key::Jitter,
                Key::MaxSize,
                Key::Priority,
            ],
            source,
        )
    } else {
        Fields::read(
            at,
            &[
                Key::Id,
                Key::From,
                Key::To,
                Key::Bag,
                Key::Jitter,
                Key::MaxSize,
                Key::Priority,
                Key::Police,
            ],
            source,
        )
    }
}

/// Returns the kind of policing that is stated; by bytes if it is missing.
fn police_from(at: At, stated: Option<&str>) -> Result<Police, TableFault>
    ensures { Gives (λ p. p) result (police_from at (option_map (λ s. s.now) stated.entry)) }
{
    match stated {
        Some(text) => police_from_text(text).ok_or(TableFault::Range(at, Key::Police)),
        None => Ok(Police::Byte),
    }
}

/// Reads a link's fields into a row that leads nowhere yet, and the ports that it is to lead to.
#[tactic(auto, unfolding(crate::specs::Links::row_at))]
fn read_row(
    alloc: Global,
    version: u64,
    at: At,
    source: Source<'_>,
) -> Result<(LinkRow, Vec<u8>), TableFault>
    ensures { Gives (λ r. record r.0 { to = r.1.items }) result (row_at version at (members_of source.entry)) }
{
    let fields = link_fields(version, at, source)?;
    let id = fields.bounded(Key::Id, 0, MAX_LINK_ID)? as u16;
    let from = fields.port_id(Key::From)?;
    let to = fields.numbers(alloc, Key::To, 1, MAX_PORT_ID)?;
    let bag_ms = fields.number(Key::Bag)?;
    let bag = bag_from_ms(bag_ms).ok_or(TableFault::Range(at, Key::Bag))?;
    let jitter_us = fields.bounded(Key::Jitter, 0, MAX_JITTER)?;
    let max_size = fields.bounded(
        Key::MaxSize,
        u64::from(LEAST_SIZE),
        u64::from(GREATEST_SIZE),
    )? as u32;
    let text = fields.text(Key::Priority)?;
    let priority = priority_from_text(text).ok_or(TableFault::Range(at, Key::Priority))?;
    let police = police_from(at, fields.optional_text(Key::Police)?)?;
    let row = LinkRow {
        id,
        from,
        to: Targets::new(),
        bag,
        jitter: nanos(jitter_us),
        max_size,
        priority,
        police,
    };
    Ok((row, to))
}

/// Makes a row lead to these ports, if it fits the ports of the table and the links before it.
#[tactic(auto, unfolding(crate::specs::Links::fitting))]
fn fit(
    at: At,
    ports: &[PortRow],
    before: &LinkMap,
    mut row: LinkRow,
    to: &[u8],
) -> Result<LinkRow, TableFault>
    requires few { length ports.now ≤ 24 }
    ensures row { Gives (λ r. r) result (fitting at ports.now before.now (record row { to = to.now })) }
    ensures fresh { IfOk result (λ r. has_link before.now r.id ≡ false) }
{
    if before.contains(row.id) {
        return Err(TableFault::TwiceLink(at));
    }
    if !has_port(ports, row.from) {
        return Err(TableFault::NoSuchPort(at));
    }
    if to.is_empty() {
        return Err(TableFault::ToEmpty(at));
    }
    check_targets(at, ports, row.from, to)?;
    let Ok(to) = Targets::try_from(to) else {
        unreachable!();
    };
    row.to = to;
    Ok(row)
}

/// Reads a link, after the ports and the links before it.
#[tactic(auto, unfolding(crate::specs::Links::link_at))]
pub(crate) fn read_link(
    alloc: Global,
    version: u64,
    at: At,
    source: Source<'_>,
    ports: &[PortRow],
    before: &LinkMap,
) -> Result<LinkRow, TableFault>
    requires few { length ports.now ≤ 24 }
    ensures fresh { IfOk result (λ r. has_link before.now r.id ≡ false) }
    ensures row { Gives (λ r. r) result (link_at version at ports.now before.now (members_of source.entry)) }
{
    let (row, to) = read_row(alloc, version, at, source)?;
    fit(at, ports, before, row, &to)
}

/// Reads the links, in file order.
#[tactic(auto, unfolding(crate::specs::Links::links_from))]
pub(crate) fn read_links(
    alloc: Global,
    version: u64,
    ports: &[PortRow],
    tables: &[&Table],
) -> Result<LinkMap, TableFault>
    requires few { length ports.now ≤ 24 }
    requires few_links { length tables.now ≤ 4096 }
    ensures links { Gives (λ v. v) result (links_from version ports.now 0 [] (map (λ t. table_view t.now) tables.now)) }
    ensures memory { result ≡ Err Memory → 0 < length tables.now }
{
    let mut links = LinkMap::new(alloc);
    for (index, table) in tables.iter().enumerate() {
        let at = At::Link(index + 1);
        let row = read_link(alloc, version, at, Source::Tree(*table), ports, &links)?;
        links.push(row)?;
    }
    Ok(links)
}
