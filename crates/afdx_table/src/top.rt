//! The top of a table.

ghost use Rattle.std.specs.Prelude.{◌≡◌, ◌≢◌, ◌≤◌, Err, IfErr, IfOk, map, option_map};
ghost use Rattle.hex.specs.Hex.{decode_sized};
ghost use Rattle.toml.specs.View.{table_view};
ghost use Rattle.afdx_table.specs.Refusal.{Gives};
ghost use Rattle.afdx_table.specs.Inner.Room.{WantsRoom};
ghost use Rattle.afdx_table.specs.declared.fault.At.TheVariants as place;
ghost use Rattle.afdx_table.specs.declared.fault.TableFault.TheVariants.{Memory};
ghost use Rattle.afdx_table.specs.Top.{top_keys, at_most, version_from, group_address, constant_from, latency_from, top_at};
ghost use Rattle.afdx_table.specs.Fields.{known_at};
ghost use Rattle.afdx_table.specs.Inner.Slots.{AreValues};
ghost use Rattle.afdx_table.specs.Inner.Pairs.{members_of};

use crate::fault::{At, Key, TableFault};
use crate::fields::{Fields, bounded};
use crate::limits::{LATENCY_VERSION, MAX_LATENCY, MAX_LINKS, MAX_PORTS, MAX_VERSION};
use crate::rows::nanos;
use crate::values::Source;
use hex::FromHex;
use std::alloc::Global;
use toml::Table as Tree;

/// What the top says: the version, the constant field, the latency in nanoseconds, and the tables of the ports and of the links.
#[derive(Drop)]
pub(crate) struct Top<'a> {
    pub(crate) version: u64,
    pub(crate) constant: [u8; 4],
    pub(crate) latency: u64,
    pub(crate) ports: Vec<&'a Tree>,
    pub(crate) links: Vec<&'a Tree>,
}

/// Returns the version that is stated; a missing one is the first.
fn version_from(stated: Option<u64>) -> Result<u64, TableFault>
    ensures version { Gives (λ n. n) result (version_from stated) }
    ensures no_memory { IfErr result (λ e. e ≢ Memory) }
{
    match stated {
        Some(version) => bounded(At::Top, Key::Version, 1, MAX_VERSION, version),
        None => Ok(1),
    }
}

/// Returns the four bytes that a text is, of which the first has its two lowest bits set (ARINC 664 Part 7).
fn group_address(text: &str) -> Result<[u8; 4], TableFault>
    ensures constant { Gives (λ c. c) result (group_address (decode_sized text.now 4)) }
    ensures no_memory { IfErr result (λ e. e ≢ Memory) }
{
    match <[u8; 4] as FromHex>::from_hex(text) {
        Ok(constant) if constant[0] % 4 == 3 => Ok(constant),
        _ => Err(TableFault::Constant),
    }
}

/// Returns the constant field that is stated; a missing one is 03 00 00 00.
fn constant_from(stated: Option<&str>) -> Result<[u8; 4], TableFault>
    ensures constant { Gives (λ c. c) result (constant_from (option_map (λ s. s.now) stated.entry)) }
    ensures no_memory { IfErr result (λ e. e ≢ Memory) }
{
    match stated {
        Some(text) => group_address(text),
        None => Ok([3, 0, 0, 0]),
    }
}

/// Reads the fields of the top, and refuses a key that the top does not have in this version.
fn top_fields<'a>(version: u64, tree: &'a Tree) -> Result<Fields<'a>, TableFault>
    ensures known { Gives (λ _. tt) result (known_at place.Top (top_keys version) (table_view tree.now)) }
    ensures fields { IfOk result (λ f. (f.at ≡ place.Top) × (members_of f.source ≡ table_view tree.now) × AreValues f.values.slots (table_view tree.now)) }
    ensures no_memory { IfErr result (λ e. e ≢ Memory) }
{
    if version < LATENCY_VERSION {
        Fields::read(
            At::Top,
            &[Key::Version, Key::Constant, Key::Port, Key::Link],
            Source::Tree(tree),
        )
    } else {
        Fields::read(
            At::Top,
            &[
                Key::Version,
                Key::Constant,
                Key::Latency,
                Key::Port,
                Key::Link,
            ],
            Source::Tree(tree),
        )
    }
}

/// Returns the latency in microseconds that is stated; a missing one is 0.
fn latency_from(stated: Option<u64>) -> Result<u64, TableFault>
    ensures latency { Gives (λ n. n) result (latency_from stated) }
    ensures no_memory { IfErr result (λ e. e ≢ Memory) }
    ensures within { IfOk result (λ n. n ≤ 100) }
{
    match stated {
        Some(latency) => bounded(At::Top, Key::Latency, 0, MAX_LATENCY, latency),
        None => Ok(0),
    }
}

/// Refuses more tables than the limit.
#[tactic(auto, unfolding(crate::specs::Top::at_most))]
fn at_most(limit: usize, key: Key, tables: &[&Tree]) -> Result<(), TableFault>
    ensures tables { result ≡ at_most limit key (map (λ t. table_view t.now) tables.now) }
    ensures no_memory { IfErr result (λ e. e ≢ Memory) }
{
    if tables.len() > limit {
        return Err(TableFault::TooMany(key));
    }
    Ok(())
}

/// Reads the top.
#[tactic(auto, unfolding(crate::specs::Top::top_at))]
pub(crate) fn read_top<'a>(alloc: Global, tree: &'a Tree) -> Result<Top<'a>, TableFault>
    ensures top { Gives (λ t. record {
      version = t.version;
      constant = t.constant;
      latency = t.latency;
      ports = map (λ p. table_view p.now) t.ports.items;
      links = map (λ l. table_view l.now) t.links.items;
    }) result (top_at (table_view tree.now)) }
    ensures memory { result ≡ Err Memory → WantsRoom (table_view tree.now) }
{
    let stated = top_fields(MAX_VERSION, tree)?;
    let version = version_from(stated.optional_number(Key::Version)?)?;
    let fields = top_fields(version, tree)?;
    let constant = constant_from(fields.optional_text(Key::Constant)?)?;
    let latency_us = latency_from(fields.optional_number(Key::Latency)?)?;
    let ports = fields.tables(alloc, Key::Port)?;
    let links = fields.tables(alloc, Key::Link)?;
    at_most(MAX_PORTS, Key::Port, &ports)?;
    at_most(MAX_LINKS, Key::Link, &links)?;
    Ok(Top {
        version,
        constant,
        latency: nanos(latency_us),
        ports,
        links,
    })
}
