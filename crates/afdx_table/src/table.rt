//! The table, and how it is read.

ghost use Rattle.std.specs.Prelude.{◌≡◌, ◌<◌, ◌≤◌, length, slice_get, option_copied, Err, Ok, IfOk, IfSome};
ghost use Rattle.toml.specs.View.{table_view};
ghost use Rattle.afdx_table.specs.Refusal.{Gives};
ghost use Rattle.afdx_table.specs.Link.{with_jitter};
ghost use Rattle.afdx_table.specs.Content.{port_row, link_row, link_place};
ghost use Rattle.afdx_table.specs.Text.{content_of, tree_of, table_of};
ghost use Rattle.afdx_table.specs.Room.{SaysSomething};
ghost use Rattle.afdx_table.specs.Inner.Room.{WantsRoom};
ghost use Rattle.afdx_table.specs.WellFormed.{IsPort, IsLink, IsWellFormed};
ghost use Rattle.afdx_table.specs.declared.fault.TableFault.TheVariants.{Memory};

use crate::apart::{cut, read_apart};
use crate::fault::TableFault;
use crate::link_map::LinkMap;
use crate::links::read_links;
use crate::ports::{port_of, read_ports};
use crate::rows::{LinkRow, PortRow};
use crate::top::read_top;
use afdx_toml_split::laws::links_are_read_apart;
use std::alloc::{AllocError, Global};
use std::marker::Model;
use toml::Table as Tree;

/// A configuration table that was read: it is well formed.
///
/// Contracts see what it says: the constant field, the latency, the ports by rising number, and the links in file order.
#[derive(Drop)]
pub struct Table {
    constant: [u8; 4],
    latency: u64,
    ports: Vec<PortRow>,
    links: LinkMap,
}

impl Model for Table {
    ghost use Rattle.afdx_table.specs.Content.{Content};
    ghost use Rattle.afdx_table.specs.WellFormed.{IsWellFormed};

    ghost Value = { Content };

    ghost view = { λ t. record { constant = t.constant; latency = t.latency; ports = t.ports.items; links = t.links } };

    ghost invariant = { λ t. IsWellFormed (record {
      constant = t.constant;
      latency = t.latency;
      ports = t.ports.items;
      links = t.links;
    }) };
}

impl Table {
    /// Returns a copy of the table. An error says that memory ran out. O(p) for p ports without links,
    /// O(65,536 + p + n) with n links.
    pub fn copy(&self, alloc: Global) -> Result<Table, AllocError>
        ensures { IfOk result (λ t. t ≡ self.now) }
    {
        let mut ports = Vec::new(alloc);
        ports.extend_from_slice(&self.ports)?;
        Ok(Table {
            constant: self.constant,
            latency: self.latency,
            ports,
            links: self.links.copy(alloc)?,
        })
    }

    /// Gives the link at a place in file order, from 0, a jitter of so many nanoseconds, at most 10,000,000. There is a link at the
    /// place. O(1).
    pub fn set_jitter(&mut self, index: usize, jitter: u64)
        requires place { index < length self.old.links }
        requires limit { jitter ≤ 10000000 }
        ensures { self.new ≡ record self.old { links = with_jitter index jitter self.old.links } }
    {
        self.links.set_jitter(index, jitter);
    }

    /// Returns the constant field: the first four bytes of the destination address of each link's frames (ARINC 664 Part 7). O(1).
    pub fn constant(&self) -> [u8; 4]
        ensures constant { result ≡ self.now.constant }
        ensures well_formed { IsWellFormed self.now }
    {
        self.constant
    }

    /// Returns the latency: nanoseconds from the instant at which a frame has come until its copies are queued, at most 100,000.
    /// O(1).
    pub fn latency(&self) -> u64
        ensures latency { result ≡ self.now.latency }
        ensures well_formed { IsWellFormed self.now }
    {
        self.latency
    }

    /// Returns the ports, by rising number. O(1).
    pub fn ports(&self) -> &[PortRow]
        ensures ports { result.now ≡ self.now.ports }
        ensures well_formed { IsWellFormed self.now }
    {
        self.ports.as_slice()
    }

    /// Returns the port of a number, if there is one. O(ports), at most 24.
    pub fn port(&self, id: u8) -> Option<&PortRow>
        ensures port { option_copied result ≡ port_row self.now id }
        ensures limits { IfSome result (λ p. IsPort p.now) }
        ensures well_formed { IsWellFormed self.now }
    {
        port_of(&self.ports, id)
    }

    /// Returns the number of links, at most 4096. O(1).
    pub fn link_count(&self) -> usize
        ensures count { result ≡ length self.now.links }
        ensures well_formed { IsWellFormed self.now }
    {
        self.links.len()
    }

    /// Returns the link at a place in file order, from 0, if there is one. O(1).
    pub fn link_at(&self, index: usize) -> Option<&LinkRow>
        ensures link { option_copied result ≡ slice_get self.now.links index }
        ensures limits { IfSome result (λ l. IsLink self.now.ports l.now) }
        ensures well_formed { IsWellFormed self.now }
    {
        self.links.at(index)
    }

    /// Finds the link of a number. O(1).
    pub fn link(&self, id: u16) -> Option<&LinkRow>
        ensures link { option_copied result ≡ link_row self.now id }
        ensures limits { IfSome result (λ l. IsLink self.now.ports l.now) }
        ensures well_formed { IsWellFormed self.now }
    {
        self.links.get(id)
    }

    /// Finds the place in file order, from 0, of the link of a number. O(1).
    pub fn link_place(&self, id: u16) -> Option<usize>
        ensures place { result ≡ link_place self.now id }
        ensures well_formed { IsWellFormed self.now }
    {
        self.links.place(id)
    }
}

/// Reads the table of a tree.
#[tactic(auto, unfolding(crate::specs::Text::content_of))]
fn read_tree(alloc: Global, tree: &Tree) -> Result<Table, TableFault>
    ensures table { Gives (λ t. t) result (content_of (table_view tree.now)) }
    ensures memory { result ≡ Err Memory → WantsRoom (table_view tree.now) }
    ensures well_formed { IfOk result (λ t. IsWellFormed t) }
{
    let top = read_top(alloc, tree)?;
    let ports = read_ports(alloc, top.version, &top.ports)?;
    let links = read_links(alloc, top.version, &ports, &top.links)?;
    Ok(Table {
        constant: top.constant,
        latency: top.latency,
        ports,
        links,
    })
}

/// Reads a text as a tree.
#[tactic(auto, using(crate::proofs::TextLemmas::no_tree, crate::proofs::TextLemmas::tree))]
fn read_text(alloc: Global, bytes: &[u8]) -> Result<Tree, TableFault>
    ensures tree { Gives (λ t. table_view t) result (tree_of bytes.now) }
    ensures memory { result ≡ Err Memory → SaysSomething bytes.now }
{
    let Ok(text) = std::str::from_utf8(bytes) else {
        return Err(TableFault::Toml);
    };
    match toml::table_from_str(alloc, text) {
        Ok(tree) => Ok(tree),
        Err(error) if error.is_memory() => Err(TableFault::Memory),
        Err(_) => Err(TableFault::Toml),
    }
}

/// Reads the table of a text, with its links one by one; none if the text is refused, or its links are not written so that each can
/// be read by itself.
fn read_by_links(alloc: Global, bytes: &[u8]) -> Option<Table>
    ensures { IfSome result (λ t. table_of bytes.now ≡ Ok t) }
{
    links_are_read_apart();
    let Ok(text) = std::str::from_utf8(bytes) else {
        return None;
    };
    let (head, behind) = cut(text);
    let Some(texts) = behind else {
        return None;
    };
    let Ok(tree) = toml::table_from_str(alloc, head) else {
        return None;
    };
    if tree.contains_key("link") {
        return None;
    }
    let Ok(top) = read_top(alloc, &tree) else {
        return None;
    };
    let Ok(ports) = read_ports(alloc, top.version, &top.ports) else {
        return None;
    };
    let links = read_apart(alloc, top.version, &ports, texts)?;
    Some(Table {
        constant: top.constant,
        latency: top.latency,
        ports,
        links,
    })
}

/// Reads a configuration table, a text of TOML 1.1.
///
/// The first refusal in this order is given, or `Memory` if memory ran out before it; `Memory` is never given for bytes that are
/// not UTF-8, nor for a text of white space and comments alone:
///
/// 1. `Toml`: bytes that are not UTF-8, or a text that the library `toml` refuses for another cause than memory.
/// 2. At the top: `UnknownKey`; of `version` `Kind`, `Range`; in versions 1 and 2 `UnknownKey` of `latency_us`; of
///    `constant` `Kind`, `Constant`; of `latency_us` `Kind`, `Range`; of `port`, then of `link`, `Kind`; of `port`, then of
///    `link`, `TooMany`.
/// 3. At each port in array order: `UnknownKey`; of `id`, `mbit`, `buffer` and `max_delay_us`, in this order,
///    `MissingKey`, `Kind`, `Range`; `TwicePort`.
/// 4. At each link in array order: `UnknownKey`, in version 1 of `police` too; of `id`, `from`, `to`, `bag_ms`,
///    `jitter_us`, `max_size` and `priority`, in this order, `MissingKey`, `Kind`, `Range`; of `police` `Kind`, `Range`;
///    `TwiceLink`; `NoSuchPort` of `from`; `ToEmpty`; then, of
///    each member of `to` from the left, `NoSuchPort`, `ToOwnPort`, `ToTwice`.
///
/// Links at the end of a text, each after a line `[[link]]`, are read one by one, so that no tree of the whole text is made, which
/// takes about 14 times its memory; and a link whose lines are each `key = value`, or empty, is read value by value, so that no tree
/// of the link is made. All else is read whole: links that are written otherwise, lines that end in a carriage return, and a text that
/// is refused, for its first refusal.
///
/// O(n) time and memory in the length of the text; only if a text has many keys at one place does their sorting add a factor of
/// O(log n).
#[tactic(auto, unfolding(crate::specs::Text::table_of))]
pub fn read(alloc: Global, bytes: &[u8]) -> Result<Table, TableFault>
    ensures table { Gives (λ t. t) result (table_of bytes.now) }
    ensures memory { result ≡ Err Memory → SaysSomething bytes.now }
    ensures well_formed { IfOk result (λ t. IsWellFormed t) }
{
    if let Some(table) = read_by_links(alloc, bytes) {
        return Ok(table);
    }
    let tree = read_text(alloc, bytes)?;
    read_tree(alloc, &tree)
}
