//! How a network file is read.

ghost use Rattle.std.specs.Prelude.{map};
ghost use Rattle.toml.specs.View.{table_view};
ghost use Rattle.afdx_wiring.specs.Refusal.{Gives};
ghost use Rattle.afdx_wiring.specs.File.{top_at, layout_in, tree_of, layout_of};

use crate::fault::{At, Key, NetworkFault};
use crate::fields::Fields;
use crate::layout::Layout;
use crate::switches::read_switches;
use crate::wires::read_wires;
use std::alloc::Global;
use toml::Table as Tree;

/// The most switches of a network.
const MAX_SWITCHES: usize = 64;

/// What the top says of end systems' lines, and the tables of the switches and of the wires.
#[derive(Drop)]
struct Top<'a> {
    one_line: bool,
    switches: Vec<&'a Tree>,
    wires: Vec<&'a Tree>,
}

/// Reads the top.
#[tactic(auto, unfolding(crate::specs::File::top_at))]
fn read_top<'a>(alloc: Global, tree: &'a Tree) -> Result<Top<'a>, NetworkFault>
    ensures { Gives (λ t. record {
      one_line = t.one_line;
      switches = map (λ s. table_view s.now) t.switches.items;
      wires = map (λ w. table_view w.now) t.wires.items;
    }) result (top_at (table_view tree.now)) }
{
    let fields = Fields {
        at: At::Top,
        table: tree,
    };
    fields.known(&[Key::Version, Key::OneLine, Key::Switch, Key::Wire])?;
    let version = fields.optional_number(Key::Version, 1, 1)?;
    if version == 0 {
        return Err(NetworkFault::Range(At::Top, Key::Version));
    }
    let one_line = fields.flag(Key::OneLine)?;
    let switches = fields.tables(alloc, Key::Switch)?;
    let wires = fields.tables(alloc, Key::Wire)?;
    if switches.len() > MAX_SWITCHES {
        return Err(NetworkFault::Range(At::Top, Key::Switch));
    }
    Ok(Top {
        one_line,
        switches,
        wires,
    })
}

/// Reads the layout of a tree.
#[tactic(auto, unfolding(crate::specs::File::layout_in))]
fn read_tree(alloc: Global, tree: &Tree) -> Result<Layout, NetworkFault>
    ensures { Gives (λ l. l) result (layout_in (table_view tree.now)) }
{
    let top = read_top(alloc, tree)?;
    let switches = read_switches(alloc, &top.switches)?;
    let wires = read_wires(alloc, &switches, &top.wires)?;
    Ok(Layout {
        one_line: top.one_line,
        switches,
        wires,
    })
}

/// Reads the tree that a text is.
#[tactic(auto, using(crate::proofs::TextLemmas::no_tree, crate::proofs::TextLemmas::tree))]
fn read_text(alloc: Global, bytes: &[u8]) -> Result<Tree, NetworkFault>
    ensures { Gives (λ t. table_view t) result (tree_of bytes.now) }
{
    let Ok(text) = std::str::from_utf8(bytes) else {
        return Err(NetworkFault::Toml);
    };
    match toml::table_from_str(alloc, text) {
        Ok(tree) => Ok(tree),
        Err(error) if error.is_memory() => Err(NetworkFault::Memory),
        Err(_) => Err(NetworkFault::Toml),
    }
}

/// Reads a network file, a text of TOML 1.1.
///
/// The first refusal in this order is given, and `Memory` if memory ran out:
///
/// 1. `Toml`: bytes that are not UTF-8, or a text that the library `toml` refuses for another cause than memory.
/// 2. At the top: `UnknownKey`; of `version` `Kind`, `Range`; of `one_line` `Kind`; of `switch`, then of `wire`, `Kind`; of
///    `switch` `Range`, if there are more than 64.
/// 3. At each switch in array order: `UnknownKey`; of `name` `MissingKey`, `Kind`, `Range`; of `table` the same; of
///    `least_latency_us` `Kind`, `Range`; of `down` `Kind`; `TwiceSwitch`.
/// 4. At each wire in array order: `UnknownKey`; of `from`, then of `to`, `MissingKey`, `Kind`, `Range`; of `delay_ns` `Kind`,
///    `Range`; of `down` `Kind`; `NoSuchSwitch`; `TwiceFrom`, `TwiceTo`, `OwnPort`.
///
/// O(n + w (s + w)) time in the length n of the text and the numbers s of switches, at most 64, and w of wires that are read,
/// at most 1537; O(n) memory.
#[tactic(auto, unfolding(crate::specs::File::layout_of))]
pub fn read(alloc: Global, bytes: &[u8]) -> Result<Layout, NetworkFault>
    ensures { Gives (λ l. l) result (layout_of bytes.now) }
{
    let tree = read_text(alloc, bytes)?;
    read_tree(alloc, &tree)
}
