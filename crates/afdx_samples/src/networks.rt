//! Networks: the file, and the rows of its switches.

use crate::rows::Link;
use crate::tables::{link, port, table};
use std::alloc::{AllocError, Global};
use std::fmt::Write;

/// The start and the end of a wire as the network file has them, `A.3`, and its nanoseconds of delay.
pub type Ends = (&'static str, &'static str, u32);

/// Appends these wires.
fn put_wires(text: &mut String, wires: &[Ends]) -> Result<(), AllocError> {
    for (from, to, delay) in wires {
        writeln!(text, "[[wire]]")?;
        writeln!(text, "from = \"{from}\"")?;
        writeln!(text, "to = \"{to}\"")?;
        writeln!(text, "delay_ns = {delay}")?;
    }
    Ok(())
}

/// Writes a network file: switches of these names, each with its table in `NAME.toml`, and these wires.
pub fn network_file(alloc: Global, names: &[&str], wires: &[Ends]) -> Result<String, AllocError> {
    let mut text = String::from_str(alloc, "version = 1\n")?;
    for name in names {
        writeln!(text, "[[switch]]")?;
        writeln!(text, "name = \"{name}\"")?;
        writeln!(text, "table = \"{name}.toml\"")?;
    }
    put_wires(&mut text, wires)?;
    Ok(text)
}

/// Makes a low link of frames of 64 bytes each millisecond.
pub fn small_link(id: u16, from: u8, to: &'static str, jitter_us: u32) -> Link {
    Link {
        max_size: 64,
        jitter_us,
        ..link(id, from, to)
    }
}

/// Writes a table with ports 1 to 4 at 100 Mbit/s and these links.
fn four_ports(alloc: Global, links: &[Link]) -> Result<String, AllocError> {
    table(alloc, &[port(1), port(2), port(3), port(4)], links)
}

/// Writes such a table for each switch.
pub fn four_ports_each(alloc: Global, switches: &[&[Link]]) -> Result<Vec<String>, AllocError> {
    let mut texts = Vec::new(alloc);
    for links in switches {
        texts.push(four_ports(alloc, links)?)?;
    }
    Ok(texts)
}

/// Makes three links that come in at ports 1 to 3 of the first switch, leave at its port 4, come in at port 1 of the second one and
/// leave at its port 2, with this jitter there. The port of the first one sends three frames of 6,720 ns, so that 13,440 ns of
/// jitter arise.
pub fn two_switches(jitter_us: u32) -> [[Link; 3]; 2] {
    [
        [
            small_link(1, 1, "[4]", 0),
            small_link(2, 2, "[4]", 0),
            small_link(3, 3, "[4]", 0),
        ],
        [
            small_link(1, 1, "[2]", jitter_us),
            small_link(2, 1, "[2]", jitter_us),
            small_link(3, 1, "[2]", jitter_us),
        ],
    ]
}
