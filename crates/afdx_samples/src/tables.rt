//! Tables as texts.

use crate::rows::{Link, Port};
use std::alloc::{AllocError, Global};
use std::fmt::Write;

/// Makes a port at 100 Mbit/s with much room.
pub fn port(id: u8) -> Port {
    Port {
        id,
        mbit: 100,
        buffer: 100_000,
        max_delay_us: 500_000,
    }
}

/// Makes a low link without jitter, for frames of every size each millisecond, whose kind of policing is not stated.
pub fn link(id: u16, from: u8, to: &'static str) -> Link {
    Link {
        id,
        from,
        to,
        bag_ms: 1,
        jitter_us: 0,
        max_size: 1518,
        priority: "low",
        police: "",
    }
}

/// Appends these ports.
fn put_ports(text: &mut String, ports: &[Port]) -> Result<(), AllocError> {
    for port in ports {
        writeln!(text, "[[port]]")?;
        writeln!(text, "id = {}", port.id)?;
        writeln!(text, "mbit = {}", port.mbit)?;
        writeln!(text, "buffer = {}", port.buffer)?;
        writeln!(text, "max_delay_us = {}", port.max_delay_us)?;
    }
    Ok(())
}

/// Writes a table, in the second version if a link states the kind of its policing.
pub fn table(alloc: Global, ports: &[Port], links: &[Link]) -> Result<String, AllocError> {
    let mut text = String::new(alloc);
    if links.iter().any(|link| !link.police.is_empty()) {
        writeln!(text, "version = 2")?;
    }
    put_ports(&mut text, ports)?;
    for link in links {
        writeln!(text, "[[link]]")?;
        writeln!(text, "id = {}", link.id)?;
        writeln!(text, "from = {}", link.from)?;
        writeln!(text, "to = {}", link.to)?;
        writeln!(text, "bag_ms = {}", link.bag_ms)?;
        writeln!(text, "jitter_us = {}", link.jitter_us)?;
        writeln!(text, "max_size = {}", link.max_size)?;
        writeln!(text, "priority = \"{}\"", link.priority)?;
        if !link.police.is_empty() {
            writeln!(text, "police = \"{}\"", link.police)?;
        }
    }
    Ok(text)
}

/// Writes this table, which states no version, in the third version and with this latency.
pub fn later(alloc: Global, table: &str, latency_us: u32) -> Result<String, AllocError> {
    format!(in alloc; "version = 3\nlatency_us = {latency_us}\n{table}")
}

/// Writes a table with ports 1 and 2, and link 10 from 1 to 2.
pub fn single(alloc: Global) -> Result<String, AllocError> {
    table(alloc, &[port(1), port(2)], &[link(10, 1, "[2]")])
}

/// Writes a table with ports 1 and 2 and this one, and links 10 from 1 and 20 from 2, both to 3.
pub fn double(alloc: Global, third: Port) -> Result<String, AllocError> {
    table(
        alloc,
        &[port(1), port(2), third],
        &[link(10, 1, "[3]"), link(20, 2, "[3]")],
    )
}

/// Writes a table with ports 1 and 2, and links 10 and 11 (low) and 12 (high) from 1 to 2.
pub fn mixed(alloc: Global) -> Result<String, AllocError> {
    let high = Link {
        priority: "high",
        ..link(12, 1, "[2]")
    };
    table(
        alloc,
        &[port(1), port(2)],
        &[link(10, 1, "[2]"), link(11, 1, "[2]"), high],
    )
}

/// Writes the same table as `double`, with frames of link 10 of at most 500 bytes.
pub fn narrow(alloc: Global) -> Result<String, AllocError> {
    let first = Link {
        max_size: 500,
        ..link(10, 1, "[3]")
    };
    table(
        alloc,
        &[port(1), port(2), port(3)],
        &[first, link(20, 2, "[3]")],
    )
}

/// Writes a table with port 1, port 2 at 10 Mbit/s with room for one frame of size 64, port 3, and link 10 from 1 to the others.
pub fn slow(alloc: Global) -> Result<String, AllocError> {
    let second = Port {
        mbit: 10,
        buffer: 64,
        ..port(2)
    };
    table(alloc, &[port(1), second, port(3)], &[link(10, 1, "[2, 3]")])
}
