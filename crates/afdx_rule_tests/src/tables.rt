//! Tables that are read, to their rows; the greatest, and those that have too many rows.

use afdx_samples::{double, mixed, port, single};
use afdx_table::{At, Key, LinkRow, PortRow, Table, TableFault, read};
use afdx_units::{Bag, Police, Priority, Speed};
use std::alloc::{AllocError, Global};
use std::test::Fail;

/// A port as the worked tables have it.
const PORT: PortRow = PortRow {
    id: 1,
    speed: Speed::Hundred,
    buffer: 100_000,
    max_delay: 500_000_000,
};

/// Returns whether a table has so many ports, from 1 on, each of them a port of the worked tables.
fn has_worked_ports(table: &Table, count: u8) -> bool {
    for id in 1..=count {
        if table.port(id).copied() != Some(PortRow { id, ..PORT }) {
            return false;
        }
    }
    table.ports().len() == usize::from(count) && table.port(count.saturating_add(1)).is_none()
}

/// A link of a worked table: its number, the port that it comes from, the one that it leads to, and its priority.
type WorkedLink = (u16, u8, u8, Priority);

/// Returns whether a row is that of a worked table's link.
fn is_worked_link(row: &LinkRow, link: &WorkedLink) -> bool {
    let (id, from, to, priority) = *link;
    row.id == id
        && row.from == from
        && row.to.as_slice() == [to].as_slice()
        && row.bag == Bag::Ms1
        && row.jitter == 0
        && row.max_size == 1518
        && row.priority == priority
        && row.police == Police::Byte
}

/// Returns whether a worked table's link is found by its number, and is at this place.
fn has_worked_link(table: &Table, place: usize, link: &WorkedLink) -> bool {
    let Some(row) = table.link(link.0) else {
        return false;
    };
    is_worked_link(row, link)
        && table.link_at(place).map(|row| row.id) == Some(link.0)
        && table.link_place(link.0) == Some(place)
}

/// Returns whether a table has exactly these links, in this order.
fn has_worked_links(table: &Table, links: &[WorkedLink]) -> bool {
    for (place, link) in links.iter().enumerate() {
        if !has_worked_link(table, place, link) {
            return false;
        }
    }
    table.link_count() == links.len()
        && table.link_at(links.len()).is_none()
        && table.link(13).is_none()
        && table.link_place(13).is_none()
}

/// Returns whether a text is a table of so many worked ports and these links, with the constant field and the latency of a table
/// that states none.
fn is_worked(alloc: Global, text: &str, ports: u8, links: &[WorkedLink]) -> Result<bool, Fail> {
    let table = read(alloc, text.as_bytes())?;
    Ok(
        has_worked_ports(&table, ports)
            && has_worked_links(&table, links)
            && table.constant() == [3, 0, 0, 0]
            && table.latency() == 0,
    )
}

#[test]
fn worked_tables(rt: HostRuntime) -> Result<(), Fail> {
    let low = Priority::Low;
    let alloc = rt.alloc();
    let is_single = is_worked(alloc, &single(alloc)?, 2, &[(10, 1, 2, low)])?;
    let of_double = [(10, 1, 3, low), (20, 2, 3, low)];
    let is_double = is_worked(alloc, &double(alloc, port(3))?, 3, &of_double)?;
    let of_mixed = [(10, 1, 2, low), (11, 1, 2, low), (12, 1, 2, Priority::High)];
    let is_mixed = is_worked(alloc, &mixed(alloc)?, 2, &of_mixed)?;
    assert_eq!(rt; [is_single, is_double, is_mixed], [true; 3]);
    Ok(())
}

/// What TOML allows beside the plain form: comments, hexadecimal and grouped numbers, quoted keys, inline tables, arrays
/// over several lines, and lines that end in a carriage return and a line feed.
const OTHER_FORMS: &str = "# the lab's switch\r
\"version\" = 3 # the third\r
latency_us = 100\r
constant = '0700AAff'\r
port = [\r
  { id = 2, mbit = 1000, buffer = 0, max_delay_us = 1 }, # fast\r
  { max_delay_us = 500_000, buffer = 0x100_0000, mbit = +10, id = 1 },\r
]\r
link = [{ id = 0xffff, from = 2, to = [\r
  1, # the only one\r
], bag_ms = 128, jitter_us = 10_000, max_size = 64, priority = \"high\", police = \"frame\" }]\r
";

/// The ports of this text.
const OTHER_PORTS: &[PortRow] = &[
    PortRow {
        id: 1,
        speed: Speed::Ten,
        buffer: 16_777_216,
        max_delay: 500_000_000,
    },
    PortRow {
        id: 2,
        speed: Speed::Thousand,
        buffer: 0,
        max_delay: 1_000,
    },
];

/// Returns whether a row is that of the link of `OTHER_FORMS`.
fn is_other_link(row: &LinkRow) -> bool {
    row.from == 2
        && row.to.as_slice() == [1].as_slice()
        && row.bag == Bag::Ms128
        && row.jitter == 10_000_000
        && row.max_size == 64
        && row.priority == Priority::High
        && row.police == Police::Frame
}

/// Returns whether a table is that of `OTHER_FORMS`.
fn is_other(table: &Table) -> bool {
    table.constant() == [7, 0, 0xaa, 0xff]
        && table.latency() == 100_000
        && table.ports() == OTHER_PORTS
        && table.link(65_535).is_some_and(|row| is_other_link(row))
}

#[test]
fn other_forms(rt: HostRuntime) -> Result<(), Fail> {
    let table = read(rt.alloc(), OTHER_FORMS.as_bytes())?;
    assert!(rt; is_other(&table));
    Ok(())
}

/// Tables without rows, and their constants.
const EMPTY: &[(&[u8], [u8; 4])] = &[
    (b"", [3, 0, 0, 0]),
    (b"\xef\xbb\xbf# nothing", [3, 0, 0, 0]),
    (b"port = []\nlink = []", [3, 0, 0, 0]),
    (b"constant = \"07000000\"", [7, 0, 0, 0]),
];

#[test]
fn no_rows(rt: HostRuntime) -> Result<(), Fail> {
    for (text, constant) in EMPTY {
        let table = read(rt.alloc(), text)?;
        let rows = (table.constant(), table.ports().len(), table.link_count());
        assert_eq!(rt; rows, (*constant, 0, 0), "{text:?}");
    }
    Ok(())
}

/// What each link of the greatest table has beside its number.
const GREATEST_LINK: &str = "from = 1
to = [2, 3, 4, 5, 6, 7, 8, 9, 10, 11, 12, 13, 14, 15, 16, 17, 18, 19, 20, 21, 22, 23, 24]
bag_ms = 128
jitter_us = 10000
max_size = 64
priority = \"high\"
";

/// Appends the ports of the greatest table.
fn push_ports(alloc: Global, text: &mut String) -> Result<(), AllocError> {
    for id in 1..25u8 {
        let port = format!(in alloc;
            "[[port]]\nid = {id}\nmbit = 100\nbuffer = 16777216\nmax_delay_us = 500000\n"
        )?;
        text.push_str(port.as_str())?;
    }
    Ok(())
}

/// Appends the links of the greatest table.
fn push_links(alloc: Global, text: &mut String) -> Result<(), AllocError> {
    for id in 0..4096u16 {
        let link = format!(in alloc; "[[link]]\nid = {id}\n")?;
        text.push_str(link.as_str())?;
        text.push_str(GREATEST_LINK)?;
    }
    Ok(())
}

/// Returns the text of the greatest table: 24 ports, and 4096 links from the first to all others.
fn greatest(alloc: Global) -> Result<String, AllocError> {
    let mut text = String::new(alloc);
    push_ports(alloc, &mut text)?;
    push_links(alloc, &mut text)?;
    Ok(text)
}

#[test]
fn greatest_table(rt: HostRuntime) -> Result<(), Fail> {
    // example of afdx_table
    let text = greatest(rt.alloc())?;
    let table = read(rt.alloc(), text.as_bytes())?;
    let rows = (table.ports().len(), table.link_count());
    let last = table.link(4095).map(|row| row.to.len());
    let place = table.link_place(4095);
    // end of example
    assert_eq!(rt; (rows, last, place), ((24, 4096), Some(23), Some(4095)));
    Ok(())
}

/// Texts with empty rows: what comes before them, how many ports and links they have, and what comes after.
const TOO_MANY: &[(&str, usize, usize, &str, TableFault)] = &[
    ("", 25, 0, "", TableFault::TooMany(Key::Port)),
    ("", 0, 4097, "", TableFault::TooMany(Key::Link)),
    // two faults at once: the earlier is named
    ("", 25, 4097, "", TableFault::TooMany(Key::Port)),
    (
        "link = 1\n",
        25,
        0,
        "",
        TableFault::Kind(At::Top, Key::Link),
    ),
    (
        "",
        0,
        4097,
        "[[port]]\ncolor = 1\n",
        TableFault::TooMany(Key::Link),
    ),
];

/// Joins a text, so many empty ports, so many empty links and another text.
fn with_empty_rows(
    alloc: Global,
    head: &str,
    ports: usize,
    links: usize,
    tail: &str,
) -> Result<String, AllocError> {
    let mut text = String::new(alloc);
    text.push_str(head)?;
    text.push_str("[[port]]\n".repeat(alloc, ports)?.as_str())?;
    text.push_str("[[link]]\n".repeat(alloc, links)?.as_str())?;
    text.push_str(tail)?;
    Ok(text)
}

#[test]
fn too_many(rt: HostRuntime) -> Result<(), Fail> {
    for (head, ports, links, tail, fault) in TOO_MANY {
        let text = with_empty_rows(rt.alloc(), head, *ports, *links, tail)?;
        let found = read(rt.alloc(), text.as_bytes()).err();
        assert_eq!(rt; found, Some(*fault), "{ports} ports, {links} links");
    }
    Ok(())
}

/// Each fault, and how it is printed.
const NAMES: &[(TableFault, &str)] = &[
    (TableFault::Memory, "Memory"),
    (TableFault::Toml, "Toml"),
    (TableFault::UnknownKey(At::Link(1)), "UnknownKey"),
    (TableFault::MissingKey(At::Link(1), Key::Id), "MissingKey"),
    (TableFault::Kind(At::Link(1), Key::Id), "Kind"),
    (TableFault::Range(At::Link(1), Key::Id), "Range"),
    (TableFault::Constant, "Constant"),
    (TableFault::TwicePort(At::Link(1)), "TwicePort"),
    (TableFault::TwiceLink(At::Link(1)), "TwiceLink"),
    (TableFault::NoSuchPort(At::Link(1)), "NoSuchPort"),
    (TableFault::ToEmpty(At::Link(1)), "ToEmpty"),
    (TableFault::ToTwice(At::Link(1)), "ToTwice"),
    (TableFault::ToOwnPort(At::Link(1)), "ToOwnPort"),
    (TableFault::TooMany(Key::Port), "TooMany"),
];

#[test]
fn messages(rt: HostRuntime) -> Result<(), Fail> {
    for (fault, name) in NAMES {
        let printed = format!(in rt.alloc(); "{fault}")?;
        assert_eq!(rt; printed.as_str(), *name);
    }
    Ok(())
}
