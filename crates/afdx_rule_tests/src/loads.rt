//! Load numbers, each reckoned by hand, and a table that is refused.

use afdx_load::{Cleared, LoadFault, Rule, bounds, check, least_buffer, load, loads};
use afdx_samples::{FRAMED, HIGH, LOW, Link, Port, later, link, port, table};
use afdx_table::{Table, read};
use std::alloc::{AllocError, Global};
use std::test::Fail;

/// One of the smallest frames.
const SMALL: Link = Link {
    id: 11,
    max_size: 64,
    ..LOW
};

/// Rate, least buffer, high and low bound of port 2.
type Numbers = (u64, u128, Option<u128>, Option<u128>);

/// Makes the table of ports 1 and 2, of which the second sends so many Mbit/s, and of these links.
fn table_of(alloc: Global, mbit: u32, links: &[Link]) -> Result<Table, Fail> {
    let second = Port { mbit, ..port(2) };
    let text = table(alloc, &[port(1), second], links)?;
    let table = read(alloc, text.as_bytes())?;
    Ok(table)
}

/// Returns the numbers of port 2 if the loads of all ports have the same rate there and there is no port 3, else none.
fn numbers(table: &Table) -> Option<Numbers> {
    // example of afdx_load
    let row = table.port(2)?;
    let load = load(table, 2)?;
    let rate = loads(table).at(2)?.rate();
    let bounds = bounds(&load);
    // end of example
    if rate != load.rate() || afdx_load::load(table, 3).is_some() {
        return None;
    }
    Some((
        rate,
        least_buffer(&load, row.speed),
        bounds.high,
        bounds.low,
    ))
}

/// Returns the numbers before the check, those of a table that it accepts, and those of the table that comes back from it.
fn numbers_of(table: Table) -> [Option<Numbers>; 3] {
    let before = numbers(&table);
    match check(table) {
        Ok(cleared) => with_cleared(before, cleared),
        Err(_) => [before, None, None],
    }
}

fn with_cleared(before: Option<Numbers>, cleared: Cleared) -> [Option<Numbers>; 3] {
    let after = numbers(cleared.table());
    let again = numbers(&cleared.into_table());
    [before, after, again]
}

/// Mbit/s and links of tables that are accepted, with the numbers.
const WORKED: &[(u32, &[Link], Numbers)] = &[
    (100, &[LOW], (326_430_720, 3531, None, Some(159_390))),
    (100, &[HIGH], (326_430_720, 3531, Some(159_390), None)),
    (
        100,
        &[LOW, HIGH],
        (652_861_440, 5523, Some(282_430), Some(379_224)),
    ),
    // by frames: one frame of 1518 bytes and its overhead each millisecond
    (100, &[FRAMED], (251_985_920, 3076, None, Some(123_040))),
    // by bytes and by frames
    (
        100,
        &[LOW, FRAMED],
        (578_416_640, 5069, None, Some(282_430)),
    ),
];

#[test]
fn worked_numbers(rt: HostRuntime) -> Result<(), Fail> {
    for (mbit, links, want) in WORKED {
        let table = table_of(rt.alloc(), *mbit, links)?;
        assert_eq!(rt; numbers_of(table), [Some(*want); 3], "{}", want.0);
    }
    Ok(())
}

/// Returns the numbers of port 2 at 1000 Mbit/s with a latency of 50 µs, which is part of the bound alone.
fn numbers_later(alloc: Global) -> Result<Option<Numbers>, Fail> {
    let second = Port {
        mbit: 1000,
        ..port(2)
    };
    let rows = table(alloc, &[port(1), second], &[LOW])?;
    let text = later(alloc, &rows, 50)?;
    let table = read(alloc, text.as_bytes())?;
    Ok(numbers(&table))
}

#[test]
fn gigabit(rt: HostRuntime) -> Result<(), Fail> {
    assert_eq!(rt;
        numbers_later(rt.alloc())?,
        Some((32_643_072, 3531, None, Some(65_939)))
    );
    Ok(())
}

/// What the links of a port ask for: rates and the longest times on the line, bursts, and how many links of each priority there are.
type Sums = ([u64; 4], [u128; 2], [u32; 2]);

/// Returns the sums of a port, if the table has it.
fn sums(table: &Table, port: u8) -> Option<Sums> {
    let load = load(table, port)?;
    let times = [
        load.rate(),
        load.high_rate(),
        load.largest(),
        load.low_largest(),
    ];
    let bursts = [load.burst(), load.high_burst()];
    let links = [load.highs(), load.lows()];
    Some((times, bursts, links))
}

#[test]
fn sums_of_a_mixed_port_and_of_one_without_links(rt: HostRuntime) -> Result<(), Fail> {
    let table = table_of(rt.alloc(), 100, &[SMALL, LOW, HIGH])?;
    for (port, want) in [
        (1, ([0, 0, 0, 0], [0, 0], [0, 0])),
        (
            2,
            (
                [666_624_000, 326_430_720, 123_040, 123_040],
                [666_624_000_000_000, 326_430_720_000_000],
                [1, 2],
            ),
        ),
    ] {
        assert_eq!(rt; sums(&table, port), Some(want), "port {port}");
    }
    Ok(())
}

/// Returns the text of a table with two ports that are too small and too hasty, the higher one first, and a link to both.
fn small_ports(alloc: Global) -> Result<String, AllocError> {
    let small = Port {
        buffer: 0,
        max_delay_us: 1,
        ..port(2)
    };
    let wide = Link {
        to: "[3, 2]",
        ..link(10, 1, "[2]")
    };
    table(alloc, &[Port { id: 3, ..small }, small, port(1)], &[wide])
}

/// Returns the fault of a table that is refused, and how many ports and links the table has that comes back.
fn refused(table: Table) -> Option<(LoadFault, usize, usize)> {
    // example of afdx_load
    match check(table) {
        Ok(_) => None,
        Err((table, fault)) => Some((fault, table.ports().len(), table.link_count())),
    }
    // end of example
}

/// Checks that the lowest port is named, whatever the order of the text, and that the table comes back.
#[test]
fn first_fault_stands(rt: HostRuntime) -> Result<(), Fail> {
    let text = small_ports(rt.alloc())?;
    let table = read(rt.alloc(), text.as_bytes())?;
    let want = LoadFault {
        port: 2,
        rule: Rule::Buffer,
        need: 578_416_640_000_000,
        limit: 0,
    };
    assert_eq!(rt; refused(table), Some((want, 3, 1)));
    Ok(())
}

/// Checks that the message of a fault begins with the name of its rule.
#[test]
fn messages(rt: HostRuntime) -> Result<(), Fail> {
    for (rule, message) in [
        (Rule::Rate, "Rate, port 2, need 9, limit 8"),
        (Rule::Buffer, "Buffer, port 2, need 9, limit 8"),
        (Rule::HighDelay, "HighDelay, port 2, need 9, limit 8"),
        (Rule::LowDelay, "LowDelay, port 2, need 9, limit 8"),
    ] {
        let fault = LoadFault {
            port: 2,
            rule,
            need: 9,
            limit: 8,
        };
        let printed = format!(in rt.alloc(); "{fault}")?;
        assert_eq!(rt; printed.as_str(), message);
    }
    Ok(())
}
