//! Lesser bursts, each reckoned by hand.

use afdx_grouping::{first_scattered_fault, lesser_bursts};
use afdx_load::{LoadFault, Rule, check};
use afdx_samples::{FRAMED, HIGH, LOW, Link, Port, later, port, table};
use afdx_table::{PORT_PLACES, Table, read};
use std::alloc::Global;
use std::test::Fail;

/// One more low link.
const OTHER: Link = Link { id: 11, ..LOW };

/// One from port 3.
const THIRD: Link = Link { from: 3, ..OTHER };

/// A high one from port 3.
const THIRD_HIGH: Link = Link { from: 3, ..HIGH };

/// Makes the table of port 1, whose line is of so many Mbit/s, and of ports 2 and 3 at 100 Mbit/s, with these links.
fn table_of(alloc: Global, mbit: u32, links: &[Link]) -> Result<Table, Fail> {
    let first = Port { mbit, ..port(1) };
    let rows = table(alloc, &[first, port(2), port(3)], links)?;
    let table = if mbit > 100 {
        read(alloc, later(alloc, &rows, 50)?.as_bytes())?
    } else {
        read(alloc, rows.as_bytes())?
    };
    Ok(table)
}

/// Frames come one after the other, by exact stamps.
const EXACT: Option<u16> = Some(0);

/// Frames come one after the other, by stamps of whole microseconds.
const ROUNDED: Option<u16> = Some(999);

/// Returns the bursts of port 2 for what is known of the lines of ports 1 and 3 and for latencies that differ by so many
/// nanoseconds. Returns none past 100,000.
fn bursts(
    table: &Table,
    first: Option<u16>,
    third: Option<u16>,
    scatter: u64,
) -> Option<(u128, u128)> {
    if scatter > 100_000 {
        return None;
    }
    // example of afdx_grouping
    let mut roundings = [None; PORT_PLACES];
    roundings[1] = first;
    roundings[3] = third;
    let row = table.port(2)?;
    let bursts = lesser_bursts(table, &roundings, scatter, row);
    Some((bursts.all, bursts.high))
    // end of example
}

/// Mbit/s of port 1, links, what is known of the lines of ports 1 and 3, and the two bursts.
const WORKED: &[(u32, &[Link], [Option<u16>; 2], (u128, u128))] = &[
    // no line is known: twice 326,430,720,000,000
    (100, &[LOW, OTHER], [None, EXACT], (652_861_440_000_000, 0)),
    // one line as fast as the port's brings no more than its first frame, 123,040 * 2,048,000,000
    (100, &[LOW, OTHER], [EXACT, None], (251_985_920_000_000, 0)),
    // so does one of 10 Mbit/s: its frame takes 1,230,400 ns there, each worth 204,800,000 parts here
    (10, &[LOW, OTHER], [EXACT, None], (251_985_920_000_000, 0)),
    // one of 1000 Mbit/s brings 20,480,000,000 parts in a nanosecond for 20,218 ns; then both accounts give
    // 652,861,440 in each: at 20,219 ns 652,861,440,000,000 - 20,219 * 1,395,138,560
    (1000, &[LOW, OTHER], [EXACT, None], (624_653_133_455_360, 0)),
    // two lines bring two frames, and gain until 43,242 ns; at 43,243 ns 652,861,440,000,000 - 43,243 * 1,395,138,560
    (100, &[LOW, THIRD], [EXACT, EXACT], (592_531_463_249_920, 0)),
    // beside the first frame of all the burst of the high link is counted: 326,430,720,000,000
    (
        100,
        &[LOW, HIGH],
        [EXACT, None],
        (578_416_640_000_000, 251_985_920_000_000),
    ),
    // by bytes and by frames over the line for 222,124 ns, the high link beside it at once:
    // 251,985,920,000,000 + 326,430,720,000,000 + 222,124 * 326,430,720
    (
        100,
        &[LOW, FRAMED, THIRD_HIGH],
        [EXACT, None],
        (650_924_737_249_280, 326_430_720_000_000),
    ),
    // no link, no burst
    (100, &[], [EXACT, EXACT], (0, 0)),
    // if stamps may lack 999 ns, the first frame has come so much sooner: 124,039 * 2,048,000,000
    (
        100,
        &[LOW, OTHER],
        [ROUNDED, None],
        (254_031_872_000_000, 0),
    ),
    // 1,231,399 * 204,800,000
    (10, &[LOW, OTHER], [ROUNDED, None], (252_190_515_200_000, 0)),
    // until 19,186 ns; at 19,187 ns 652,861,440,000,000 - 19,187 * 1,395,138,560
    (
        1000,
        &[LOW, OTHER],
        [ROUNDED, None],
        (626_092_916_449_280, 0),
    ),
    // both bursts have them
    (
        100,
        &[LOW, HIGH],
        [ROUNDED, None],
        (580_462_592_000_000, 254_031_872_000_000),
    ),
];

#[test]
fn worked_bursts(rt: HostRuntime) -> Result<(), Fail> {
    for (mbit, links, known, want) in WORKED {
        let table = table_of(rt.alloc(), *mbit, links)?;
        assert_eq!(rt;
            bursts(&table, known[0], known[1], 0),
            Some(*want),
            "{}",
            want.0
        );
    }
    Ok(())
}

/// Nanoseconds by which latencies differ, links, what is known of the lines of ports 1 and 3, and the two bursts.
const SCATTERED: &[(u64, &[Link], [Option<u16>; 2], (u128, u128))] = &[
    // the links ask for twice 326,430,720 * 1,100,000
    (
        100_000,
        &[LOW, OTHER],
        [None, None],
        (718_147_584_000_000, 0),
    ),
    // the line brings its first frame and 50,000 ns, 173,040 * 2,048,000,000
    (
        50_000,
        &[LOW, OTHER],
        [EXACT, None],
        (354_385_920_000_000, 0),
    ),
    // beside it the burst of the high link, 326,430,720,000,000; that alone asks for 326,430,720 * 1,050,000
    (
        50_000,
        &[LOW, HIGH],
        [EXACT, None],
        (680_816_640_000_000, 342_752_256_000_000),
    ),
];

#[test]
fn scattered_bursts(rt: HostRuntime) -> Result<(), Fail> {
    for (scatter, links, known, want) in SCATTERED {
        let table = table_of(rt.alloc(), 100, links)?;
        assert_eq!(rt;
            bursts(&table, known[0], known[1], *scatter),
            Some(*want),
            "{}",
            want.0
        );
    }
    Ok(())
}

/// Checks the first fault of a table whose port 2 discards frames after a millisecond. Six links of 1518 bytes wait for 956,340
/// ns there, and for a tenth more if latencies differ by 100,000 ns.
#[test]
fn scattered_faults(rt: HostRuntime) -> Result<(), Fail> {
    let late = Port {
        max_delay_us: 1000,
        ..port(2)
    };
    let mut links = [LOW; 6];
    for number in 0..6 {
        links[number].id = 10 + number as u16;
    }
    let rows = table(rt.alloc(), &[port(1), late, port(3)], &links)?;
    let table = read(rt.alloc(), rows.as_bytes())?;
    let fault = LoadFault {
        port: 2,
        rule: Rule::LowDelay,
        need: 1_051_974,
        limit: 1_000_000,
    };
    assert_eq!(rt; first_scattered_fault(&table, 0), None);
    assert_eq!(rt; first_scattered_fault(&table, 45_000), None);
    assert_eq!(rt; first_scattered_fault(&table, 100_000), Some(fault));
    assert!(rt; check(table).is_ok());
    Ok(())
}
