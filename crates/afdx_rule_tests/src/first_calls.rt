//! Calls of crates that have no other test by their calls, each made once; the front page of its crate quotes it.

use afdx_csv::{Field, put_heading, put_row};
use afdx_earliest::{Dues, Instants, take_first};
use afdx_jitter::{hop, need};
use afdx_lines::put_line;
use afdx_past::History;
use afdx_recordings::{Offsets, Outputs};
use afdx_remedies::entry_of;
use afdx_spells::{Excess, Spells};
use afdx_units::{Speed, Stamp};
use std::test::Fail;

/// Checks that the one at the lower place is the first of two equal instants.
#[test]
fn first_of_three_places(rt: HostRuntime) {
    // example of afdx_earliest
    let mut instants = Instants::new(3);
    let none = instants.first();
    instants.set(1, Some(Stamp::ZERO));
    instants.set(2, Some(Stamp::ZERO));
    let first = instants.first();
    instants.set(1, None);
    let next = instants.first();
    assert_eq!(rt;
        (none, first, next),
        (None, Some((1, Stamp::ZERO)), Some((2, Stamp::ZERO)))
    );
    // end of example
}

/// Checks that what is due at an instant is not due before it, and that a place that is taken out is marked no longer.
#[test]
fn due_before_an_instant(rt: HostRuntime) {
    // example of afdx_earliest
    let mut dues = Dues::new(3);
    dues.set(0, Some(Stamp::from_ns_saturating(20)));
    dues.set(2, Some(Stamp::from_ns_saturating(10)));
    let mut due = dues.before(20);
    let first = take_first(&mut due);
    let then = take_first(&mut due);
    assert_eq!(rt; (first, then, dues.before(21)), (Some(2), None, 5));
    // end of example
    dues.set(2, None);
    assert_eq!(rt; dues.first(), Some((0, Stamp::from_ns_saturating(20))));
}

/// Checks that the next switch needs 13,440 ns of jitter, 14 whole microseconds, since the least frame takes 6,720 ns.
#[test]
fn jitter_after_a_port(rt: HostRuntime) {
    // example of afdx_jitter
    let first = hop(Speed::Hundred, 0, 20_160, 0);
    let jitter = need(first, 0);
    assert_eq!(rt; (first.least, jitter), (6_720, 14));
    // end of example
}

/// Checks that a frame that comes a gap after another is of the same spell, and that one that comes a nanosecond later is not.
#[test]
fn two_spells(rt: HostRuntime) -> Result<(), Fail> {
    let mut counts = Vec::new(rt.alloc());
    // example of afdx_spells
    let mut spells = Spells::new(rt.alloc(), 1_000_000);
    for ns in [0, 1_000_000, 2_000_001] {
        let at = Stamp::from_ns(ns).ok_or("an instant")?;
        spells.note(&Excess { at, early: 500 })?;
    }
    for spell in spells.as_slice() {
        counts.push(spell.count)?;
    }
    assert!(rt; counts.as_slice() == [2, 1].as_slice());
    // end of example
    Ok(())
}

/// Checks that a number that is missing is written as a dash.
#[test]
fn words_with_numbers(rt: HostRuntime) -> Result<(), Fail> {
    // example of afdx_lines
    let mut line = String::new(rt.alloc());
    put_line(&mut line, &[("out ", Some(2)), (" peak ", None)])?;
    assert_eq!(rt; line.as_str(), "out 2 peak -\n");
    // end of example
    Ok(())
}

/// Checks that the second item has the place that it had once the first is let go.
#[test]
fn first_item_let_go(rt: HostRuntime) -> Result<(), Fail> {
    // example of afdx_past
    let mut history = History::new(rt.alloc());
    history.reserve(2)?;
    history.push(7u64);
    history.push(8u64);
    history.let_go(1);
    let second = history.get(1);
    assert_eq!(rt; (history.len(), second), (2, Some(8)));
    // end of example
    Ok(())
}

#[test]
fn ports_of_recordings(rt: HostRuntime) -> Result<(), Fail> {
    // example of afdx_recordings
    let offsets = Offsets::of_text("2=-150,5=40").ok_or("offsets")?;
    let outputs = Outputs::of_text("2,5").ok_or("ports")?;
    let second = (offsets.at(2), outputs.has(2));
    let third = (offsets.at(3), outputs.has(3));
    assert_eq!(rt; (second, third), ((-150, true), (0, false)));
    // end of example
    Ok(())
}

/// Checks how the entry of `usage` begins, and that `C0` has none. The whole texts are those of the page, of which this is the first.
#[test]
fn entry_of_usage(rt: HostRuntime) -> Result<(), Fail> {
    // example of afdx_remedies
    let entry = entry_of("usage").ok_or("an entry")?;
    let other = entry_of("C0");
    assert!(rt; entry.starts_with("usage: the arguments") && other.is_none());
    // end of example
    Ok(())
}

/// Checks that a column is empty if a row has no field for it.
#[test]
fn a_heading_and_a_row(rt: HostRuntime) -> Result<(), Fail> {
    let mut text = String::new(rt.alloc());
    // example of afdx_csv
    let columns = ["kind", "link", "most_ns"];
    let most = Field::Number(Some(319_918));
    put_heading(&mut text, &columns)?;
    put_row(
        &mut text,
        &columns,
        &[("kind", Field::Word("way")), ("most_ns", most)],
    )?;
    assert_eq!(rt; text.as_str(), "kind,link,most_ns\nway,,319918\n");
    // end of example
    Ok(())
}
