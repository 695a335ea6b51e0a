//! What is reported of an accepted network.

ghost use Rattle.std.specs.Prelude.{◌≡◌, ◌++◌, codes, map, flat_map, option_copied, string_bytes, IfOk, OnOk};
ghost use Rattle.afdx_wiring.specs.Lines.{as_line};
ghost use Rattle.afdx_network_report.specs.Lines.{last_end, numbers_text, way_text, lost_text, premise_text, longest, greatest_of, greatest_text, accepted_text};

use crate::ends::{put_end, put_ends};
use afdx_network_check::Way;
use afdx_wiring::End;
use std::alloc::{AllocError, Global};

/// Appends numbers, with a space before each.
fn put_numbers(text: &mut String, numbers: &[u64]) -> Result<(), AllocError>
    ensures { OnOk result (string_bytes text.new ≡ string_bytes text.old ++ numbers_text numbers.now) }
{
    for number in numbers {
        write!(text, " {number}")?;
    }
    Ok(())
}

/// Returns the port at which a way leads out of the network.
pub(crate) fn last_end(way: &Way) -> End
    ensures { result ≡ last_end way.now }
{
    match way.ports.last() {
        Some(end) => *end,
        None => way.from,
    }
}

/// Appends the line of a way.
fn put_way(text: &mut String, names: &[String], way: &Way) -> Result<(), AllocError>
    ensures { OnOk result (string_bytes text.new ≡ string_bytes text.old ++ as_line (way_text (map string_bytes names.now) way.now)) }
{
    write!(text, "link {} from ", way.link)?;
    put_end(text, names, way.from)?;
    text.push_str(" to ")?;
    put_end(text, names, last_end(way))?;
    text.push_str(" ways")?;
    put_ends(text, names, &way.ports)?;
    write!(text, " least {}", way.delays.least)?;
    write!(text, " most {} jitter", way.delays.most)?;
    put_numbers(text, &way.jitters)?;
    text.push_str("\n")
}

/// Appends the lines of ways.
fn put_ways(text: &mut String, names: &[String], ways: &[Way]) -> Result<(), AllocError>
    ensures { OnOk result (string_bytes text.new
        ≡ string_bytes text.old ++ flat_map (λ w. as_line (way_text (map string_bytes names.now) w)) ways.now) }
{
    for way in ways {
        put_way(text, names, way)?;
    }
    Ok(())
}

/// Appends the line of a way over which nothing comes.
fn put_lost(text: &mut String, names: &[String], way: &Way) -> Result<(), AllocError>
    ensures { OnOk result (string_bytes text.new ≡ string_bytes text.old ++ as_line (lost_text (map string_bytes names.now) way.now)) }
{
    write!(text, "link {} to ", way.link)?;
    put_end(text, names, last_end(way))?;
    text.push_str(" none\n")
}

/// Appends the lines of ways over which nothing comes.
fn put_all_lost(text: &mut String, names: &[String], ways: &[Way]) -> Result<(), AllocError>
    ensures { OnOk result (string_bytes text.new
        ≡ string_bytes text.old ++ flat_map (λ w. as_line (lost_text (map string_bytes names.now) w)) ways.now) }
{
    for way in ways {
        put_lost(text, names, way)?;
    }
    Ok(())
}

/// Appends a line for each switch.
fn put_switches(text: &mut String, names: &[String]) -> Result<(), AllocError>
    ensures { OnOk result (string_bytes text.new
        ≡ string_bytes text.old ++ flat_map (λ name. as_line (codes "switch " ++ name ++ codes " accepted")) (map string_bytes names.now)) }
{
    for name in names {
        text.push_str("switch ")?;
        text.push_str(name)?;
        text.push_str(" accepted\n")?;
    }
    Ok(())
}

/// Appends the line of what is said of end systems, if anything is.
fn put_premise(text: &mut String, one_line: bool) -> Result<(), AllocError>
    ensures { OnOk result (string_bytes text.new ≡ string_bytes text.old ++ premise_text one_line) }
{
    if one_line {
        text.push_str("premise one_line\n")?;
    }
    Ok(())
}

/// Returns the most that any of the ways may take.
fn longest(ways: &[Way]) -> u64
    ensures { result ≡ longest ways.now }
{
    let mut most = 0;
    for way in ways {
        most = most.max(way.delays.most);
    }
    most
}

/// Finds the first of the ways that may take as long as any, if there is one.
fn greatest_of(ways: &[Way]) -> Option<&Way>
    ensures { option_copied result ≡ greatest_of ways.now }
{
    let most = longest(ways);
    ways.iter().find(|way| way.delays.most == most)
}

/// Appends the line of the greatest way.
fn put_greatest(text: &mut String, names: &[String], way: &Way) -> Result<(), AllocError>
    ensures { OnOk result (string_bytes text.new ≡ string_bytes text.old ++ as_line (greatest_text (map string_bytes names.now) way.now)) }
{
    write!(text, "greatest {}", way.delays.most)?;
    write!(text, " link {} to ", way.link)?;
    put_end(text, names, last_end(way))?;
    text.push_str("\n")
}

/// Writes what is reported of an accepted network, with switches of these names and with these ways. There is a line for each switch; one if
/// the network rests on the premise that end systems have one line each; one for each way; one for each way over which nothing comes; one for
/// the first of the other ways that may take as long as any of them, if there is one; and one that says that the network is accepted.
///
/// An error says that memory ran out. O(text).
pub fn accepted_text(
    alloc: Global,
    names: &[String],
    one_line: bool,
    ways: &[Way],
    lost: &[Way],
) -> Result<String, AllocError>
    ensures { IfOk result (λ text. string_bytes text ≡ accepted_text (map string_bytes names.now) one_line ways.now lost.now) }
{
    let mut text = String::new(alloc);
    put_switches(&mut text, names)?;
    put_premise(&mut text, one_line)?;
    put_ways(&mut text, names, ways)?;
    put_all_lost(&mut text, names, lost)?;
    if let Some(way) = greatest_of(ways) {
        put_greatest(&mut text, names, way)?;
    }
    text.push_str("accepted\n")?;
    Ok(text)
}
