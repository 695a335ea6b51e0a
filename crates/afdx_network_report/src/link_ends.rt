//! What is reported of the delays of links from end to end.

ghost use Rattle.std.specs.Prelude.{◌≡◌, ◌++◌, map, string_bytes, OnOk};
ghost use Rattle.afdx_wiring.specs.Lines.{as_line};
ghost use Rattle.afdx_network_report.specs.LinkEnds.{number_text, delays_text, bounds_text, link_end_of, link_end_text, come_in_text};

use crate::accepted::last_end;
use crate::ends::put_end;
use afdx_jitter::Delays as Bounds;
use afdx_measure::Delays;
use afdx_network_check::Way;
use afdx_wiring::End;
use std::alloc::AllocError;

/// A link and a port at which it leads out of a network.
#[derive(Clone, Copy, Debug, PartialEq, Eq)]
pub struct LinkEnd {
    /// The number of the link.
    pub link: u16,
    /// The port at which its frames come in to the network; none if there is no such port.
    pub from: Option<End>,
    /// The port at which it leads out.
    pub to: End,
    /// What a frame may take from the one to the other, in nanoseconds, if that is promised.
    pub bounds: Option<Bounds>,
}

impl LinkEnd {
    /// Makes the end of a way. O(1).
    pub fn of_way(way: &Way) -> LinkEnd
        ensures { result ≡ link_end_of way.now }
    {
        LinkEnd {
            link: way.link,
            from: Some(way.from),
            to: last_end(way),
            bounds: Some(way.delays),
        }
    }
}

/// Appends what comes before a number, and the number, or `-` if there is none.
fn put_number(text: &mut String, before: &str, number: Option<u64>) -> Result<(), AllocError>
    ensures { OnOk result (string_bytes text.new ≡ string_bytes text.old ++ before.now ++ number_text number) }
{
    text.push_str(before)?;
    match number {
        Some(number) => write!(text, "{number}"),
        None => text.push_str("-"),
    }
}

/// Appends the port at which a link comes in, or `-` if there is none.
fn put_from(text: &mut String, names: &[String], from: Option<End>) -> Result<(), AllocError>
    ensures { OnOk result (string_bytes text.new ≡ string_bytes text.old ++ come_in_text (map string_bytes names.now) from) }
{
    match from {
        Some(from) => put_end(text, names, from),
        None => text.push_str("-"),
    }
}

/// Appends the least and the greatest of some delays.
fn put_delays(text: &mut String, delays: &Delays) -> Result<(), AllocError>
    ensures { OnOk result (string_bytes text.new ≡ string_bytes text.old ++ delays_text delays.now) }
{
    put_number(text, " least ", delays.least())?;
    put_number(text, " greatest ", delays.greatest())
}

/// Appends what is promised of delays.
fn put_bounds(text: &mut String, bounds: Option<Bounds>) -> Result<(), AllocError>
    ensures { OnOk result (string_bytes text.new ≡ string_bytes text.old ++ bounds_text bounds) }
{
    let (least, most) = match bounds {
        Some(bounds) => (Some(bounds.least), Some(bounds.most)),
        None => (None, None),
    };
    put_number(text, " bound ", least)?;
    put_number(text, " to ", most)
}

/// Appends the line of a link at a port at which it leads out of the network: where its frames come in, how many left, and what they took
/// beside what they may take.
///
/// An error says that memory ran out; the text is then of no use. O(line).
pub fn put_link_end(
    text: &mut String,
    names: &[String],
    end: &LinkEnd,
    delays: &Delays,
) -> Result<(), AllocError>
    ensures { OnOk result (string_bytes text.new ≡ string_bytes text.old ++ as_line (link_end_text (map string_bytes names.now) end.now delays.now)) }
{
    write!(text, "link {} from ", end.link)?;
    put_from(text, names, end.from)?;
    text.push_str(" to ")?;
    put_end(text, names, end.to)?;
    write!(text, " sent {}", delays.count)?;
    put_delays(text, delays)?;
    put_bounds(text, end.bounds)?;
    text.push_str("\n")
}
