//! The report as text.

ghost use Rattle.std.specs.Prelude.{◌≡◌, ◌++◌, map, flat_map, string_bytes, decimal, OnOk};
ghost use Rattle.afdx_count.specs.Report.{line, in_line, link_line, class_line, out_lines};

use crate::counters::OutCount;
use crate::links::LinkTally;
use crate::ports::PortTally;
use std::alloc::{AllocError, Allocator};

/// Appends a word and its number.
fn put_part<A: Allocator + Copy>(
    text: &mut String<A>,
    word: &str,
    number: u64,
) -> Result<(), AllocError>
    ensures { OnOk result (string_bytes text.new ≡ string_bytes text.old ++ (word.now ++ decimal number)) }
{
    text.push_str(word)?;
    write!(text, "{number}")
}

/// Appends words with their numbers, and a line feed.
fn put_line<A: Allocator + Copy>(
    text: &mut String<A>,
    parts: &[(&str, u64)],
) -> Result<(), AllocError>
    ensures { OnOk result (string_bytes text.new ≡ string_bytes text.old ++ line (map (λ p. (p.0.now, p.1)) parts.now)) }
{
    for (word, number) in parts {
        put_part(text, word, *number)?;
    }
    text.push_str("\n")
}

/// Appends the line of the arrivals at a port.
fn put_input<A: Allocator + Copy>(text: &mut String<A>, port: &PortTally) -> Result<(), AllocError>
    ensures { OnOk result (string_bytes text.new ≡ string_bytes text.old ++ in_line port.now) }
{
    let count = port.input;
    put_line(
        text,
        &[
            ("in ", u64::from(port.id)),
            (" seen ", count.seen),
            (" cut ", count.cut),
            (" short ", count.short),
            (" long ", count.long),
            (" foreign ", count.foreign),
            (" no-link ", count.no_link),
            (" wrong-port ", count.wrong_port),
            (" too-big ", count.too_big),
            (" clean ", count.clean),
        ],
    )
}

/// Appends the line of the clean frames of a link.
fn put_link<A: Allocator + Copy>(text: &mut String<A>, link: &LinkTally) -> Result<(), AllocError>
    ensures { OnOk result (string_bytes text.new ≡ string_bytes text.old ++ link_line link.now) }
{
    put_line(
        text,
        &[
            ("link ", u64::from(link.id)),
            (" passed ", link.count.passed),
            (" policed ", link.count.policed),
        ],
    )
}

/// Appends the line of the copies of a priority at a port.
#[tactic(auto, unfolding(crate::specs::Report::class_line))]
fn put_class<A: Allocator + Copy>(
    text: &mut String<A>,
    class: &str,
    id: u8,
    count: OutCount,
) -> Result<(), AllocError>
    ensures { OnOk result (string_bytes text.new ≡ string_bytes text.old ++ class_line class.now id count) }
{
    put_line(
        text,
        &[
            ("out ", u64::from(id)),
            (class, count.offered),
            (" full ", count.full),
            (" aged ", count.aged),
            (" sent ", count.sent),
        ],
    )
}

/// Appends the lines of the copies at a port: of the high ones, then of the low ones.
fn put_output<A: Allocator + Copy>(text: &mut String<A>, port: &PortTally) -> Result<(), AllocError>
    ensures { OnOk result (string_bytes text.new ≡ string_bytes text.old ++ out_lines port.now) }
{
    put_class(text, " high offered ", port.id, port.high)?;
    put_class(text, " low offered ", port.id, port.low)?;
    Ok(())
}

/// Appends the line of the arrivals at each port.
pub(crate) fn put_inputs<A: Allocator + Copy>(
    text: &mut String<A>,
    ports: &[PortTally],
) -> Result<(), AllocError>
    ensures { OnOk result (string_bytes text.new ≡ string_bytes text.old ++ flat_map in_line ports.now) }
{
    for port in ports {
        put_input(text, port)?;
    }
    Ok(())
}

/// Appends the line of the clean frames of each link.
pub(crate) fn put_links<A: Allocator + Copy>(
    text: &mut String<A>,
    links: &[LinkTally],
) -> Result<(), AllocError>
    ensures { OnOk result (string_bytes text.new ≡ string_bytes text.old ++ flat_map link_line links.now) }
{
    for link in links {
        put_link(text, link)?;
    }
    Ok(())
}

/// Appends the lines of the copies at each port.
pub(crate) fn put_outputs<A: Allocator + Copy>(
    text: &mut String<A>,
    ports: &[PortTally],
) -> Result<(), AllocError>
    ensures { OnOk result (string_bytes text.new ≡ string_bytes text.old ++ flat_map out_lines ports.now) }
{
    for port in ports {
        put_output(text, port)?;
    }
    Ok(())
}
