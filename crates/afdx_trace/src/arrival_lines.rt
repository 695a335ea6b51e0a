//! The arrivals.

ghost use Rattle.std.specs.Prelude.{◌≡◌, string_bytes, IfOk};
ghost use Rattle.afdx_trace.specs.Arrivals.{arrivals_text};

use crate::shown::{Selection, Shown};
use crate::tracer::Tracer;
use afdx_core::Done;
use std::alloc::{AllocError, Allocator};

/// The names of the fields.
pub(crate) const HEADING: &str = "frame,port,record,stamp,link,size,fate,early,full\n";

/// Writes a heading, and then a line for each arrival that is selected, in the order in which the switch took them.
///
/// An error says that memory ran out. O(links + arrivals); each arrival takes as many steps as links are selected. Each port of the table
/// that sent or discarded a copy takes a byte for each arrival.
pub fn arrivals<A: Allocator + Copy, B: Allocator + Copy>(
    alloc: A,
    done: &Done<'_, B>,
    selection: &Selection<'_>,
) -> Result<String<A>, AllocError>
    ensures { IfOk result (λ text. string_bytes text ≡ arrivals_text selection.now done.now.run) }
{
    let rows = done.rows();
    let shown = Shown::of(selection, rows);
    let mut tracer = Tracer::new(alloc, done)?;
    let mut text = String::new(alloc);
    text.push_str(HEADING)?;
    for (number, row) in rows.iter().enumerate() {
        tracer.trace(&mut text, done, &shown, &rows[..number], row)?;
    }
    Ok(text)
}
