//! Which lines of a trace are written, and from when its stamps count.

ghost use Rattle.std.specs.Prelude.{◌≡◌, ◌-◌, List};
ghost use Rattle.afdx_core.specs.declared.step.Row.{Row as Arrived};
ghost use Rattle.afdx_trace.specs.Shown.{is_shown, first_stamp, shown_of};

use afdx_core::Row;
use afdx_units::Stamp;

/// Which lines of a run's trace are written, and from when its stamps count.
#[derive(Clone, Copy, Debug)]
pub struct Selection<'a> {
    /// The links whose lines are written; if it is empty, those of all frames.
    pub links: &'a [u16],
    /// Whether stamps count from that of the first frame that came.
    pub relative: bool,
}

/// A selection over the arrivals of a run.
#[derive(Clone, Copy, Debug)]
pub(crate) struct Shown<'a> {
    links: &'a [u16],
    /// The stamp that counts as 0, in nanoseconds.
    origin: u64,
}

impl<'a> Shown<'a> {
    /// Returns what a selection shows of these arrivals. O(1).
    pub(crate) fn of(selection: &Selection<'a>, rows: &[Row]) -> Shown<'a>
        ensures { result ≡ shown_of selection.now rows.now }
    {
        let origin = match rows.first() {
            Some(row) if selection.relative => row.stamp.ns(),
            _ => 0,
        };
        Shown {
            links: selection.links,
            origin,
        }
    }

    /// Returns what a selection shows of arrivals, the first of which came at this stamp. O(1).
    pub(crate) fn starting_at(selection: &Selection<'a>, first: Stamp) -> Shown<'a>
        ensures { (rows : List Arrived) → first_stamp rows ≡ first → result ≡ shown_of selection.now rows }
    {
        Shown {
            links: selection.links,
            origin: if selection.relative { first.ns() } else { 0 },
        }
    }

    /// Returns whether the lines of a frame with this link are written. O(links that were selected).
    pub(crate) fn has(&self, link: Option<u16>) -> bool
        ensures { result ≡ is_shown self.now link }
    {
        match link {
            Some(number) => self.links.is_empty() || self.links.contains(&number),
            None => self.links.is_empty(),
        }
    }

    /// Returns an instant as it is written: in nanoseconds after the stamp that counts as 0.
    pub(crate) fn since(&self, nanos: u64) -> u64
        ensures { result ≡ nanos - self.now.origin }
    {
        nanos.saturating_sub(self.origin)
    }
}
