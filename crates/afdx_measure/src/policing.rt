//! When links were policed, and when frames came at all.

ghost use Rattle.std.specs.Prelude.{◌≡◌, ◌-◌, ◌<◌, ◌≤◌, ◌++◌, [], length, flat_map, slice_get, Some, None, string_bytes, IfOk, OnOk};
ghost use Rattle.afdx_table.specs.Link.{Link};
ghost use Rattle.afdx_table.specs.WellFormed.{IsWellFormed};
ghost use Rattle.afdx_spells.specs.Lines.{spell_line};
ghost use Rattle.afdx_core.specs.declared.step.Row.{Row as Arrived};
ghost use Rattle.afdx_core.specs.State.{Run, fresh_run};
ghost use Rattle.afdx_measure.specs.Policing.{spells_in, spell_lines, span_line, stamp_at};
ghost use Rattle.afdx_measure.specs.Inner.Arriving.{HasArrived};
ghost use Rattle.afdx_measure.specs.Inner.Policed.{HaveSpells, IsPoliced, IsNotedAt, EndsAre, with_arrival};

use afdx_core::laws::{policed_come_early, verdicts_name_links};
use afdx_core::{Fate, Relay, Step};
use afdx_spells::{Excess, Spell, Spells, put_spell_line};
use afdx_table::Table;
use afdx_table::laws::{links_are_at_their_places, links_are_found};
use afdx_units::Stamp;
use std::alloc::{AllocError, Allocator};

/// How many frames came, and the stamps of the first and of the last; no stamps if none came.
#[derive(Clone, Copy, Debug, PartialEq, Eq)]
pub(crate) struct Span {
    count: usize,
    ends: Option<(Stamp, Stamp)>,
}

impl Span {
    /// Returns how many frames came.
    pub(crate) fn count(self) -> usize
        ensures { result ≡ self.count }
    {
        self.count
    }

    /// Returns the stamp of the first, if one came.
    pub(crate) fn first(self) -> Option<Stamp>
        ensures { (r : Run) → EndsAre self.ends r → result ≡ stamp_at 0 r.rows }
    {
        match self.ends {
            Some((first, _)) => Some(first),
            None => None,
        }
    }

    /// Returns the stamp of the last, if one came.
    pub(crate) fn last(self) -> Option<Stamp>
        ensures { (r : Run) → EndsAre self.ends r → result ≡ stamp_at (length r.rows - 1) r.rows }
    {
        match self.ends {
            Some((_, last)) => Some(last),
            None => None,
        }
    }

    /// Adds a frame, which came after so many others.
    ///
    /// An error says that there would be more than 2^64 - 1.
    fn with(self, number: usize, at: Stamp) -> Result<Span, AllocError>
        ensures { IfOk result (λ span. span ≡ with_arrival number at self) }
    {
        let Some(count) = number.checked_add(1) else {
            return Err(AllocError);
        };
        let first = match self.ends {
            Some((first, _)) => first,
            None => at,
        };
        Ok(Span {
            count,
            ends: Some((first, at)),
        })
    }
}

/// When the links of a table were policed, and when frames came.
#[derive(Drop)]
pub(crate) struct Policing<A: Allocator> {
    /// By the places of the links in the table.
    spells: Vec<Spells<A>, A>,
    span: Span,
}

/// Makes a list of no spells for each link of a table, in its order.
fn fresh_spells<A: Allocator + Copy>(
    alloc: A,
    table: &Table,
) -> Result<Vec<Spells<A>, A>, AllocError>
    ensures formed { IsWellFormed table.now }
    ensures spells { IfOk result (λ all. HaveSpells (fresh_run table.now) all.items) }
{
    let mut all = Vec::new(alloc);
    for place in 0..table.link_count() {
        let link = table.link_at(place).unwrap();
        all.push(Spells::new(alloc, link.bag.ns()))?;
    }
    Ok(all)
}

/// Notes a policed frame of the link at a place.
fn note_at<A: Allocator + Copy>(
    spells: &mut [Spells<A>],
    place: usize,
    frame: &Excess,
) -> Result<(), AllocError>
    ensures { OnOk result (IsNotedAt place frame.now spells.old spells.new) }
{
    if place < spells.len() {
        spells[place].note(frame)?;
    }
    Ok(())
}

impl<A: Allocator + Copy> Policing<A> {
    /// Makes what is noted of a run that has taken nothing.
    ///
    /// An error says that memory ran out. O(links).
    pub(crate) fn new(alloc: A, table: &Table) -> Result<Policing<A>, AllocError>
        ensures { IfOk result (IsPoliced (fresh_run table.now)) }
    {
        Ok(Policing {
            spells: fresh_spells(alloc, table)?,
            span: Span {
                count: 0,
                ends: None,
            },
        })
    }

    /// Notes an arrival of this size that the switch has just taken. O(1), beside what a list takes to move.
    pub(crate) fn note(
        &mut self,
        relay: &Relay<'_, A>,
        at: Stamp,
        size: u32,
        step: &Step,
    ) -> Result<(), AllocError>
        requires { relay.now.run.latest ≤ at }
        ensures { (r : Run) (row : Arrived) → IsPoliced r self.old → HasArrived r row at size step.now relay.now.run → OnOk result (IsPoliced relay.now.run self.new) }
    {
        links_are_found();
        links_are_at_their_places();
        verdicts_name_links();
        policed_come_early();
        self.span = self.span.with(step.number, at)?;
        match step.fate {
            Fate::Policed(link) => match relay.table().link_place(link) {
                Some(place) => {
                    let early = relay.early_by(place, at, size);
                    note_at(&mut self.spells, place, &Excess { at, early })
                }
                None => Ok(()),
            },
            Fate::Passed(_) | Fate::Filtered(_) => Ok(()),
        }
    }

    /// Returns how many frames came, and when.
    pub(crate) fn span(&self) -> Span
        ensures { result ≡ self.now.span }
    {
        self.span
    }

    /// Lends the spells of the link at a place; none if there is no such link.
    pub(crate) fn spells_at(&self, place: usize) -> &[Spell]
        ensures no_link { (r : Run) → IsPoliced r self.now → slice_get r.table.links place ≡ None → result.now ≡ [] }
        ensures there { (r : Run) (l : Link) → IsPoliced r self.now → slice_get r.table.links place ≡ Some l → result.now ≡ spells_in r l }
    {
        if place < self.spells.len() {
            self.spells[place].as_slice()
        } else {
            &[]
        }
    }

    /// Appends the lines of the spells of the link at a place, which has this number.
    fn put_lines_at<B: Allocator + Copy>(
        &self,
        text: &mut String<B>,
        place: usize,
        link: u16,
    ) -> Result<(), AllocError>
        ensures { (r : Run) (l : Link) → IsPoliced r self.now → slice_get r.table.links place ≡ Some l → l.id ≡ link
            → OnOk result (string_bytes text.new ≡ string_bytes text.old ++ spell_lines r l) }
    {
        put_spell_lines(text, link, self.spells_at(place))
    }

    /// Appends the lines of all spells, of each link in the table's order.
    pub(crate) fn put_lines<B: Allocator + Copy>(
        &self,
        text: &mut String<B>,
        table: &Table,
    ) -> Result<(), AllocError>
        ensures { (r : Run) → r.table ≡ table.now → IsPoliced r self.now
            → OnOk result (string_bytes text.new ≡ string_bytes text.old ++ flat_map (spell_lines r) r.table.links) }
    {
        for place in 0..table.link_count() {
            self.put_lines_at(text, place, table.link_at(place).unwrap().id)?;
        }
        Ok(())
    }
}

/// Appends the lines of the spells of a link.
fn put_spell_lines<A: Allocator + Copy>(
    text: &mut String<A>,
    link: u16,
    spells: &[Spell],
) -> Result<(), AllocError>
    ensures { OnOk result (string_bytes text.new ≡ string_bytes text.old ++ flat_map (spell_line link) spells.now) }
{
    for spell in spells {
        put_spell_line(text, link, spell)?;
    }
    Ok(())
}

/// Appends the line of a span.
///
/// An error says that memory ran out; the text is then of no use. O(line).
pub(crate) fn put_span_line<A: Allocator + Copy>(
    text: &mut String<A>,
    span: Span,
) -> Result<(), AllocError>
    ensures { (r : Run) → span.count ≡ length r.rows → EndsAre span.ends r → OnOk result (string_bytes text.new ≡ string_bytes text.old ++ span_line r.rows) }
{
    match span.ends {
        Some((first, last)) => {
            write!(text, "span from {}", first.ns())?;
            write!(text, " to {}", last.ns())?;
        }
        None => text.push_str("span from - to -")?,
    }
    writeln!(text, " frames {}", span.count)
}
