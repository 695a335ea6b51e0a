//! The lines of arrivals, one after the other.

ghost use Rattle.std.specs.Prelude.{◌≡◌, ◌<◌, ◌∷◌, [], ◌++◌, codes, decimal, List, map, flat_map, length, string_bytes, IfOk, IfErr, OnOk, Some};
ghost use Rattle.afdx_filter.specs.Place.{place_named};
ghost use Rattle.afdx_core.specs.declared.step.Row.{Row as Arrived};
ghost use Rattle.afdx_core.specs.Kept.{AccountsAgree};
ghost use Rattle.afdx_trace.specs.Csv.{next_field, joined_by, optional};
ghost use Rattle.afdx_trace.specs.Arrivals.{verdict_word, record_in, frame_fields, fate_fields, shown_line};
ghost use Rattle.afdx_trace.specs.Inner.Taken.{AreTaken};
ghost use Rattle.afdx_trace.specs.Inner.Tracing.{AreCounted, IsPassed, IsPoliced, Traces};

use crate::fields::{put_number, put_optional, put_ports, put_word};
use crate::flags::{Flags, all_taken, refusing};
use crate::shown::Shown;
use afdx_account::{Account, early_by};
use afdx_core::laws::filtered_touch_no_account;
use afdx_core::{Done, Row, accounts_of, police};
use afdx_filter::Verdict;
use afdx_table::Table;
use afdx_table::laws::{links_are_at_their_places, links_are_found};
use std::alloc::{AllocError, Allocator};

/// Returns the word of a verdict.
pub(crate) fn verdict_word(verdict: Verdict) -> &'static str
    ensures { result.now ≡ verdict_word verdict }
{
    match verdict {
        Verdict::Cut => "cut",
        Verdict::Short => "short",
        Verdict::Long => "long",
        Verdict::Foreign => "foreign",
        Verdict::NoLink => "no-link",
        Verdict::WrongPort => "wrong-port",
        Verdict::TooBig => "too-big",
        Verdict::Clean(_) => "clean",
    }
}

/// Returns the place of a frame's link, if the frame is clean.
fn clean_place(table: &Table, verdict: Verdict) -> Option<usize>
    ensures { result ≡ place_named table.now verdict }
{
    match verdict {
        Verdict::Clean(id) => table.link_place(id),
        _ => None,
    }
}

/// Offers a frame to the account of its link, at this place. Returns the ports that it is then offered to if it is passed, else
/// the nanoseconds by which it came early.
fn offer<'t>(
    table: &'t Table,
    accounts: &mut [Account],
    place: usize,
    before: &[Row],
    row: &Row,
) -> Result<&'t [u8], u64>
    requires place { place_named table.now row.now.verdict ≡ Some place }
    requires agree { AccountsAgree table.now.links before.now row.now.stamp accounts.old }
    ensures passed { IfOk result (λ to. IsPassed table.now before.now row.now to.now) }
    ensures policed { IfErr result (λ early. IsPoliced table.now before.now row.now early) }
    ensures agree { AccountsAgree table.now.links (before.now ++ row.now ∷ []) row.now.stamp accounts.new }
{
    links_are_at_their_places();
    links_are_found();
    let link = table.link_at(place).unwrap();
    let early = early_by(&accounts[place], row.stamp, row.size);
    if police(accounts, place, row) {
        Ok(link.to.as_slice())
    } else {
        Err(early)
    }
}

/// Counts an arrival, and returns its number among the records of its port's capture, from 1.
fn count(records: &mut [usize; 256], before: &[Row], row: &Row) -> usize
    requires { AreCounted before.now records.old }
    ensures number { result ≡ record_in before.now row.now }
    ensures counted { AreCounted (before.now ++ row.now ∷ []) records.new }
{
    let records = &mut records[usize::from(row.in_port)];
    *records += 1;
    *records
}

/// Appends a field that is the number of a link, or empty if there is none.
fn put_link<A: Allocator + Copy>(text: &mut String<A>, link: Option<u16>) -> Result<(), AllocError>
    ensures { OnOk result (string_bytes text.new ≡ string_bytes text.old ++ next_field (optional link)) }
{
    match link {
        Some(number) => put_number(text, u64::from(number)),
        None => put_word(text, ""),
    }
}

/// Appends the fields of an arrival, up to its size. It has this number among all arrivals, and this place among the records of its
/// port's capture.
pub(crate) fn put_frame<A: Allocator + Copy>(
    text: &mut String<A>,
    shown: &Shown<'_>,
    number: usize,
    place: usize,
    row: &Row,
) -> Result<(), AllocError>
    ensures { (before : List Arrived) → number ≡ length before → place ≡ record_in before row.now
        → OnOk result (string_bytes text.new ≡ string_bytes text.old ++ frame_fields shown.now before row.now) }
{
    write!(text, "{number}")?;
    put_number(text, u64::from(row.in_port))?;
    put_number(text, place as u64)?;
    put_number(text, shown.since(row.stamp.ns()))?;
    put_link(text, row.link)?;
    put_number(text, u64::from(row.size))
}

/// Appends the fields of a fate and ends the line.
pub(crate) fn put_fate<A: Allocator + Copy>(
    text: &mut String<A>,
    word: &str,
    early: Option<u64>,
    full: &[u8],
) -> Result<(), AllocError>
    ensures { OnOk result (string_bytes text.new ≡ string_bytes text.old
        ++ flat_map next_field (word.now ∷ optional early ∷ joined_by (codes ";") (map decimal full.now) ∷ []) ++ codes "\n") }
{
    put_word(text, word)?;
    put_optional(text, early)?;
    text.push_str(",")?;
    put_ports(text, full)?;
    text.push_str("\n")
}

/// What is kept of the arrivals so far: the accounts of the links, how many came in at each port, and which copies each
/// port took.
#[derive(Drop)]
pub(crate) struct Tracer<A: Allocator> {
    alloc: A,
    accounts: Vec<Account, A>,
    records: [usize; 256],
    taken: Vec<Flags<A>, A>,
}

impl<A: Allocator + Copy> Tracer<A> {
    /// Makes a tracer that stands before the first arrival.
    pub(crate) fn new<B: Allocator + Copy>(alloc: A, done: &Done<'_, B>) -> Result<Self, AllocError>
        ensures { IfOk result (λ tracer. Traces done.now.run [] 0 tracer) }
    {
        let accounts = accounts_of(alloc, done.table())?;
        let taken = all_taken(alloc, done)?;
        Ok(Tracer {
            alloc,
            accounts,
            records: [0; 256],
            taken,
        })
    }

    /// Returns the word of an arrival's fate, by how many nanoseconds it came early if it was policed, and the ports that refused it
    /// if it was passed.
    fn fate<B: Allocator + Copy>(
        &mut self,
        done: &Done<'_, B>,
        before: &[Row],
        row: &Row,
    ) -> Result<(&'static str, Option<u64>, Vec<u8, A>), AllocError>
        requires agree { AccountsAgree done.now.run.table.links before.now row.now.stamp self.old.accounts.items }
        requires taken { AreTaken done.now.run self.old.taken.items }
        requires within { length before.now < length done.now.run.rows }
        ensures fields { IfOk result (λ reported. reported.0.now ∷ optional reported.1 ∷ joined_by (codes ";") (map decimal reported.2.items) ∷ []
            ≡ fate_fields done.now.run before.now row.now) }
        ensures agree { AccountsAgree done.now.run.table.links (before.now ++ row.now ∷ []) row.now.stamp self.new.accounts.items }
        ensures records { self.new.records ≡ self.old.records }
        ensures taken { self.new.taken ≡ self.old.taken }
    {
        filtered_touch_no_account();
        links_are_at_their_places();
        let table = done.table();
        let Some(place) = clean_place(table, row.verdict) else {
            return Ok((verdict_word(row.verdict), None, Vec::new(self.alloc)));
        };
        match offer(table, &mut self.accounts, place, before, row) {
            Ok(to) => {
                let full = refusing(self.alloc, &self.taken, before.len(), to)?;
                Ok(("passed", None, full))
            }
            Err(early) => Ok(("policed", Some(early), Vec::new(self.alloc))),
        }
    }

    /// Appends the line of an arrival that came after these, if it is shown.
    pub(crate) fn trace<B: Allocator + Copy>(
        &mut self,
        text: &mut String<A>,
        done: &Done<'_, B>,
        shown: &Shown<'_>,
        before: &[Row],
        row: &Row,
    ) -> Result<(), AllocError>
        requires traces { Traces done.now.run before.now row.now.stamp self.old }
        requires within { length before.now < length done.now.run.rows }
        ensures text { OnOk result (string_bytes text.new ≡ string_bytes text.old ++ shown_line shown.now done.now.run before.now row.now) }
        ensures traces { OnOk result (Traces done.now.run (before.now ++ row.now ∷ []) row.now.stamp self.new) }
    {
        let place = count(&mut self.records, before, row);
        let (word, early, full) = self.fate(done, before, row)?;
        if !shown.has(row.link) {
            return Ok(());
        }
        put_frame(text, shown, before.len(), place, row)?;
        put_fate(text, word, early, &full)
    }
}
