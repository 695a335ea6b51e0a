//! How the verdict on a frame is found.

ghost use Rattle.std.specs.Prelude.{◌≡◌, IsTrue, Some, None};
ghost use Rattle.afdx_table.specs.Content.{link_row, link_place};
ghost use Rattle.afdx_filter.specs.Verdict.{verdict_of, link_verdict};
ghost use Rattle.afdx_frame.specs.Address.{link_of};
ghost use Rattle.afdx_filter.specs.Place.{place_named, link_named};

use crate::outcome::Verdict;
use afdx_frame::view;
use afdx_pcap::Record;
use afdx_table::Table;
use afdx_table::laws::{links_are_at_their_places, links_are_found};
use afdx_units::{GREATEST_SIZE, LEAST_SIZE, size};
use std::alloc::Allocator;

/// The verdict on a frame that arrives at a port, the link that it names, and where that link is in the table.
///
/// One look-up gives all three, so that what handles a clean frame needs no second one.
#[derive(Clone, Copy, Debug, PartialEq, Eq)]
pub struct Judged {
    /// The first case of [`Verdict`] that holds.
    pub verdict: Verdict,
    /// The place of a clean frame's link in file order, from 0; none for any other frame.
    pub place: Option<usize>,
    /// The number of the link that the frame names, if the frame is clean, at a wrong port or too big; none for any other frame.
    pub link: Option<u16>,
}

impl Judged {
    /// Returns what is said of a frame that is no link's and names none.
    fn refused(verdict: Verdict) -> Judged
        ensures { result ≡ record { verdict = verdict; place = None; link = None } }
    {
        Judged {
            verdict,
            place: None,
            link: None,
        }
    }

    /// Makes the judgement of a frame that names a link of the table and is not clean.
    fn named(verdict: Verdict, number: u16) -> Judged
        ensures { result ≡ record { verdict = verdict; place = None; link = Some number } }
    {
        Judged {
            verdict,
            place: None,
            link: Some(number),
        }
    }
}

/// Returns the verdict on a frame that arrives at a port, with the link that it names and the place of a clean frame's link.
///
/// O(1), with one look-up of the link by its number; it takes no memory.
#[inline(always)]
pub fn judge<A: Allocator>(table: &Table, in_port: u8, frame: &Record<'_, A>) -> Judged
    ensures verdict { result.verdict ≡ verdict_of table.now in_port frame.now }
    ensures place { result.place ≡ place_named table.now result.verdict }
    ensures link { result.link ≡ link_named result.verdict (link_of frame.now.bytes) }
{
    let bytes = frame.bytes();
    if frame.original() as usize > bytes.len() {
        return Judged::refused(Verdict::Cut);
    }
    let size = size(bytes.len() as u32);
    if size < LEAST_SIZE {
        return Judged::refused(Verdict::Short);
    }
    if size > GREATEST_SIZE {
        return Judged::refused(Verdict::Long);
    }
    let address = view(bytes).unwrap();
    if address.constant() != table.constant() {
        return Judged::refused(Verdict::Foreign);
    }
    judge_number(table, in_port, size, address.link(), frame.guess())
}

/// Returns whether the link at a place has the number.
#[inline(always)]
fn has_number_at(table: &Table, place: usize, number: u16) -> bool
    ensures { IsTrue result → link_place table.now number ≡ Some place }
{
    match table.link_at(place) {
        Some(link) => link.id == number,
        None => false,
    }
}

/// Returns the place of the link of a number, which may be the one that is guessed.
#[inline(always)]
fn place_of(table: &Table, number: u16, guess: u16) -> Option<usize>
    ensures place { result ≡ link_place table.now number }
{
    let place = usize::from(guess);
    if has_number_at(table, place, number) {
        Some(place)
    } else {
        table.link_place(number)
    }
}

/// Judges a frame of this size and link number, which has passed the tests that come before that of its link.
#[inline(always)]
fn judge_number(table: &Table, in_port: u8, size: u32, number: u16, guess: u16) -> Judged
    ensures verdict { result.verdict ≡ link_verdict in_port size (link_row table.now number) }
    ensures place { result.place ≡ place_named table.now result.verdict }
    ensures link { result.link ≡ link_named result.verdict number }
{
    links_are_at_their_places();
    links_are_found();
    let Some(place) = place_of(table, number, guess) else {
        return Judged::refused(Verdict::NoLink);
    };
    let link = table.link_at(place).unwrap();
    if link.from != in_port {
        return Judged::named(Verdict::WrongPort, number);
    }
    if size > link.max_size {
        return Judged::named(Verdict::TooBig, number);
    }
    Judged {
        verdict: Verdict::Clean(link.id),
        place: Some(place),
        link: Some(number),
    }
}

/// Returns the record with a guess: the place of the link that its frame names, if the table has that link. With it the frame is judged later
/// without a wait for its bytes before the link's row is asked for. O(1), with one look-up; it takes no memory.
#[inline(always)]
pub fn with_place<'a, A: Allocator>(table: &Table, frame: Record<'a, A>) -> Record<'a, A>
    ensures { result ≡ frame.entry }
{
    let place = match view(frame.bytes()) {
        Some(address) => table.link_place(address.link()).unwrap_or(0),
        None => 0,
    };
    frame.with_guess(place as u16)
}

/// Returns the verdict on a frame that arrives at a port: the first case of [`Verdict`] that holds.
///
/// O(1); it takes no memory.
pub fn verdict<A: Allocator>(table: &Table, in_port: u8, frame: &Record<'_, A>) -> Verdict
    ensures { result ≡ verdict_of table.now in_port frame.now }
{
    judge(table, in_port, frame).verdict
}
