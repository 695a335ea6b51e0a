//! Which copies each port took.

ghost use Rattle.std.specs.Prelude.{◌≡◌, ℕ, ◌<◌, ◌==◌, ◌||◌, true, false, length, set, slice_index_or, IfOk};
ghost use Rattle.std.specs.List.{list_any};
ghost use Rattle.afdx_table.specs.WellFormed.{IsWellFormed};
ghost use Rattle.afdx_trace.specs.Inner.Taken.{AreTaken, flag_at, unflagged};

use afdx_core::Done;
use afdx_port::{Aged, Sent};
use afdx_table::Table;
use std::alloc::{AllocError, Allocator};
use std::marker::Model;

/// Flags by the numbers of the arrivals, from 0: whether a port took the copy. No flag means false.
#[derive(Drop)]
pub(crate) struct Flags<A: Allocator> {
    all: Vec<bool, A>,
}

impl<A: Allocator> Model for Flags<A> {
    ghost use Rattle.std.specs.Prelude.{List, Bool};

    ghost Value = { List Bool };

    ghost view = { λ f. f.all.items };
}

/// Sets the flag of a number, if there is one.
fn mark(flags: &mut [bool], number: usize)
    ensures { flags.new ≡ set flags.old number true }
{
    if number < flags.len() {
        flags[number] = true;
    }
}

/// Sets the flags of the copies that a port sent. O(copies).
fn mark_sent(flags: &mut [bool], sent: &[Sent])
    ensures len { length flags.new ≡ length flags.old }
    ensures marked { (number : ℕ) → number < length flags.old
        → slice_index_or flags.new number false ≡ (slice_index_or flags.old number false || list_any (λ x. x.item.number == number) sent.now) }
{
    for copy in sent {
        mark(flags, copy.item.number);
    }
}

/// Sets the flags of the copies that a port discarded. O(copies).
fn mark_aged(flags: &mut [bool], aged: &[Aged])
    ensures len { length flags.new ≡ length flags.old }
    ensures marked { (number : ℕ) → number < length flags.old
        → slice_index_or flags.new number false ≡ (slice_index_or flags.old number false || list_any (λ x. x.item.number == number) aged.now) }
{
    for copy in aged {
        mark(flags, copy.item.number);
    }
}

/// Makes a flag for each of so many arrivals, set if a port sent or discarded its copy; no flags if the port sent and discarded nothing.
fn flags_of<A: Allocator + Copy>(
    alloc: A,
    count: usize,
    sent: &[Sent],
    aged: &[Aged],
) -> Result<Flags<A>, AllocError>
    ensures { IfOk result (λ flags. (number : ℕ) → number < count → slice_index_or flags number false
        ≡ (list_any (λ x. x.item.number == number) sent.now || list_any (λ x. x.item.number == number) aged.now)) }
{
    if sent.is_empty() && aged.is_empty() {
        return Ok(Flags {
            all: Vec::new(alloc),
        });
    }
    let mut all = vec![in alloc; false; count]?;
    mark_sent(&mut all, sent);
    mark_aged(&mut all, aged);
    Ok(Flags { all })
}

/// Proves that the table is well formed.
fn know_the_table(table: &Table)
    ensures { IsWellFormed table.now }
{
    table.constant();
}

/// Makes the flags of the copies that each port took, by the ports' numbers from 0 to 24. O(arrivals) for each port that sent or
/// discarded one.
pub(crate) fn all_taken<A: Allocator + Copy, B: Allocator + Copy>(
    alloc: A,
    done: &Done<'_, B>,
) -> Result<Vec<Flags<A>, A>, AllocError>
    ensures { IfOk result (λ flags. AreTaken done.now.run flags.items) }
{
    know_the_table(done.table());
    let count = done.rows().len();
    let mut all = Vec::new(alloc);
    for port in 0..25u8 {
        let flags = flags_of(alloc, count, done.sent(port), done.aged(port))?;
        all.push(flags)?;
    }
    Ok(all)
}

/// Returns whether a port took the copy of an arrival.
fn has_taken<A: Allocator>(taken: &[Flags<A>], port: u8, number: usize) -> bool
    ensures { result ≡ flag_at taken.now port number }
{
    match taken.get(usize::from(port)) {
        Some(flags) => flags.all.get(number).copied().unwrap_or(false),
        None => false,
    }
}

/// Returns which of the ports that were offered the copy of an arrival refused it.
pub(crate) fn refusing<A: Allocator + Copy>(
    alloc: A,
    taken: &[Flags<A>],
    number: usize,
    to: &[u8],
) -> Result<Vec<u8, A>, AllocError>
    ensures { IfOk result (λ ports. ports.items ≡ unflagged taken.now number to.now) }
{
    let mut ports = Vec::new(alloc);
    for port in to {
        if !has_taken(taken, *port, number) {
            ports.push(*port)?;
        }
    }
    Ok(ports)
}
