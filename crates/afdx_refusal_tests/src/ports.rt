//! Room at an output port.

ghost use Rattle.std.specs.Prelude.{◌≡◌, ◌+◌, ◌<◌, ◌≤◌, false, All};

use crate::allocations::{Calls, Memory, made_again, refuse};
use afdx_port::{Item, Offer, Port};
use afdx_units::{Priority, Speed, Stamp};
use std::alloc::{AllocError, Allocator};
use std::test::*;

/// Offers a frame of size 64 at instant 0.
fn offer<A: Allocator + Copy>(port: &mut Port<A>, number: usize) -> Offer
    requires room { 0 < port.old.room }
    requires open { port.old.content.finished ≡ false }
    requires horizon { port.old.content.horizon ≡ 0 }
    requires numbered { All (λ other. other.number < number) port.old.content.admitted }
    ensures room { port.old.room ≤ port.new.room + 1 }
    ensures open { port.new.content.finished ≡ false }
    ensures horizon { port.new.content.horizon ≡ 0 }
    ensures numbered { All (λ other. other.number < number + 1) port.new.content.admitted }
{
    port.offer(Item {
        number,
        link: 10,
        stamp: Stamp::ZERO,
        size: 64,
        priority: Priority::Low,
    })
}

/// Makes room for two frames, and offers both at once to a port with a buffer for one. Returns whether memory ran out first, and
/// the answers. If it ran out, the port has room for none then, and nothing else has changed.
fn offers(memory: &Memory) -> Result<(bool, Offer, Offer), AllocError> {
    let mut port = Port::new(memory, Speed::Hundred, 64, 500_000_000, 0);
    let wanted = port.reserve(2).is_err();
    port.reserve(2)?;
    let first = offer(&mut port, 0);
    let second = offer(&mut port, 1);
    Ok((wanted, first, second))
}

/// Room for two frames, and both of them.
#[derive(Clone, Copy)]
struct Reserving;

impl Calls for Reserving {
    fn answer(&self, memory: &Memory) -> Result<Option<bool>, Fail> {
        let (wanted, first, second) = offers(memory)?;
        let right = (first, second) == (Offer::Queued, Offer::Full);
        Ok(made_again(right, u64::from(wanted)))
    }
}

/// Checks room for two frames, with one allocation at least for each queue and each list.
#[test]
fn room_for_two(rt: HostRuntime) -> Result<(), Fail> {
    refuse(&rt, rt.alloc(), "Port::reserve", &Reserving, 3)
}
