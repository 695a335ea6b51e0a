//! When items that were offered to one port begin, worked out by hand.

ghost use Rattle.std.specs.Prelude.{◌≡◌, ◌+◌, ◌<◌, ◌≤◌, false, All};
ghost use Rattle.afdx_units.specs.Time.{last_second};
ghost use Rattle.afdx_units.specs.Line.{least_size, greatest_size};

use afdx_port::{Item, Offer, Port};
use afdx_units::{Priority, Speed, Stamp};
use std::alloc::Global;
use std::test::Fail;

/// Offers an item of this size that came at so many nanoseconds.
fn offer(port: &mut Port<Global>, number: usize, at: u64, size: u32, priority: Priority) -> Offer
    requires room { 0 < port.old.room }
    requires open { port.old.content.finished ≡ false }
    requires not_late { at < last_second }
    requires in_order { port.old.content.horizon ≤ at }
    requires numbered { All (λ other. other.number < number) port.old.content.admitted }
    requires least { least_size ≤ size }
    requires largest { size ≤ greatest_size }
    ensures room { port.old.room ≤ port.new.room + 1 }
    ensures open { port.new.content.finished ≡ false }
    ensures horizon { port.new.content.horizon ≡ at }
    ensures numbered { All (λ other. other.number < number + 1) port.new.content.admitted }
{
    // example of afdx_port
    port.offer(Item {
        number,
        link: 10,
        stamp: Stamp::from_ns(at).unwrap(),
        size,
        priority,
    })
    // end of example
}

/// Returns how many items a port sent, with the number and the end of the last of them.
fn sent(port: &Port<Global>) -> (usize, Option<(usize, u64)>) {
    let last = port.sent().last();
    (
        port.sent().len(),
        last.map(|sent| (sent.item.number, sent.end.ns())),
    )
}

/// Returns the instant at which something is due at a port, if anything is.
fn due(port: &Port<Global>) -> Option<u64> {
    port.due().map(|at| at.ns())
}

#[test]
fn an_advance_reaches_one_latency_further(rt: HostRuntime) -> Result<(), Fail> {
    // example of afdx_port
    let mut port = Port::new(rt.alloc(), Speed::Hundred, 100_000, 500_000_000, 50_000);
    port.reserve(1)?;
    offer(&mut port, 1, 10, 64, Priority::Low);
    let first = due(&port);
    port.advance(Stamp::from_ns(10).unwrap());
    let before = sent(&port);
    port.advance(Stamp::from_ns(11).unwrap());
    let after = sent(&port);
    // end of example
    port.advance(Stamp::LAST);
    assert_eq!(rt;
        (first, before, after, due(&port)),
        (Some(50_010), (0, None), (1, Some((1, 56_730))), None)
    );
    Ok(())
}

#[test]
fn due_is_the_next_start(rt: HostRuntime) -> Result<(), Fail> {
    let mut port = Port::new(rt.alloc(), Speed::Hundred, 100_000, 100_000, 0);
    port.reserve(2)?;
    let none = due(&port);
    offer(&mut port, 1, 10, 1518, Priority::Low);
    let first = due(&port);
    let at_once = port.is_due(Stamp::from_ns(10).unwrap());
    let later = port.is_due(Stamp::from_ns(11).unwrap());
    offer(&mut port, 2, 10, 64, Priority::Low);
    port.advance(Stamp::from_ns(11).unwrap());
    let second = due(&port);
    port.advance(Stamp::from_ns(123_050).unwrap());
    let still = due(&port);
    port.advance(Stamp::from_ns(123_051).unwrap());
    assert_eq!(rt;
        ([none, first, second, still, due(&port)], [at_once, later]),
        (
            [None, Some(10), Some(123_050), Some(123_050), None],
            [false, true]
        )
    );
    Ok(())
}
