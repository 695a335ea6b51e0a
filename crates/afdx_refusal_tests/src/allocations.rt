//! Allocations that are refused in turn.

use afdx_refusing::Refusing;
use std::alloc::Global;
use std::io::Print;
use std::process::Abort;
use std::test::*;

/// More allocations than any calls here take.
const MOST: u64 = 100_000;

/// Memory that refuses one allocation.
pub(crate) type Memory = Refusing<Global>;

/// Calls that take memory, and the answers that they should give.
pub(crate) trait Calls {
    /// Makes the calls, and returns whether they answer as they should, or none if memory runs out.
    fn answer(&self, memory: &Memory) -> Result<Option<bool>, Fail>;
}

/// Refuses the first allocation of these calls, then the second, and so on until none is refused, and returns how many there
/// were. Each time the calls have to be out of memory if an allocation was refused, and else to answer as they should.
fn allocations(rt: &impl Abort, alloc: Global, calls: &impl Calls) -> Result<u64, Fail> {
    let mut refused = 0u64;
    for n in 1..MOST {
        let memory = Refusing::new(alloc, n);
        let answer = calls.answer(&memory)?;
        let wanted = if memory.is_spent() { None } else { Some(true) };
        assert!(rt; answer == wanted, "{n}");
        if wanted.is_some() {
            break;
        }
        refused = n;
    }
    Ok(refused)
}

/// Refuses each allocation of these calls in turn, of which there have to be so many at least, and prints how many there were.
pub(crate) fn refuse<R: Abort + Print>(
    rt: &R,
    alloc: Global,
    name: &str,
    calls: &impl Calls,
    least: u64,
) -> Result<(), Fail> {
    let refused = allocations(rt, alloc, calls)?;
    assert!(rt; refused >= least);
    println!(rt; "{name}: {refused} allocations refused")?;
    Ok(())
}

/// Counts one more.
pub(crate) fn count(wants: &mut u64) {
    *wants = wants.saturating_add(1);
}

/// Returns the answer of calls of which each that is out of memory is made once more. It follows from whether all was right in
/// the end, and how often memory ran out.
pub(crate) fn made_again(right: bool, wants: u64) -> Option<bool> {
    match wants {
        0 => Some(right),
        1 if right => None,
        _ => Some(false),
    }
}
