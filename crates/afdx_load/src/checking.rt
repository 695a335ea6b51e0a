//! The check of a table.

ghost use Rattle.std.specs.Prelude.{◌≡◌, ◌≤◌, ◌*◌, ◌^◌, MatchResult, Some};
ghost use Rattle.afdx_load.specs.Inner.Slots.{AreLoads};
ghost use Rattle.afdx_load.specs.Accepted.{past, past_bound, fault_at, first_fault, IsAccepted};

use crate::bounding::{PARTS, backlog, bounds_with, byte_time};
use crate::bursts::Bursts;
use crate::cleared::Cleared;
use crate::fault::{LoadFault, Rule};
use crate::loading::slots;
use crate::port_load::Load;
use afdx_table::{PORT_PLACES, PortRow, Table};

/// Returns the fault of a need, if it is past its limit.
fn past(port: u8, rule: Rule, limit: u128, need: u128) -> Option<LoadFault>
    ensures { result ≡ past port rule limit need }
{
    if need > limit {
        Some(LoadFault {
            port,
            rule,
            need,
            limit,
        })
    } else {
        None
    }
}

/// Returns the fault of a need, if there is one and it is past its limit.
fn past_bound(port: u8, rule: Rule, limit: u128, need: Option<u128>) -> Option<LoadFault>
    ensures { result ≡ past_bound port rule limit need }
{
    match need {
        Some(need) => past(port, rule, limit, need),
        None => None,
    }
}

/// Returns the fault of the first rule that a port's load breaks, in the order of [`check`], if its links ask for so much at
/// once: for no more than 2^82 parts of a nanosecond, neither all nor the high ones. None if it breaks none. O(1).
#[tactic(auto, unfolding(crate::specs::Accepted::fault_at))]
pub fn fault_with(row: &PortRow, load: &Load, bursts: Bursts) -> Option<LoadFault>
    requires all { bursts.all ≤ 2 ^ 82 }
    requires high { bursts.high ≤ 2 ^ 82 }
    ensures { result ≡ fault_at row.now (record load.now { burst = bursts.all; high_burst = bursts.high }) }
{
    let parts = u128::from(PARTS);
    let room = byte_time(row.speed, row.buffer);
    let delay = u128::from(row.max_delay);
    let bounds = bounds_with(load, bursts);
    past(row.id, Rule::Rate, parts, u128::from(load.rate()))
        .or(past(row.id, Rule::Buffer, room, backlog(load, bursts.all)))
        .or(past_bound(row.id, Rule::HighDelay, delay, bounds.high))
        .or(past_bound(row.id, Rule::LowDelay, delay, bounds.low))
}

/// Returns the fault of the first port that has one; none if no port has.
fn first_fault_in(table: &Table, slots: &[Load; PORT_PLACES]) -> Option<LoadFault>
    requires { AreLoads table.now.links table.now.ports slots.now }
    ensures { result ≡ first_fault table.now.latency table.now.links table.now.ports }
{
    for row in table.ports() {
        let load = slots[usize::from(row.id)].behind(table.latency());
        let fault = fault_with(row, &load, load.bursts());
        if fault.is_some() {
            return fault;
        }
    }
    None
}

/// Returns the fault of a table, as [`check`] names it; none if the table is accepted. It costs as much as that.
pub fn first_fault(table: &Table) -> Option<LoadFault>
    ensures { result ≡ first_fault table.now.latency table.now.links table.now.ports }
{
    first_fault_in(table, &slots(table))
}

/// Accepts a table exactly if each port with links carries their load. Else the table comes back unchanged, beside the fault of
/// the lowest port that has one, at the first rule that it breaks, in this order:
///
/// 1. `Rate`: its links ask for more than the line.
/// 2. `Buffer`: what may wait and be on the line at once takes more line time than the buffer holds.
/// 3. `HighDelay`: the bound of its high frames is above the greatest delay.
/// 4. `LowDelay`: the bound of its low frames is above the greatest delay.
///
/// O(p + m) for p ports and links that together name m output ports: one pass over the links serves all ports. It takes no
/// memory.
#[tactic(auto, using(crate::proofs::FaultLemmas::accepted_of, crate::proofs::FaultLemmas::refused_of))]
pub fn check(table: Table) -> Result<Cleared, (Table, LoadFault)>
    ensures { MatchResult result
        (λ cleared. (cleared ≡ table) × IsAccepted table)
        (λ refused. (refused.0 ≡ table) × (first_fault table.latency table.links table.ports ≡ Some refused.1) × (IsAccepted table → ⊥)) }
{
    match first_fault(&table) {
        Some(fault) => Err((table, fault)),
        None => Ok(Cleared { table }),
    }
}
