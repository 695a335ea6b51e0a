//! What the rows of a link at both ends of a wire share.

ghost use Rattle.std.specs.Prelude.{◌≡◌};
ghost use Rattle.afdx_network_check.specs.Order.{same_police, same_terms, agrees};

use afdx_table::LinkRow;
use afdx_units::Police;
use afdx_wiring::{At, NetworkFault, Wire};

/// What the rows of a link at both ends of a wire share, in the order in which it is looked at.
#[derive(Clone, Copy)]
pub(crate) enum Shared {
    /// The number: there is a second row.
    Number,
    /// The wire: the second row has the link come in from there.
    Port,
    /// The size, the gap and the kind of policing.
    Terms,
}

/// Returns whether two kinds of policing are the same.
fn same_police(one: Police, other: Police) -> bool
    ensures { result ≡ same_police one other }
{
    one == other
}

/// Compares the terms of two rows of a link: the size, then the gap, then the kind of policing.
#[tactic(auto, unfolding(crate::specs::Order::same_terms))]
fn same_terms(at: At, link: &LinkRow, next: &LinkRow) -> Result<(), NetworkFault>
    ensures { result ≡ same_terms at link.now next.now }
{
    if next.max_size != link.max_size {
        return Err(NetworkFault::Size(at, link.id));
    }
    if next.bag.ms() != link.bag.ms() {
        return Err(NetworkFault::Bag(at, link.id));
    }
    if !same_police(next.police, link.police) {
        return Err(NetworkFault::Police(at, link.id));
    }
    Ok(())
}

/// Compares a row that leads to a wire with the row of that link at the wire's end.
pub(crate) fn agrees(
    what: Shared,
    at: At,
    wire: &Wire,
    link: &LinkRow,
    next: &LinkRow,
) -> Result<(), NetworkFault>
    ensures { result ≡ agrees what at wire.now link.now next.now }
{
    match what {
        Shared::Number => Ok(()),
        Shared::Port if next.from == wire.to.port => Ok(()),
        Shared::Port => Err(NetworkFault::From(at, link.id)),
        Shared::Terms => same_terms(at, link, next),
    }
}
