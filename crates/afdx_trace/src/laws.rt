//! Laws over the definitions.

ghost use Rattle.afdx_trace.specs.Inner.Laws.{EventsAreInOrder, FullIsExact};
ghost use Rattle.afdx_trace.specs.Inner.Told.{LinesAreTold};

use afdx_port::laws::{each_has_one_event, feeds_are_admitted_in_parts, starts_in_time_are_sent};

/// Proves that the events of a port are in order of their instants, and that a copy that is discarded at the instant at which
/// another starts comes before it.
pub fn events_are_in_order()
    ensures { EventsAreInOrder }
{
    starts_in_time_are_sent();
}

/// Proves that, once all is carried out, the ports that are reported to have refused a copy are those that answered `Full` to it:
/// those whose buffer had no room for it.
pub fn full_is_exact()
    ensures { FullIsExact }
{
    each_has_one_event();
    feeds_are_admitted_in_parts();
}

/// Proves that, once all is carried out, the lines of arrivals are those that could be told when the arrivals were taken.
pub fn lines_are_told()
    ensures { LinesAreTold }
{
    full_is_exact();
}
