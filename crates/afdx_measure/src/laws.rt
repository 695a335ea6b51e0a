//! Laws over the definitions.

ghost use Rattle.afdx_measure.specs.Delays.{RangeIsOfDelays};
ghost use Rattle.afdx_measure.specs.Peak.{PeakIsTheFirstGreatest};
ghost use Rattle.afdx_measure.specs.Ports.{PeakIsWithinTheBuffer, AcceptedTablesStayWithinTheLoad};

use afdx_core::laws::{
    accepted_tables_isolate, buffers_hold_the_backlog, copies_have_their_links_priority,
};
use afdx_port::laws::admitted_fit_in_order;

/// Proves that the least and the greatest delay are among the delays, and that none is below or above them.
pub fn range_is_of_delays()
    ensures { RangeIsOfDelays }
{}

/// Proves that the peak is the greatest filling, at the first admission that reached it.
pub fn peak_is_the_first_greatest()
    ensures { PeakIsTheFirstGreatest }
{}

/// Proves that a port's buffer never held more bytes than it has.
pub fn peak_is_within_the_buffer()
    ensures { PeakIsWithinTheBuffer }
{
    admitted_fit_in_order();
}

/// Proves that, over an accepted table, no delay of a link at a port is greater than the port's bound for its priority, and no
/// port's buffer ever held more than the least one that its load asks for.
pub fn accepted_tables_stay_within_the_load()
    ensures { AcceptedTablesStayWithinTheLoad }
{
    accepted_tables_isolate();
    copies_have_their_links_priority();
    buffers_hold_the_backlog();
}
