//! Laws over the definitions: functions that do nothing, whose contracts are the laws.

ghost use Rattle.afdx_grouping.specs.Laws.{BurstsAreLeast, NoneIsMoreThanPaidFor, NoMoreIsPaidFor, LesserCurvesNeedLess, BoundsAreNoMore, OnlyPortsCount};
ghost use Rattle.afdx_grouping.specs.Laws.{LessScatterBoundsNoMore};
ghost use Rattle.afdx_grouping.specs.Scatter.{LaterIsALongerWindow, NothingIsScattered, AcceptedHasNoScatteredFault, LessScatterIsAccepted};

use afdx_load::laws::carries_without_a_fault;
use afdx_serial::laws::turns_are_enough;

/// Proves that a burst that is found beside the turns of curves is enough for them, and the least that is, if no more is paid
/// for in the long run than the line brings. It is never more than what is paid for at once.
pub fn bursts_are_least()
    ensures least { BurstsAreLeast }
    ensures most { NoneIsMoreThanPaidFor }
{
    turns_are_enough();
}

/// Proves that the groups of a port's links are paid for no more than its links: each link comes in at one port.
pub fn no_more_is_paid_for()
    ensures { NoMoreIsPaidFor }
{}

/// Proves that curves that bring no more in any window than others need no greater burst, if in the long run no more is paid
/// for of either than the line brings.
pub fn lesser_curves_need_less()
    ensures { LesserCurvesNeedLess }
{
    turns_are_enough();
}

/// Proves that the bounds by the lesser load of a port are there if those by its load are, and no greater, however much
/// latencies differ.
pub fn bounds_are_no_more()
    ensures { BoundsAreNoMore }
{}

/// Proves that the lesser bounds of a table's ports rest on what is said of the lines of these ports, and of no others.
pub fn only_ports_count()
    ensures { OnlyPortsCount }
{}

/// Proves that, at a port whose links ask for no more than its line, the bounds by the lesser load are no greater if latencies
/// differ by less.
pub fn less_scatter_bounds_no_more()
    ensures { LessScatterBoundsNoMore }
{
    turns_are_enough();
}

/// Proves that what comes to the queues in a window is what comes to the switch in one that is longer by what latencies differ
/// by.
pub fn later_is_a_longer_window()
    ensures { LaterIsALongerWindow }
{}

/// Proves that, if latencies do not differ, a load is what it is without them, and a table is accepted as by its check.
pub fn nothing_is_scattered()
    ensures { NothingIsScattered }
{}

/// Proves that a table is accepted with latencies that differ exactly if it has no fault then.
pub fn accepted_has_no_scattered_fault()
    ensures { AcceptedHasNoScatteredFault }
{
    carries_without_a_fault();
}

/// Proves that a table that is accepted with latencies that differ is accepted if they differ by less.
pub fn less_scatter_is_accepted()
    ensures { LessScatterIsAccepted }
{}
