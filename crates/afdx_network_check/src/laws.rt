//! Laws over the definitions: functions that do nothing, whose contracts are the laws.

ghost use Rattle.afdx_network_check.specs.Inner.Staying.{WholeJittersAreEnough};
ghost use Rattle.afdx_network_check.specs.Inner.Tabled.{RowsAreOfTables};
ghost use Rattle.afdx_network_check.specs.Outage.{OutagesChangeNoWay};

use afdx_grouping::laws::bounds_are_no_more;

/// Proves that each row of a network is of the table at its switch's place.
pub fn rows_are_of_tables()
    ensures { RowsAreOfTables }
{}

/// Proves that jitters are enough if they are enough for the bounds of the ports' whole loads. Such a bound counts all that a
/// port's links may send at once; if a switch's latency does not vary, it is the one that is printed of its table by itself. So
/// a network that was accepted by these bounds stays accepted.
pub fn whole_jitters_are_enough()
    ensures { WholeJittersAreEnough }
{
    bounds_are_no_more();
}

/// Proves that an outage changes no way: those that use nothing that is down are as they were, with the same delays and
/// jitters.
pub fn outages_change_no_way()
    ensures { OutagesChangeNoWay }
{}
