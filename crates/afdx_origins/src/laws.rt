//! Laws over the definitions: functions that do nothing, whose contracts are the laws.

ghost use Rattle.afdx_origins.specs.Laws.{OriginIsOne, NoneTakesMoreThanItsWay};

use afdx_measure::laws::range_is_of_delays;
use afdx_table::laws::links_are_found;

/// Proves that, if no port sent two copies that ended at one instant, a frame came to its first switch at one instant alone.
pub fn origin_is_one()
    ensures { OriginIsOne }
{}

/// Proves that, if each copy keeps to its port's bound, no delay from end to end is greater than the sum of the bounds and cables
/// on the way.
pub fn none_takes_more_than_its_way()
    ensures { NoneTakesMoreThanItsWay }
{
    links_are_found();
    range_is_of_delays();
}
