//! Laws over the definitions: functions that do nothing, whose contracts are the laws.

ghost use Rattle.afdx_jitter.specs.Laws.{LaterConform, PassedPassAgain, JitterAllowsMore, JitterEnough};
ghost use Rattle.afdx_jitter.specs.Laws.{CrossingIsAHop, DelaysAddUp, DelaysBeginAtOnce, WaysPassAll};

/// Proves that frames that come again later conform to terms that allow for the difference of the least and the most.
pub fn later_conform()
    ensures { LaterConform }
{}

/// Proves that what one account passed, a later one that allows for it passes.
pub fn passed_pass_again<T>()
    ensures { PassedPassAgain T }
{}

/// Proves that terms of either kind, of one size and gap, allow more if the jitter grows by that much.
pub fn jitter_allows_more()
    ensures { JitterAllowsMore }
{}

/// Proves that a link whose jitter is enough after a part of its way is not policed there.
pub fn jitter_enough<T>()
    ensures { JitterEnough T }
{}

/// Proves that frames of at least 64 bytes that cross a switch and a cable come later by the hop.
pub fn crossing_is_a_hop()
    ensures { CrossingIsAHop }
{}

/// Proves that delays of one part of a way and of the next add up, and that before the first hop there are none.
pub fn delays_add_up()
    ensures sums { DelaysAddUp }
    ensures begin { DelaysBeginAtOnce }
{}

/// Proves that no account on a link's way polices anything that the first one passed, if each allows for the whole way to it.
pub fn ways_pass_all()
    ensures { WaysPassAll }
{}
