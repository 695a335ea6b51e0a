//! Laws over the definitions: functions that do nothing, or call laws of lower crates, whose contracts are the laws.

ghost use Rattle.afdx_following.specs.Followed.{FollowedIsKept};
ghost use Rattle.afdx_following.specs.Tally.{ConformsWhereFine};

use afdx_levels::laws::told_is_allowed;
use afdx_pairing::laws::fine_is_kept;

/// Proves that the numbers that speak against a switch are all 0 exactly if nothing that was told speaks against it.
pub fn conforms_where_fine()
    ensures { ConformsWhereFine }
{}

/// Proves that, at a port at which nothing speaks against the switch, the records are what left of the frames that an account of the link may have
/// passed. These frames are the same at all ports of the link, whatever it was told of.
pub fn followed_is_kept()
    ensures { FollowedIsKept }
{
    fine_is_kept();
    told_is_allowed();
}
