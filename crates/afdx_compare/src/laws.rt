//! Laws over the definitions: functions that do nothing, or call laws of lower crates, whose contracts are the laws.

ghost use Rattle.afdx_compare.specs.Inner.Laws.{ExactlyIsIsolated, OurRunsKeepToIt, ConformsIsKept};

use afdx_account::laws::{headroom_is_a_level, next_frame_joins_where_it_conforms};
use afdx_filter::laws::clean_frames_have_a_link;
use afdx_following::laws::followed_is_kept;
use afdx_grouping::laws::nothing_is_scattered;
use afdx_levels::laws::at_rest_is_the_account;
use afdx_load::laws::{accepted_keeps_bounds, high_links_leave_a_part};
use afdx_table::laws::{links_are_at_their_places, links_are_found, ports_are_found};

/// Proves that a switch keeps to what is proved of ours if nothing speaks against it once all records of captures were taken.
pub fn conforms_is_kept()
    ensures { ConformsIsKept }
{
    clean_frames_have_a_link();
    links_are_at_their_places();
    links_are_found();
    ports_are_found();
    high_links_leave_a_part();
    followed_is_kept();
}

/// Proves that what is proved of our own switch is what recordings keep to if all is exact: they are whole and begin at rest, each frame takes the
/// table's latency, and stamps are not off. So whatever a run of an accepted table answers keeps to it.
pub fn exactly_is_isolated()
    ensures { ExactlyIsIsolated }
{
    headroom_is_a_level();
    next_frame_joins_where_it_conforms();
    clean_frames_have_a_link();
    at_rest_is_the_account();
    accepted_keeps_bounds();
    links_are_found();
    nothing_is_scattered();
}

/// Proves that recordings of what a run of an accepted table answers keep to what is proved of our own switch.
pub fn our_runs_keep_to_it()
    ensures { OurRunsKeepToIt }
{
    exactly_is_isolated();
}
