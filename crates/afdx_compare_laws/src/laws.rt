//! Laws over the definitions: functions that do nothing, or call laws of lower crates, whose contracts are the laws.

ghost use Rattle.afdx_compare_laws.specs.Alone.{RowsAreAlone};
ghost use Rattle.afdx_compare_laws.specs.Comparing.{KeptIsConforms, KeptIsNotForeign};
ghost use Rattle.afdx_compare_laws.specs.Conforming.{KeptLinkConforms};
ghost use Rattle.afdx_compare_laws.specs.EachRow.{EachRowIsAlone};
ghost use Rattle.afdx_compare_laws.specs.Fates.{ToldFatesExplain};
ghost use Rattle.afdx_compare_laws.specs.Files.{OurFilesConform};
ghost use Rattle.afdx_compare_laws.specs.Fine.{KeptIsFine};
ghost use Rattle.afdx_compare_laws.specs.Less.{LessLatencyIsKeptToo, MoreToleranceIsKeptToo};
ghost use Rattle.afdx_compare_laws.specs.Runs.{OurAnswersAreKept, OurRunsConform};
ghost use Rattle.afdx_compare_laws.specs.Spans.{EachSpanIsKept, OurSpansAreKept};
ghost use Rattle.afdx_compare_laws.specs.Surplus.{NoSurplusHides};

use afdx_compare::laws::exactly_is_isolated;
use afdx_core::laws::{by_stamp_is_ordered, verdicts_name_links};
use afdx_filter::laws::{clean_exactly, clean_frames_have_a_link};
use afdx_grouping::laws::{less_scatter_is_accepted, nothing_is_scattered};
use afdx_levels::laws::{
    at_rest_is_the_account, noise_is_allowed, surplus_is_jitter, told_is_allowed,
};
use afdx_load::laws::high_links_leave_a_part;
use afdx_pcap::laws::{each_file_has_one_reading, what_is_written_is_a_capture};
use afdx_port::laws::{ends_do_not_fall, ends_within_a_second};
use afdx_session::laws::{outcomes_isolate, outputs_are_readable};
use afdx_table::laws::{links_are_at_their_places, links_are_found, ports_are_found};

/// Proves that, if recordings keep to what is proved of our switch, a link's frames that passed are passed by its policing with a jitter that is
/// twice the tolerance more. No other surplus hides, whatever the link's account had when they begin.
pub fn no_surplus_hides()
    ensures { NoSurplusHides }
{
    surplus_is_jitter();
    clean_frames_have_a_link();
    links_are_found();
}

/// Proves that, if recordings keep to what is proved of our switch, each span of them does so too, whatever came before it, given that a link's
/// frames within a bound of each other differ.
pub fn each_span_is_kept()
    ensures { EachSpanIsKept }
{
    clean_frames_have_a_link();
    links_are_found();
}

/// Proves that recordings that keep to what is proved of our switch for a least latency do so for a lesser one too, and if latencies differ by more,
/// wherever they begin and end.
pub fn less_latency_is_kept_too()
    ensures { LessLatencyIsKeptToo }
{}

/// Proves that whole recordings of which all is exact, if they keep to what is proved of our switch, do so whatever their stamps are off by.
pub fn more_tolerance_is_kept_too()
    ensures { MoreToleranceIsKeptToo }
{
    at_rest_is_the_account();
    noise_is_allowed();
    clean_frames_have_a_link();
    links_are_found();
}

/// Proves that each span of what is isolated as what a run of an accepted table answers keeps to what is proved of ours. It does so for each least
/// latency up to the table's and whatever its stamps are off by, if a link's frames within a bound of each other differ.
pub fn our_spans_are_kept()
    ensures { OurSpansAreKept }
{
    exactly_is_isolated();
    each_span_is_kept();
    less_latency_is_kept_too();
    more_tolerance_is_kept_too();
}

/// Proves that each span of what a run of an accepted table answers keeps to what is proved of ours. It does so for each least latency up to the
/// table's and whatever its stamps are off by, if a link's frames within a bound of each other differ. What came and what leaves is in the order of
/// its stamps.
pub fn our_answers_are_kept()
    ensures { OurAnswersAreKept }
{
    outcomes_isolate();
    ends_do_not_fall();
    our_spans_are_kept();
}

/// Proves that what is found out of a link, and with it its lines and its rows, rests on what came at its own port and on what left at the ports
/// that it leads to: whatever other captures hold, it is the same.
pub fn rows_are_alone()
    ensures { RowsAreAlone }
{
    clean_frames_have_a_link();
    links_are_at_their_places();
}

/// Proves that, if a switch was at rest and stamps are exact, what is said of a link at an output port, its text and its rows, rests on what came at
/// the link's own port and on what left at that output port. Whatever other captures hold, those of its other output ports among them, it is the
/// same.
pub fn each_row_is_alone()
    ensures { EachRowIsAlone }
{
    clean_frames_have_a_link();
    links_are_at_their_places();
    ports_are_found();
}

/// Proves that, if the records of a port are what left of the passed frames, nothing that is told of it speaks against the switch, given that by the
/// stamps no frame has left when it comes. It is the other direction of what `afdx_pairing` promises.
pub fn kept_is_fine()
    ensures { KeptIsFine }
{}

/// Proves that, if some fates of a link's frames explain what left at its ports, those that are told explain it too, given that each record can be
/// of one frame only or all is known of the account.
pub fn told_fates_explain()
    ensures { ToldFatesExplain }
{
    told_is_allowed();
    at_rest_is_the_account();
}

/// Proves that, if some fates of a link's frames explain all records that it was told of, the link conforms, given that its fates can be told, and
/// that no record is past the instant at which the recordings end, nor a frame by more than the tolerance. It is the other direction of what
/// `afdx_following` promises.
pub fn kept_link_conforms()
    ensures { KeptLinkConforms }
{
    told_is_allowed();
    at_rest_is_the_account();
}

/// Proves that no record is foreign of recordings that keep to what is proved of our switch, if each record has an address of the table's constant
/// field.
pub fn kept_is_not_foreign()
    ensures { KeptIsNotForeign }
{
    links_are_at_their_places();
    links_are_found();
    ports_are_found();
}

/// Proves that recordings that keep to what is proved of our switch are said to conform if no record is foreign, with the premises of
/// `kept_link_conforms` of each link. It is the other direction of what `afdx_compare` promises.
pub fn kept_is_conforms()
    ensures { KeptIsConforms }
{
    clean_frames_have_a_link();
    links_are_at_their_places();
    links_are_found();
    ports_are_found();
    high_links_leave_a_part();
    kept_link_conforms();
}

/// Proves that what a run answers is said to conform for each least latency up to the table's for which the table is accepted, and so is each span
/// of it, if a link's frames within a bound of each other differ.
pub fn our_runs_conform()
    ensures { OurRunsConform }
{
    clean_frames_have_a_link();
    clean_exactly();
    verdicts_name_links();
    by_stamp_is_ordered();
    ends_within_a_second();
    nothing_is_scattered();
    less_scatter_is_accepted();
    high_links_leave_a_part();
    exactly_is_isolated();
    outcomes_isolate();
    less_latency_is_kept_too();
    our_answers_are_kept();
    kept_is_not_foreign();
    kept_is_conforms();
}

/// Proves that what is read of the files of a run, of those that it read and of those that it put, is said to conform, as `our_runs_conform` has it
/// of their records: each file is the capture of one list of records.
pub fn our_files_conform()
    ensures { OurFilesConform }
{
    what_is_written_is_a_capture();
    each_file_has_one_reading();
    outputs_are_readable();
    our_runs_conform();
}
