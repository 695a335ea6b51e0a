//! Laws over the definitions.

ghost use Rattle.afdx_count.specs.Inner.Laws.{StartsWithNone, NoteCountsOneMore, EndCountsTheRun, NotesCountTheRun, SeenIsTheSum, PassedAndPolicedAreClean, OfferedIsTheSum};

use afdx_core::laws::one_more_arrival_is_appended;
use afdx_port::laws::{each_has_one_event, feeds_are_admitted_in_parts};

/// Proves that counters at 0 are the counts of no arrivals.
pub fn starts_with_none()
    ensures { StartsWithNone }
{}

/// Proves that noting an arrival turns the counts of the arrivals before it into those of one more.
pub fn note_counts_one_more()
    ensures { NoteCountsOneMore }
{
    one_more_arrival_is_appended();
}

/// Proves that the end turns the counts of all arrivals into the counts of the run.
pub fn end_counts_the_run()
    ensures { EndCountsTheRun }
{}

/// Proves that the notes of all arrivals, and then the end, make the counts of the run.
pub fn notes_count_the_run()
    ensures { NotesCountTheRun }
{
    note_counts_one_more();
}

/// Proves that the arrivals at a port are those of each refusal and the clean ones, while the counter of all of them is below its
/// greatest value.
pub fn seen_is_the_sum()
    ensures { SeenIsTheSum }
{}

/// Proves that the clean frames of a link are those that were passed and those that were not, while both counters are below their
/// greatest value.
pub fn passed_and_policed_are_clean()
    ensures { PassedAndPolicedAreClean }
{}

/// Proves that, at the end, the copies that were offered are those that were refused, discarded and sent, while the counter of those
/// that were offered is below its greatest value.
pub fn offered_is_the_sum()
    ensures { OfferedIsTheSum }
{
    each_has_one_event();
    feeds_are_admitted_in_parts();
}
