//! Laws over the definitions: functions that do nothing, whose contracts are the laws.

ghost use Rattle.afdx_paced.specs.Laws.{MergesAreCut, NothingEndsBefore, NothingLeavesBefore, LaterRecordsChangeNothing, LaterRecordsSendNothing, SendsGoOn, OutGoesOn, OutIsInOrder};

use afdx_core::laws::verdicts_name_links;
use afdx_filter::laws::clean_frames_have_a_link;
use afdx_port::laws::{
    ends_do_not_fall, events_come_in_parts, events_follow_the_line, sent_goes_on,
    service_is_of_items, stamps_keep_their_order,
};
use afdx_session::laws::later_arrivals_change_nothing;

/// Proves that arrivals by stamp are those before an instant by stamp, and then the others by stamp.
pub fn merges_are_cut()
    ensures { MergesAreCut }
{}

/// Proves that what is not sent before an instant ends no sooner than its line time later.
pub fn nothing_ends_before()
    ensures { NothingEndsBefore }
{
    events_come_in_parts();
    events_follow_the_line();
}

/// Proves that what has not left up to an instant leaves no sooner than one latency and the line time of the least
/// frame later.
pub fn nothing_leaves_before()
    ensures { NothingLeavesBefore }
{
    nothing_ends_before();
    clean_frames_have_a_link();
    verdicts_name_links();
    service_is_of_items();
}

/// Proves that a record that comes in at an instant or later changes nothing of what leaves up to it.
pub fn later_records_change_nothing()
    ensures { LaterRecordsChangeNothing }
{
    merges_are_cut();
    later_arrivals_change_nothing();
}

/// Proves that a record that comes in at an instant or later changes nothing of what is sent up to it.
pub fn later_records_send_nothing()
    ensures { LaterRecordsSendNothing }
{
    merges_are_cut();
    later_arrivals_change_nothing();
}

/// Proves that what is sent up to an instant comes first of what is sent up to a later one, and of all that is
/// sent.
pub fn sends_go_on()
    ensures { SendsGoOn }
{
    sent_goes_on();
    stamps_keep_their_order();
}

/// Proves that what leaves up to an instant comes first of what leaves up to a later one, and of all that leaves.
pub fn out_goes_on()
    ensures { OutGoesOn }
{
    sent_goes_on();
    stamps_keep_their_order();
}

/// Proves that what leaves a port leaves one after the other, and that each record is of a frame that was captured
/// whole.
pub fn out_is_in_order()
    ensures { OutIsInOrder }
{
    ends_do_not_fall();
}
