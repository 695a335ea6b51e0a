//! Laws over the definitions: functions that do nothing, whose contracts are the laws.

ghost use Rattle.afdx_account.specs.Inner.Laws.{StepsPassWhatConforms, ConformingIsTested, NextJoinsWhereItConforms, NextFrameJoinsWhereItConforms, PassedByTheirFrames, HeadroomIsCredited};
ghost use Rattle.afdx_account.specs.Inner.Laws.{HeadroomDecides, HeadroomIsDebited};
ghost use Rattle.afdx_account.specs.Early.{EarlyIsLeast, EarlyByTheLevel};
ghost use Rattle.afdx_account.specs.Inner.Laws.{BytePricesPay, FramePricesPay, PricesPay};

/// Proves that a full account that goes step by step, over frames whose stamps do not fall, passes exactly
/// the frames that keep to their allowances in all windows.
pub fn steps_pass_what_conforms()
    ensures { StepsPassWhatConforms }
{}

/// Proves that the test that the definitions compute with says whether a frame conforms: whether each window
/// that ends with it keeps to its allowance.
pub fn conforming_is_tested()
    ensures { ConformingIsTested }
{}

/// Proves that, of things that carry frames, the next one joins those passed so far if and only if its frame conforms
/// to theirs.
pub fn next_joins_where_it_conforms<T>()
    ensures { NextJoinsWhereItConforms T }
{}

/// Proves that the next of a list of frames joins those passed so far if and only if it conforms to them.
pub fn next_frame_joins_where_it_conforms()
    ensures { NextFrameJoinsWhereItConforms }
{}

/// Proves that, of things that carry frames, the frames of those that are passed are what is passed of the frames
/// alone.
pub fn passed_by_their_frames<T>()
    ensures { PassedByTheirFrames T }
{}

/// Proves that what the windows leave to send behaves as a level: it is credited over time up to the cap, it
/// decides whether a frame conforms, and a frame that is passed takes its price away from it.
pub fn headroom_is_a_level()
    ensures credited { HeadroomIsCredited }
    ensures decides { HeadroomDecides }
    ensures debited { HeadroomIsDebited }
{}

/// Proves that what a frame costs in bytes pays for its line time, at each speed.
pub fn byte_prices_pay()
    ensures { BytePricesPay }
{}

/// Proves that what a frame costs by frames pays for its line time, at each speed, if it is no longer than
/// the link allows.
pub fn frame_prices_pay()
    ensures { FramePricesPay }
{}

/// Proves that what a frame costs pays for its line time, whatever the kind of policing, if the link allows
/// its size.
pub fn prices_pay()
    ensures { PricesPay }
{}

/// Proves that the time by which a frame came too early is the least by which it would have to come later to conform,
/// if its link may send it at all, and that it is the time in which an account is credited what its level lacks.
pub fn early_is_least()
    ensures least { EarlyIsLeast }
    ensures by_level { EarlyByTheLevel }
{}
