//! Laws over the definitions: functions that do nothing, whose contracts are the laws.

ghost use Rattle.afdx_alone.specs.Inner.OwnClean.{OwnFramesAreClean};

/// Proves that a frame is a link's own exactly if it is clean in a table of the profile's constant that has this link alone,
/// coming in at the link's port.
pub fn own_frames_are_clean()
    ensures { OwnFramesAreClean }
{}
