//! Laws over the definitions: functions that do nothing, whose contracts are the laws.

ghost use Rattle.afdx_pairing.specs.Kept.{FineIsKept};

/// Proves that, if nothing that is told of a recording speaks against the switch, the records are what left of the passed frames: but for some at
/// the beginning and at the end, one by one, in their order and within their bounds.
pub fn fine_is_kept()
    ensures { FineIsKept }
{}
