//! Laws over the definitions: functions that do nothing, whose contracts are the laws.

ghost use Rattle.afdx_wiring.specs.Inner.Limits.{LayoutsAreWithinLimits, NoPortHasTwoWires};

/// Proves that a layout that is read has at most 64 switches, and that no wire of it takes more than a millisecond.
pub fn layouts_are_within_limits()
    ensures { LayoutsAreWithinLimits }
{}

/// Proves that no two different wires of a layout that is read go to one port.
pub fn no_port_has_two_wires()
    ensures { NoPortHasTwoWires }
{}
