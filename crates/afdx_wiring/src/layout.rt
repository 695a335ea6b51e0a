//! What a network file says.

ghost use Rattle.std.specs.Prelude.{◌≡◌};
ghost use Rattle.afdx_wiring.specs.File.{is_down};

use crate::switches;
use std::marker::Model;

/// A switch of the network.
///
/// Contracts see it as a record of these fields, of which the texts are lists of bytes.
#[derive(Debug, Drop)]
pub struct Switch {
    /// From 1 to 16 ASCII letters, digits, `-` or `_`.
    pub name: String,
    /// The name of its table's file, as it is in the network file; it is not empty.
    pub path: String,
    /// The least that it takes for a frame, in nanoseconds, at most 100,000; 0 if that is not known.
    pub least: u64,
    /// Whether it is down: nothing comes in there, and so nothing leaves.
    pub down: bool,
}

impl Model for Switch {
    ghost use Rattle.std.specs.Prelude.{string_bytes};
    ghost use Rattle.afdx_wiring.specs.File.{Switch as Seen};

    ghost Value = { Seen };

    ghost view = { λ s. record { name = string_bytes s.name; path = string_bytes s.path; least = s.least; down = s.down } };
}

/// A port of a switch.
#[derive(Clone, Copy, Debug, PartialEq, Eq)]
pub struct End {
    /// The place of the switch in file order, from 0.
    pub switch: usize,
    /// The number of the port, from 1 to 24.
    pub port: u8,
}

/// A cable in one direction.
#[derive(Clone, Copy, Debug, PartialEq, Eq)]
pub struct Wire {
    /// The output port that it comes from.
    pub from: End,
    /// The ingress port that it goes to.
    pub to: End,
    /// Its delay in nanoseconds, at most 1,000,000.
    pub delay: u32,
    /// Whether nothing comes over it: it is said to be down, or the switch at one of its ends is.
    pub down: bool,
}

/// What a network file says.
///
/// Contracts see it as a record of these fields.
#[derive(Debug, Drop)]
pub struct Layout {
    /// Whether what each end system's port captured came over one line, one frame after the other.
    pub one_line: bool,
    /// In file order, at most 64, of different names.
    pub switches: Vec<Switch>,
    /// In file order; no two come from one port, and no two go to one port.
    pub wires: Vec<Wire>,
}

impl Model for Layout {
    ghost use Rattle.afdx_wiring.specs.File.{Layout as Seen};

    ghost Value = { Seen };

    ghost view = { λ l. record { one_line = l.one_line; switches = l.switches.items; wires = l.wires.items } };
}

impl Layout {
    /// Returns whether the switch at a place is down; false if there is none. O(1).
    pub fn is_down(&self, switch: usize) -> bool
        ensures { result ≡ is_down self.now.switches switch }
    {
        switches::is_down(&self.switches, switch)
    }
}
