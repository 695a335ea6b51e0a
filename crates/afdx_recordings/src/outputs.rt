//! Which output ports were recorded.

ghost use Rattle.std.specs.Prelude.{◌≡◌, MatchOption};
ghost use Rattle.afdx_recordings.specs.declared.outputs.Outputs.{Outputs as Recorded};
ghost use Rattle.afdx_recordings.specs.Recordings.{is_recorded, with_output, IsPort, AreOutputsOf};

use crate::port::{MAX_PORT, port_of};

/// Which output ports were recorded.
#[derive(Clone, Copy, Debug, PartialEq, Eq)]
pub struct Outputs {
    /// By the ports' numbers, 1 to 24.
    by_port: [bool; MAX_PORT + 1],
}

impl Outputs {
    /// All ports.
    pub const ALL: Outputs = Outputs {
        by_port: [true; MAX_PORT + 1],
    };

    /// No port.
    const NONE: Outputs = Outputs {
        by_port: [false; MAX_PORT + 1],
    };

    /// Returns whether the port of a number was recorded. O(1).
    pub fn has(&self, port: u8) -> bool
        ensures { result ≡ is_recorded self.now port }
    {
        match self.by_port.get(usize::from(port)) {
            Some(was_recorded) => *was_recorded,
            None => false,
        }
    }

    /// Adds a port whose number a text writes. O(1).
    fn add(&mut self, text: &str, port: u8)
        requires { IsPort text.now port }
        ensures { self.new ≡ with_output self.old port }
    {
        self.by_port[usize::from(port)] = true;
    }

    /// Returns the ports of a text of numbers of ports, one or more with commas between; none if it is no such text. O(text).
    pub fn of_text(text: &str) -> Option<Outputs>
        ensures { MatchOption result ((outputs : Recorded) → AreOutputsOf text.now outputs → ⊥) (AreOutputsOf text.now) }
    {
        let mut outputs = Outputs::NONE;
        for part in text.split(',') {
            let port = port_of(part)?;
            outputs.add(part, port);
        }
        Some(outputs)
    }
}
