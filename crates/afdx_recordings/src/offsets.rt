//! What is added to stamps, port by port.

ghost use Rattle.std.specs.Prelude.{◌≡◌, ℕ, ℤ, MatchOption};
ghost use Rattle.afdx_recordings.specs.declared.offsets.Offsets.{Offsets as Added};
ghost use Rattle.afdx_recordings.specs.Recordings.{offset_at, with_offset, Says, AreOffsetsOf};

use crate::port::{MAX_PORT, port_of};

/// What is added to the stamps of what was recorded at each output port, in nanoseconds.
#[derive(Clone, Copy, Debug, PartialEq, Eq)]
pub struct Offsets {
    /// By the ports' numbers, 1 to 24.
    by_port: [i64; MAX_PORT + 1],
}

/// Returns the port and the nanoseconds of a text `PORT=NS`; none if it is no such text. O(text).
fn said(text: &str) -> Option<(u8, i64)>
    ensures { MatchOption result ((port : ℕ) (offset : ℤ) → Says text.now port offset → ⊥) (λ p. Says text.now p.0 p.1) }
{
    let (port, offset) = text.split_once('=')?;
    let port = port_of(port)?;
    let offset = offset.parse::<i64>().ok()?;
    Some((port, offset))
}

impl Offsets {
    /// Nothing is added.
    pub const NONE: Offsets = Offsets {
        by_port: [0; MAX_PORT + 1],
    };

    /// Returns what is added at the port of a number; 0 if there is no such port. O(1).
    pub fn at(&self, port: u8) -> i64
        ensures { result ≡ offset_at self.now port }
    {
        match self.by_port.get(usize::from(port)) {
            Some(offset) => *offset,
            None => 0,
        }
    }

    /// Sets what is added at a port, as a text says it. O(1).
    fn set(&mut self, text: &str, port: u8, offset: i64)
        requires { Says text.now port offset }
        ensures { self.new ≡ with_offset self.old port offset }
    {
        self.by_port[usize::from(port)] = offset;
    }

    /// Returns the offsets of a text of `PORT=NS`, one or more with commas between; none if it is no such text. If a port comes more than once, the
    /// last one counts. O(text).
    pub fn of_text(text: &str) -> Option<Offsets>
        ensures { MatchOption result ((offsets : Added) → AreOffsetsOf text.now offsets → ⊥) (AreOffsetsOf text.now) }
    {
        let mut offsets = Offsets::NONE;
        for part in text.split(',') {
            let (port, offset) = said(part)?;
            offsets.set(part, port, offset);
        }
        Some(offsets)
    }
}
