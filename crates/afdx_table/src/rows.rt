//! The rows of a table, and what its numbers and words name.

ghost use Rattle.std.specs.Prelude.{◌≡◌, ◌≤◌, ◌*◌, ◌==◌, position};
ghost use Rattle.afdx_table.specs.Names.{speed_of, bag_of, priority_of, police_of};

use crate::limits::LATENCY_VERSION;
use afdx_units::{Bag, MICROSECOND, Police, Priority, Speed};
use arrayvec::ArrayVec;
use std::alloc::AllocError;
use std::marker::Model;

/// The ports that a link leads to: at most as many as a table has, so that they lie in the row, where an arrival finds them in
/// one step.
pub(crate) type Targets = ArrayVec<u8, 24>;

/// A port of the switch.
#[derive(Clone, Copy, Debug, PartialEq, Eq)]
pub struct PortRow {
    /// From 1 to 24.
    pub id: u8,
    /// The rate of its line.
    pub speed: Speed,
    /// Bytes of frames that may wait or be sent at its output, at most 16,777,216.
    pub buffer: u32,
    /// Nanoseconds after its stamp until which a frame may wait at its output, from 1,000 to 500,000,000.
    pub max_delay: u64,
}

/// Returns the place of the port of a number among these, if it is there. O(ports).
pub fn port_place(ports: &[PortRow], id: u8) -> Option<usize>
    ensures { result ≡ position (λ p. p.id == id) ports.now }
{
    ports.iter().position(|row| row.id == id)
}

/// A virtual link (ARINC 664 Part 7).
///
/// Contracts see it as a record of these fields, with the ports of `to` as a list.
#[derive(Debug, Drop)]
pub struct LinkRow {
    /// The last two bytes of the destination address of its frames.
    pub id: u16,
    /// The port at which its frames come in.
    pub from: u8,
    /// The ports at which they leave, in the order of the table.
    pub to: ArrayVec<u8, 24>,
    /// The greatest size of its frames in bytes, from 64 to 1518.
    pub max_size: u32,
    /// The queue that its frames wait in.
    pub priority: Priority,
    /// How it is policed.
    pub police: Police,
    /// The gap that its policing counts on.
    pub bag: Bag,
    /// Nanoseconds by which its frames may come early, at most 10,000,000.
    pub jitter: u64,
}

impl Model for LinkRow {
    ghost use Rattle.afdx_table.specs.Link.{Link};

    ghost Value = { Link };

    ghost view = { λ l. record {
      id = l.id;
      from = l.from;
      to = l.to.items;
      bag = l.bag;
      jitter = l.jitter;
      max_size = l.max_size;
      priority = l.priority;
      police = l.police;
    } };
}

impl LinkRow {
    /// Returns a copy of the row.
    pub(crate) fn copy(&self) -> LinkRow
        ensures { result ≡ self.now }
    {
        let Ok(to) = Targets::try_from(self.to.as_slice()) else {
            unreachable!();
        };
        LinkRow {
            id: self.id,
            from: self.from,
            to,
            bag: self.bag,
            jitter: self.jitter,
            max_size: self.max_size,
            priority: self.priority,
            police: self.police,
        }
    }
}

impl Clone for LinkRow {
    ghost is_clone = { λ x y. y ≡ x };

    fn clone(&self) -> Result<LinkRow, AllocError> {
        Ok(self.copy())
    }
}

/// Returns the nanoseconds of so many microseconds.
pub(crate) fn nanos(micros: u64) -> u64
    requires { micros ≤ 500000 }
    ensures { result ≡ micros * 1000 }
{
    micros * MICROSECOND
}

/// Returns the speed of a line of so many Mbit/s, if a table of this version may have one.
pub(crate) fn speed_from_mbit(version: u64, mbit: u64) -> Option<Speed>
    ensures { result ≡ speed_of version mbit }
{
    match mbit {
        10 => Some(Speed::Ten),
        100 => Some(Speed::Hundred),
        1000 if LATENCY_VERSION <= version => Some(Speed::Thousand),
        _ => None,
    }
}

/// Returns the gap of so many milliseconds, if there is one.
pub(crate) fn bag_from_ms(ms: u64) -> Option<Bag>
    ensures { result ≡ bag_of ms }
{
    Bag::from_ms(ms)
}

/// Returns the priority of a name, if there is one.
pub(crate) fn priority_from_text(text: &str) -> Option<Priority>
    ensures { result ≡ priority_of text.now }
{
    if text == "high" {
        Some(Priority::High)
    } else if text == "low" {
        Some(Priority::Low)
    } else {
        None
    }
}

/// Returns the kind of policing of a name, if there is one.
pub(crate) fn police_from_text(text: &str) -> Option<Police>
    ensures { result ≡ police_of text.now }
{
    if text == "byte" {
        Some(Police::Byte)
    } else if text == "frame" {
        Some(Police::Frame)
    } else {
        None
    }
}
