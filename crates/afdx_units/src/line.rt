//! Lines, and the frames on them.

ghost use Rattle.std.specs.Prelude.{◌≡◌, ◌≤◌};
ghost use Rattle.afdx_units.specs.Line.{size_of, tick_of, cost_of};

/// The least size of a frame, in bytes (IEEE 802.3).
pub const LEAST_SIZE: u32 = 64;

/// The greatest size of a frame, in bytes (IEEE 802.3).
pub const GREATEST_SIZE: u32 = 1518;

/// Bytes of the frame check sequence, which a capture leaves out (profile).
const CHECK_SEQUENCE: u32 = 4;

/// Bytes of line time that go with each frame (IEEE 802.3): 7 of preamble, 1 of start delimiter, 12 of gap.
const LINE_OVERHEAD: u64 = 20;

/// The rate of a line (IEEE 802.3).
#[derive(Clone, Copy, Debug, PartialEq, Eq)]
pub enum Speed {
    /// 10 Mbit/s.
    Ten,
    /// 100 Mbit/s.
    Hundred,
    /// 1000 Mbit/s.
    Thousand,
}

/// The two priorities of an output port (ARINC 664 Part 7).
#[derive(Clone, Copy, Debug, PartialEq, Eq)]
pub enum Priority {
    High,
    Low,
}

impl Speed {
    /// Returns the nanoseconds that a byte takes on the line.
    pub fn tick(self) -> u64
        ensures { result ≡ tick_of self }
    {
        match self {
            Speed::Ten => 800,
            Speed::Hundred => 80,
            Speed::Thousand => 8,
        }
    }
}

/// Returns the size in bytes of a frame of which so many bytes were captured.
///
/// A record holds at most 262,144 bytes, so a size is at most 262,148.
pub fn size(captured: u32) -> u32
    requires { captured ≤ 262144 }
    ensures { result ≡ size_of captured }
{
    captured + CHECK_SEQUENCE
}

/// Returns the nanoseconds for which a frame of this size in bytes occupies a line, gap included.
pub fn cost(speed: Speed, size: u32) -> u64
    requires { size ≤ 262148 }
    ensures { result ≡ cost_of speed size }
{
    (u64::from(size) + LINE_OVERHEAD) * speed.tick()
}
