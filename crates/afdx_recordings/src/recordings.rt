//! Recordings of a switch.

ghost use Rattle.std.specs.Prelude.{◌≤◌};
ghost use Rattle.afdx_recordings.specs.Limits.{greatest_least, greatest_tolerance};

use crate::offsets::Offsets;
use crate::outputs::Outputs;
use crate::stamps::Stamps;
use afdx_units::Stamp;

/// The most nanoseconds by which stamps may be off (profile): a second.
pub const MAX_TOLERANCE: u64 = 1_000_000_000;

/// The greatest least latency of a switch, in microseconds (profile): that of tables.
pub const MAX_LEAST: u64 = 100;

/// What is known of recordings and of the switch that they are of (profile). All times are nanoseconds.
#[derive(Clone, Copy, Debug, PartialEq, Eq)]
pub struct Recordings {
    /// The least latency of the switch, at most 100,000; 0 if it is not known.
    pub least: u64,
    /// The most by which a delay is off by the stamps, and a tap's stamp from the switch's own instant; at most a second.
    pub tolerance: u64,
    pub stamps: Stamps,
    /// Whether the recordings began before any frame came, with full accounts and nothing under way.
    pub rest: bool,
    /// Where the recordings begin; none for the first stamp of all.
    pub from: Option<Stamp>,
    /// Where they end; none for the last stamp of all.
    pub until: Option<Stamp>,
    pub offsets: Offsets,
    pub outputs: Outputs,
    pub ghost least_limit: { least ≤ greatest_least },
    pub ghost tolerance_limit: { tolerance ≤ greatest_tolerance },
}
